ghost use Rattle.std.specs.Prelude.{◌≡◌, ◌<◌, IfOk, codes, length, slice_get, Some, string_bytes};
ghost use Rattle.grove_draw.specs.declared.bar.Bar.{Bar};
ghost use Rattle.grove_draw.specs.Writings.{AreWritten, IsOwn, IsText, IsTextPicture, IsTextRow, IsTotal};

use crate::columns::{Columns, Widths};
use crate::words::{depth_below, name_of, path_in, push_length, push_number, word_of};
use crate::{Bar, Drawing, Picture};
use grove_access::Access;
use std::alloc::{AllocError, Global};

/// How wide the names are at most.
const NAMES: usize = 30;

/// How wide a weight is, with a blank on each side.
const WEIGHT: usize = 8;

/// How wide the accesses are together, at most.
const ACCESSES: usize = 64;

/// What the letters of the bars mean.
const KEY: &str =
    "key: get=== accesses the node, ------ holds it, | locks and releases it at one slot\n\n";

/// The drawing for a terminal: no row is longer than some 120 letters.
pub fn text(alloc: Global, drawing: &Drawing) -> Result<String, AllocError>
    ensures { IfOk result (λ text. IsText drawing.now (string_bytes text)) }
{
    let columns = columns_of(alloc, &drawing.settled.accesses)?;
    let own = own_text(alloc, drawing, &columns)?;
    let settled = titled(alloc, "the settled plan", &drawing.settled, &columns)?;
    let end = end_of(alloc, drawing)?;
    format!(in alloc; "{own}{settled}{end}")
}

/// The picture of the document's plan, if it has one.
fn own_text(alloc: Global, drawing: &Drawing, columns: &Columns) -> Result<String, AllocError>
    ensures { IfOk result (λ text. IsOwn (IsTextPicture (codes "the document's plan")) drawing.now.own
        (string_bytes text)) }
{
    match &drawing.own {
        Some(own) => titled(alloc, "the document's plan", own, columns),
        None => Ok(String::new(alloc)),
    }
}

/// What the letters of the bars mean, what the settled plan saves, and the accesses.
fn end_of(alloc: Global, drawing: &Drawing) -> Result<String, AllocError> {
    let mut end = String::new(alloc);
    end.push_str(KEY)?;
    if let Some(saved) = drawing.saved() {
        writeln!(end, "saved: {saved}\n")?;
    }
    push_accesses(&mut end, &drawing.settled)?;
    Ok(end)
}

/// The columns of the accesses: of a few, each has room for its word.
fn columns_of(alloc: Global, accesses: &[Access]) -> Result<Columns, AllocError> {
    let (least, slot) = if accesses.len() <= 12 { (4, 2) } else { (1, 5) };
    let shared = ACCESSES.saturating_sub(accesses.len().saturating_mul(least));
    let widths = Widths {
        least,
        shared,
        slot,
    };
    Columns::new(alloc, accesses, widths)
}

/// A picture below its title and its scale.
fn titled(
    alloc: Global,
    title: &str,
    picture: &Picture,
    columns: &Columns,
) -> Result<String, AllocError>
    ensures { IfOk result (λ text. IsTextPicture title.now picture.now (string_bytes text)) }
{
    let cost = picture.cost;
    let names = names_width(picture);
    let scale = scale_of(alloc, picture, names, columns)?;
    let rows = rows_of(alloc, picture, names, columns)?;
    let total = total_of(alloc, picture, names, columns)?;
    format!(in alloc; "{title}: cost {cost}\n{scale}{rows}{total}\n")
}

/// The names of the columns, and the slots at which the accesses begin.
fn scale_of(
    alloc: Global,
    picture: &Picture,
    names: usize,
    columns: &Columns,
) -> Result<String, AllocError> {
    let mut scale = String::new(alloc);
    push_padded(&mut scale, "node", names)?;
    scale.push_str(" weight ")?;
    push_times(&mut scale, picture, columns)?;
    Ok(scale)
}

/// The rows of a picture's bars.
fn rows_of(
    alloc: Global,
    picture: &Picture,
    names: usize,
    columns: &Columns,
) -> Result<String, AllocError>
    ensures { IfOk result (λ text. AreWritten IsTextRow picture.now.bars.items (string_bytes text)) }
{
    let mut rows = String::new(alloc);
    for place in 0..picture.bars.len() {
        let row = row_of(alloc, picture, place, names, columns)?;
        rows.push_str(&row)?;
    }
    Ok(rows)
}

/// The last row: below what the bars cost, what they cost together.
fn total_of(
    alloc: Global,
    picture: &Picture,
    names: usize,
    columns: &Columns,
) -> Result<String, AllocError>
    ensures { IfOk result (λ text. IsTotal (codes "\n") picture.now (string_bytes text)) }
{
    let front = total_front(alloc, names, columns)?;
    let cost = picture.cost;
    format!(in alloc; "{front}{cost}\n")
}

/// What the last row is called, as wide as what stands before the costs.
fn total_front(alloc: Global, names: usize, columns: &Columns) -> Result<String, AllocError> {
    let width = names
        .saturating_add(WEIGHT)
        .saturating_add(columns.end())
        .saturating_add(2);
    let mut front = String::new(alloc);
    push_padded(&mut front, "total", width)?;
    Ok(front)
}

/// The row of a bar: its name, its weight, the bar, and what it costs.
fn row_of(
    alloc: Global,
    picture: &Picture,
    place: usize,
    names: usize,
    columns: &Columns,
) -> Result<String, AllocError>
    requires { place < length picture.now.bars.items }
    ensures { IfOk result (λ text. (bar : Bar) × (slice_get picture.now.bars.items place ≡ Some bar)
        × IsTextRow bar (string_bytes text)) }
{
    let bar = &picture.bars[place];
    let drawn = drawn_of(alloc, picture, bar, place == 0, names, columns)?;
    let weight = bar.weight;
    let cost = bar.cost;
    let held = columns
        .time(bar.release as usize)
        .saturating_sub(columns.time(bar.lock as usize));
    format!(in alloc; "{drawn}{weight} x {held} = {cost}\n")
}

/// The name of a bar, its weight, and the bar.
fn drawn_of(
    alloc: Global,
    picture: &Picture,
    bar: &Bar,
    first: bool,
    names: usize,
    columns: &Columns,
) -> Result<String, AllocError> {
    let mut drawn = String::new(alloc);
    push_name(&mut drawn, picture, bar, first, names)?;
    push_weight(&mut drawn, bar)?;
    push_bar(&mut drawn, picture, bar, columns)?;
    Ok(drawn)
}

/// How wide the names of a picture are.
fn names_width(picture: &Picture) -> usize {
    let mut width: usize = 4;
    for (place, bar) in picture.bars.iter().enumerate() {
        let indent = depth_below(picture, bar).saturating_mul(2);
        let letters = name_of(bar, place == 0).chars().count();
        width = width.max(indent.saturating_add(letters));
    }
    width.min(NAMES)
}

/// The slots at which the accesses begin, as far as there is room for them.
fn push_times(out: &mut String, picture: &Picture, columns: &Columns) -> Result<(), AllocError> {
    let mut at: usize = 0;
    for access in 0..=picture.accesses.len() {
        let start = columns.start(access);
        if start >= at {
            push_letters(out, ' ', start.saturating_sub(at))?;
            let before = out.len();
            let time = columns.time(access);
            write!(out, "{time}")?;
            let letters = out.len().saturating_sub(before);
            at = start.saturating_add(letters);
            out.push(' ')?;
            at = at.saturating_add(1);
        }
    }
    out.push_str("slots\n")
}

fn push_name(
    out: &mut String,
    picture: &Picture,
    bar: &Bar,
    first: bool,
    width: usize,
) -> Result<(), AllocError> {
    let indent = depth_below(picture, bar).saturating_mul(2).min(width / 2);
    push_letters(out, ' ', indent)?;
    push_padded(out, name_of(bar, first), width.saturating_sub(indent))
}

fn push_weight(out: &mut String, bar: &Bar) -> Result<(), AllocError> {
    let weight = bar.weight;
    write!(out, " {weight:>6} ")
}

/// The bar over the accesses: a word where its own node is accessed, dashes where it is held else, and a stroke where
/// it is let go in the slot of its lock.
fn push_bar(
    out: &mut String,
    picture: &Picture,
    bar: &Bar,
    columns: &Columns,
) -> Result<(), AllocError> {
    let lock = bar.lock as usize;
    let release = bar.release as usize;
    for (place, access) in picture.accesses.iter().enumerate() {
        let width = columns
            .start(place.saturating_add(1))
            .saturating_sub(columns.start(place));
        if lock <= place && place < release {
            if access.node == bar.node {
                push_filled(out, word_of(access.op), '=', width)?;
            } else {
                push_letters(out, '-', width)?;
            }
        } else if lock == place && release == place {
            push_filled(out, "|", ' ', width)?;
        } else {
            push_letters(out, ' ', width)?;
        }
    }
    let ends_there = lock == picture.accesses.len();
    out.push_str(if ends_there { "| " } else { "  " })
}

/// The accesses, one in a line.
fn push_accesses(out: &mut String, picture: &Picture) -> Result<(), AllocError> {
    for (place, access) in picture.accesses.iter().enumerate() {
        let word = word_of(access.op);
        let path = path_in(picture, access.node);
        write!(out, "access {place}: {word} {path}")?;
        push_number(out, access.op)?;
        push_length(out, access)?;
        out.push('\n')?;
    }
    Ok(())
}

fn push_letters(out: &mut String, letter: char, times: usize) -> Result<(), AllocError> {
    for _ in 0..times {
        out.push(letter)?;
    }
    Ok(())
}

/// The text within a width, filled up by a letter.
fn push_filled(out: &mut String, text: &str, fill: char, width: usize) -> Result<(), AllocError> {
    let mut rest = width;
    for letter in text.chars() {
        if rest > 0 {
            out.push(letter)?;
            rest -= 1;
        }
    }
    push_letters(out, fill, rest)
}

/// The text within a width, filled up by blanks; of a longer one the last letters, after two dots.
fn push_padded(out: &mut String, text: &str, width: usize) -> Result<(), AllocError> {
    let letters = text.chars().count();
    if letters <= width {
        out.push_str(text)?;
        return push_letters(out, ' ', width.saturating_sub(letters));
    }
    out.push_str("..")?;
    let dropped = letters.saturating_sub(width.saturating_sub(2));
    for (place, letter) in text.chars().enumerate() {
        if place >= dropped {
            out.push(letter)?;
        }
    }
    Ok(())
}
