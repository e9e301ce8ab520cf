ghost use Rattle.std.specs.Prelude.{◌≡◌, ◌<◌, ◌-◌, IfOk, codes, length, slice_get, Some, string_bytes};
ghost use Rattle.grove_draw.specs.declared.bar.Bar.{Bar};
ghost use Rattle.grove_draw.specs.Writings.{AreWritten, IsOwn, IsRowHead, IsShape, IsSvg};
ghost use Rattle.grove_draw.specs.Writings.{IsSvgPicture, IsSvgRow, IsTotal};
ghost use Rattle.grove_draw.specs.Scales.{x_of};

use crate::columns::{Columns, Widths};
use crate::escaping::{escaped, push_escaped};
use crate::words::{depth_below, name_of, path_in, push_cost, push_length, push_number, word_of};
use crate::{Bar, Drawing, Picture};
use std::alloc::{AllocError, Global};

const MARGIN: usize = 16;

const ROW: usize = 24;

const LETTER: usize = 8;

const INDENT: usize = 14;

const WIDTHS: Widths = Widths {
    least: 40,
    shared: 640,
    slot: 14,
};

const STYLE: &str = "<style>
.paper{fill:#ffffff}
text{font:13px ui-monospace,Menlo,Consolas,monospace;fill:#1b1f24}
.title{font-weight:bold;font-size:14px}
.small{font-size:11px}
.total{font-weight:bold}
.end{text-anchor:end}
.middle{text-anchor:middle}
.grid{stroke:#1b1f24;stroke-opacity:.22}
.bar{fill:#d3e3f2;stroke:#1b1f24}
.stroke{stroke:#1b1f24;stroke-width:3}
.work{fill:#0b4a7f}
.word{font-size:12px;font-weight:bold;fill:#ffffff}
@media screen and (prefers-color-scheme:dark){
.paper{fill:#15181c}
text{fill:#e8eaec}
.grid{stroke:#e8eaec}
.bar{fill:#33485c;stroke:#e8eaec}
.stroke{stroke:#e8eaec}
.work{fill:#a8d1f5}
.word{fill:#0c1116}
}
</style>
";

/// Where things lie from left to right.
#[derive(Drop)]
struct Frame {
    columns: Columns,
    /// Where the weights end.
    weights: usize,
    /// Where the first access begins.
    left: usize,
    /// Where the last one ends.
    right: usize,
}

/// The drawing as one SVG document.
pub fn svg(alloc: Global, drawing: &Drawing) -> Result<String, AllocError>
    ensures { IfOk result (λ text. IsSvg drawing.now (string_bytes text)) }
{
    let frame = Frame::new(alloc, drawing)?;
    let top = match &drawing.own {
        Some(own) => below_picture(own, MARGIN),
        None => MARGIN,
    };
    let own = frame.own(alloc, drawing)?;
    let settled = frame.picture(alloc, "The settled plan", &drawing.settled, top)?;
    let end = end_of(alloc, drawing, below_picture(&drawing.settled, top))?;
    let head = frame.head(alloc, end.below)?;
    let text = end.text;
    format!(in alloc; "<svg {head}{own}{settled}{text}</svg>\n")
}

/// What stands below the pictures, and where it ends.
#[derive(Drop)]
struct End {
    text: String,
    below: usize,
}

/// What light and dark mean, what the settled plan saves, and the accesses.
fn end_of(alloc: Global, drawing: &Drawing, top: usize) -> Result<End, AllocError> {
    let mut text = String::new(alloc);
    let mut below = push_key(&mut text, top)?;
    if let Some(saved) = drawing.saved() {
        below = push_saved(&mut text, saved, below)?;
    }
    below = push_accesses(&mut text, &drawing.settled, below)?;
    Ok(End { text, below })
}

/// Where the next thing may begin below a picture: below its total.
fn below_picture(picture: &Picture, top: usize) -> usize {
    rows_end(picture, top).saturating_add(2 * ROW)
}

/// Where the scale of a picture stands, and where its rows begin.
fn scale_top(top: usize) -> usize {
    top.saturating_add(54)
}

fn rows_top(top: usize) -> usize {
    scale_top(top).saturating_add(8)
}

/// Where the rows of a picture end.
fn rows_end(picture: &Picture, top: usize) -> usize {
    rows_top(top).saturating_add(picture.bars.len().saturating_mul(ROW))
}

impl Frame {
    fn new(alloc: Global, drawing: &Drawing) -> Result<Frame, AllocError> {
        let columns = Columns::new(alloc, &drawing.settled.accesses, WIDTHS)?;
        let mut names = names_width(&drawing.settled);
        if let Some(own) = &drawing.own {
            names = names.max(names_width(own));
        }
        let weights = MARGIN.saturating_add(names).saturating_add(80);
        let left = weights.saturating_add(20);
        let right = left.saturating_add(columns.end());
        Ok(Frame {
            columns,
            weights,
            left,
            right,
        })
    }

    /// Where a slot begins.
    fn x_of(&self, slot: usize) -> usize
        ensures { result ≡ x_of self.now slot }
    {
        self.left.saturating_add(self.columns.start(slot))
    }

    fn head(&self, alloc: Global, height: usize) -> Result<String, AllocError> {
        let width = self.right.saturating_add(230).max(640);
        let mut head = format!(in alloc;
            "xmlns=\"http://www.w3.org/2000/svg\" width=\"{width}\" "
        )?;
        writeln!(
            head,
            "height=\"{height}\" viewBox=\"0 0 {width} {height}\">"
        )?;
        head.push_str(STYLE)?;
        head.push_str("<rect class=\"paper\" width=\"100%\" height=\"100%\"/>\n")?;
        Ok(head)
    }

    /// The picture of the document's plan, if it has one.
    fn own(&self, alloc: Global, drawing: &Drawing) -> Result<String, AllocError>
        ensures { IfOk result (λ text. IsOwn (IsSvgPicture (x_of self.now)) drawing.now.own (string_bytes text)) }
    {
        match &drawing.own {
            Some(own) => self.picture(alloc, "The document&apos;s plan", own, MARGIN),
            None => Ok(String::new(alloc)),
        }
    }

    /// A picture below its title and its scale.
    fn picture(
        &self,
        alloc: Global,
        title: &str,
        picture: &Picture,
        top: usize,
    ) -> Result<String, AllocError>
        ensures { IfOk result (λ text. IsSvgPicture (x_of self.now) picture.now (string_bytes text)) }
    {
        let cost = picture.cost;
        let scale = self.scale(alloc, title, picture, top)?;
        let rows = self.rows(alloc, picture, rows_top(top))?;
        let total = self.total(alloc, picture, rows_end(picture, top))?;
        format!(in alloc; "<g class=\"plan\" data-cost=\"{cost}\">\n{scale}{rows}{total}</g>\n")
    }

    /// The title of a picture, and its scale.
    fn scale(
        &self,
        alloc: Global,
        title: &str,
        picture: &Picture,
        top: usize,
    ) -> Result<String, AllocError> {
        let cost = picture.cost;
        let y = top.saturating_add(14);
        let mut scale = String::new(alloc);
        writeln!(
            scale,
            "<text class=\"title\" x=\"{MARGIN}\" y=\"{y}\">{title}: cost {cost}</text>"
        )?;
        let end = rows_end(picture, top);
        self.push_scale(&mut scale, picture, scale_top(top), end)?;
        Ok(scale)
    }

    /// The rows of a picture's bars.
    fn rows(&self, alloc: Global, picture: &Picture, top: usize) -> Result<String, AllocError>
        ensures { IfOk result (λ text. AreWritten (IsSvgRow (x_of self.now)) picture.now.bars.items
            (string_bytes text)) }
    {
        let mut rows = String::new(alloc);
        let mut y = top;
        for place in 0..picture.bars.len() {
            let row = self.row(alloc, picture, place, y)?;
            rows.push_str(&row)?;
            y = y.saturating_add(ROW);
        }
        Ok(rows)
    }

    /// The row below the others: what the bars cost together.
    fn total(&self, alloc: Global, picture: &Picture, y: usize) -> Result<String, AllocError>
        ensures { IfOk result (λ text. IsTotal (codes "</text>\n") picture.now (string_bytes text)) }
    {
        let base = y.saturating_add(16);
        let costs = self.costs();
        let cost = picture.cost;
        let name = format!(in alloc;
            "<text class=\"total\" x=\"{MARGIN}\" y=\"{base}\">total</text>\n"
        )?;
        let front = format!(in alloc; "{name}<text class=\"total\" x=\"{costs}\" y=\"{base}\">")?;
        format!(in alloc; "{front}{cost}</text>\n")
    }

    /// Where what the bars cost begins.
    fn costs(&self) -> usize {
        self.right.saturating_add(28)
    }

    /// The names of the columns, and a line for each slot at which an access begins.
    fn push_scale(
        &self,
        out: &mut String,
        picture: &Picture,
        y: usize,
        end: usize,
    ) -> Result<(), AllocError> {
        let weights = self.weights;
        let costs = self.costs();
        writeln!(
            out,
            "<text class=\"small\" x=\"{MARGIN}\" y=\"{y}\">node</text>"
        )?;
        writeln!(
            out,
            "<text class=\"small end\" x=\"{weights}\" y=\"{y}\">weight</text>"
        )?;
        writeln!(
            out,
            "<text class=\"small\" x=\"{costs}\" y=\"{y}\">weight × slots = cost</text>"
        )?;
        let above = y.saturating_sub(15);
        let middle = self.left.saturating_add(self.right) / 2;
        writeln!(
            out,
            "<text class=\"small middle\" x=\"{middle}\" y=\"{above}\">slots</text>"
        )?;
        let from = y.saturating_add(4);
        for access in 0..=picture.accesses.len() {
            let x = self.x_of(access);
            let time = self.columns.time(access);
            writeln!(
                out,
                "<text class=\"small middle\" x=\"{x}\" y=\"{y}\">{time}</text>"
            )?;
            writeln!(out, "<path class=\"grid\" d=\"M{x} {from}V{end}\"/>")?;
        }
        Ok(())
    }

    /// The row of a bar: its name, its weight, the bar, and what it costs.
    fn row(
        &self,
        alloc: Global,
        picture: &Picture,
        place: usize,
        y: usize,
    ) -> Result<String, AllocError>
        requires { place < length picture.now.bars.items }
        ensures { IfOk result (λ text. (bar : Bar) × (slice_get picture.now.bars.items place ≡ Some bar)
            × IsSvgRow (x_of self.now) bar (string_bytes text)) }
    {
        let bar = &picture.bars[place];
        let head = row_head(alloc, bar)?;
        let label = self.label(alloc, picture, bar, place == 0, y)?;
        let shape = self.shape(alloc, bar, y)?;
        let rest = self.rest(alloc, picture, bar, y)?;
        format!(in alloc; "{head}{label}{shape}{rest}</g>\n")
    }

    /// What is known of a bar, its name and its weight.
    fn label(
        &self,
        alloc: Global,
        picture: &Picture,
        bar: &Bar,
        first: bool,
        y: usize,
    ) -> Result<String, AllocError> {
        let base = y.saturating_add(16);
        let indent = depth_below(picture, bar).saturating_mul(INDENT);
        let x = MARGIN.saturating_add(indent);
        let weights = self.weights;
        let weight = bar.weight;
        let lock = bar.lock;
        let release = bar.release;
        let path = escaped(alloc, &bar.path)?;
        let name = escaped(alloc, name_of(bar, first))?;
        let mut label = format!(in alloc;
            "<title>{path}: locked before access {lock}, released before access {release}</title>\n"
        )?;
        write!(label, "<text x=\"{x}\" y=\"{base}\">{name}")?;
        writeln!(
            label,
            "</text><text class=\"end\" x=\"{weights}\" y=\"{base}\">{weight}</text>"
        )?;
        Ok(label)
    }

    /// What is done to the bar's node, and what it costs.
    fn rest(
        &self,
        alloc: Global,
        picture: &Picture,
        bar: &Bar,
        y: usize,
    ) -> Result<String, AllocError> {
        let base = y.saturating_add(16);
        let costs = self.costs();
        let mut rest = String::new(alloc);
        self.push_works(&mut rest, picture, bar, y)?;
        write!(rest, "<text x=\"{costs}\" y=\"{base}\">")?;
        push_cost(&mut rest, bar, self.held(bar), "×")?;
        rest.push_str("</text>")?;
        Ok(rest)
    }

    /// For how many slots the bar lasts.
    fn held(&self, bar: &Bar) -> usize {
        let until = self.columns.time(bar.release as usize);
        until.saturating_sub(self.columns.time(bar.lock as usize))
    }

    /// The bar; a stroke where the node is let go in the slot of its lock.
    fn shape(&self, alloc: Global, bar: &Bar, y: usize) -> Result<String, AllocError>
        ensures { IfOk result (λ text. IsShape (x_of self.now bar.now.lock)
            (x_of self.now bar.now.release - x_of self.now bar.now.lock) (string_bytes text)) }
    {
        let x = self.x_of(bar.lock as usize);
        let width = self.x_of(bar.release as usize).saturating_sub(x);
        let top = y.saturating_add(3);
        let end = y.saturating_add(21);
        if width == 0 {
            return format!(in alloc; "<path class=\"stroke\" d=\"M{x} {top}V{end}\"/>\n");
        }
        format!(in alloc;
            "<rect class=\"bar\" x=\"{x}\" y=\"{top}\" width=\"{width}\" height=\"18\"/>\n"
        )
    }

    /// What is done to the bar's own node, each within the slots that it takes.
    fn push_works(
        &self,
        out: &mut String,
        picture: &Picture,
        bar: &Bar,
        y: usize,
    ) -> Result<(), AllocError> {
        for (place, access) in picture.accesses.iter().enumerate() {
            if access.node == bar.node {
                let x = self.x_of(place).saturating_add(2);
                let end = self.x_of(place.saturating_add(1)).saturating_sub(2);
                push_work(out, word_of(access.op), x, end, y)?;
            }
        }
        Ok(())
    }
}

/// The beginning of a row, which tells of its bar.
fn row_head(alloc: Global, bar: &Bar) -> Result<String, AllocError>
    ensures { IfOk result (λ text. IsRowHead bar.now (string_bytes text)) }
{
    let lock = bar.lock;
    let release = bar.release;
    let cost = bar.cost;
    let path = escaped(alloc, &bar.path)?;
    format!(in alloc;
        "<g class=\"row\" data-node=\"{path}\" data-lock=\"{lock}\" data-release=\"{release}\" data-cost=\"{cost}\">"
    )
}

/// An access within its bar.
fn push_work(
    out: &mut String,
    word: &str,
    x: usize,
    end: usize,
    y: usize,
) -> Result<(), AllocError> {
    let width = end.saturating_sub(x);
    let middle = x.saturating_add(width / 2);
    let top = y.saturating_add(5);
    let base = y.saturating_add(16);
    write!(
        out,
        "<rect class=\"work\" x=\"{x}\" y=\"{top}\" width=\"{width}\" height=\"14\"/>"
    )?;
    writeln!(
        out,
        "<text class=\"word middle\" x=\"{middle}\" y=\"{base}\">{word}</text>"
    )
}

/// How wide the names of a picture are.
fn names_width(picture: &Picture) -> usize {
    let mut width: usize = 40;
    for (place, bar) in picture.bars.iter().enumerate() {
        let indent = depth_below(picture, bar).saturating_mul(INDENT);
        let letters = name_of(bar, place == 0).chars().count();
        width = width.max(indent.saturating_add(letters.saturating_mul(LETTER)));
    }
    width
}

/// What light and dark mean.
fn push_key(out: &mut String, top: usize) -> Result<usize, AllocError> {
    let base = top.saturating_add(13);
    let inner = top.saturating_add(2);
    write!(
        out,
        "<rect class=\"bar\" x=\"16\" y=\"{top}\" width=\"40\" height=\"18\"/>"
    )?;
    writeln!(out, "<text x=\"64\" y=\"{base}\">held</text>")?;
    write!(
        out,
        "<rect class=\"work\" x=\"120\" y=\"{inner}\" width=\"40\" height=\"14\"/>"
    )?;
    writeln!(out, "<text x=\"168\" y=\"{base}\">accessed</text>")?;
    let end = top.saturating_add(18);
    write!(out, "<path class=\"stroke\" d=\"M262 {top}V{end}\"/>")?;
    writeln!(
        out,
        "<text x=\"272\" y=\"{base}\">locked and released at one slot</text>"
    )?;
    Ok(top.saturating_add(2 * ROW))
}

/// What the settled plan saves.
fn push_saved(out: &mut String, saved: u64, top: usize) -> Result<usize, AllocError> {
    let y = top.saturating_add(6);
    writeln!(
        out,
        "<text class=\"title\" x=\"{MARGIN}\" y=\"{y}\">The settled plan saves {saved}</text>"
    )?;
    Ok(y.saturating_add(ROW))
}

/// The accesses, one in a line.
fn push_accesses(out: &mut String, picture: &Picture, top: usize) -> Result<usize, AllocError> {
    let mut y = top;
    for (place, access) in picture.accesses.iter().enumerate() {
        let word = word_of(access.op);
        write!(
            out,
            "<text class=\"small\" x=\"{MARGIN}\" y=\"{y}\">access {place}: {word} "
        )?;
        push_escaped(out, path_in(picture, access.node))?;
        push_number(out, access.op)?;
        push_length(out, access)?;
        out.push_str("</text>\n")?;
        y = y.saturating_add(16);
    }
    Ok(y)
}
