ghost use Rattle.std.specs.Prelude.{◌≡◌, ◌++◌, IfOk, OnOk, map};
ghost use Rattle.json.specs.Tree.{json_tokens};
ghost use Rattle.serde_json.specs.Written.{compact_text, outline};
ghost use Rattle.grove_wire.specs.Replies.{round_data};
ghost use Rattle.grove_wire.specs.Writing.{array_of, count_data, reply_data};

use grove_access::Reply;
use grove_tree::NoMemory;
use json::Writer;
use std::alloc::{AllocError, Global};

/// About how many bytes the reply to a short line takes.
const SHORT_BYTES: usize = 96;

/// The text of `round_value`, written straight.
pub fn round_text(
    alloc: Global,
    round: u64,
    places: &[u32],
    replies: &[&[Reply]],
) -> Result<Vec<u8>, NoMemory>
    ensures { IfOk result (λ text. text.items
        ≡ compact_text (round_data round places.now (map (λ list. list.now) replies.now))) }
{
    let mut writer = Writer::new(Vec::with_capacity(alloc, SHORT_BYTES)?);
    writer.begin_object()?;
    writer.key("places")?;
    write_counts(&mut writer, places)?;
    writer.key("replies")?;
    write_lists(&mut writer, replies)?;
    writer.key("round")?;
    writer.u64(round)?;
    writer.end_object()?;
    Ok(writer.into_inner())
}

fn write_counts(writer: &mut Writer, counts: &[u32]) -> Result<(), AllocError>
    ensures tokens { OnOk result (writer.new.tokens
        ≡ writer.old.tokens ++ json_tokens (outline (array_of count_data counts.now))) }
    ensures before { writer.new.before ≡ writer.old.before }
{
    writer.begin_array()?;
    for count in counts {
        writer.u64(u64::from(*count))?;
    }
    writer.end_array()?;
    Ok(())
}

/// The replies of each list.
fn write_lists(writer: &mut Writer, replies: &[&[Reply]]) -> Result<(), AllocError>
    ensures tokens { OnOk result (writer.new.tokens ≡ writer.old.tokens
        ++ json_tokens (outline (array_of (array_of reply_data) (map (λ list. list.now) replies.now)))) }
    ensures before { writer.new.before ≡ writer.old.before }
{
    writer.begin_array()?;
    for list in replies {
        write_replies(writer, *list)?;
    }
    writer.end_array()?;
    Ok(())
}

fn write_replies(writer: &mut Writer, replies: &[Reply]) -> Result<(), AllocError>
    ensures tokens { OnOk result (writer.new.tokens
        ≡ writer.old.tokens ++ json_tokens (outline (array_of reply_data replies.now))) }
    ensures before { writer.new.before ≡ writer.old.before }
{
    writer.begin_array()?;
    for reply in replies {
        write_reply(writer, *reply)?;
    }
    writer.end_array()?;
    Ok(())
}

fn write_reply(writer: &mut Writer, reply: Reply) -> Result<(), AllocError>
    ensures tokens { OnOk result (writer.new.tokens ≡ writer.old.tokens ++ json_tokens (outline (reply_data reply))) }
    ensures before { writer.new.before ≡ writer.old.before }
{
    match reply {
        Reply::Value(number) => writer.i64(number),
        Reply::Done => writer.string("ok"),
        Reply::Range => writer.string("range"),
        Reply::Short => writer.string("short"),
    }
}
