ghost use Rattle.std.specs.Prelude.{◌≡◌, IfOk};
ghost use Rattle.serde_json.specs.View.{view};
ghost use Rattle.grove_wire.specs.Writing.{reply_data, array_of, number_data};

use grove_access::Reply;
use grove_tree::NoMemory;
use serde_json::Value;
use std::alloc::Global;

/// The array of the replies: each a number, `"ok"`, `"range"` or `"short"`.
pub fn replies_value(alloc: Global, replies: &[Reply]) -> Result<Value, NoMemory>
    ensures { IfOk result (λ value. view value ≡ array_of reply_data replies.now) }
{
    let mut items = Vec::new(alloc);
    for reply in replies {
        items.push(reply_value(alloc, *reply)?)?;
    }
    Ok(Value::Array(items))
}

fn reply_value(alloc: Global, reply: Reply) -> Result<Value, NoMemory>
    ensures { IfOk result (λ value. view value ≡ reply_data reply) }
{
    match reply {
        Reply::Value(number) => Ok(Value::from(number)),
        Reply::Done => Ok(Value::String(String::from_str(alloc, "ok")?)),
        Reply::Range => Ok(Value::String(String::from_str(alloc, "range")?)),
        Reply::Short => Ok(Value::String(String::from_str(alloc, "short")?)),
    }
}

/// The array of the numbers.
pub fn numbers_value(alloc: Global, numbers: &[i64]) -> Result<Value, NoMemory>
    ensures { IfOk result (λ value. view value ≡ array_of number_data numbers.now) }
{
    let mut items = Vec::new(alloc);
    for number in numbers {
        items.push(Value::from(*number))?;
    }
    Ok(Value::Array(items))
}
