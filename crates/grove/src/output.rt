ghost use Rattle.std.specs.Prelude.{◌≡◌, ◌≤◌, ℕ, true, take, IfOk, OnErr, OnOk};
ghost use Rattle.std.specs.Io.KnownBytes.{Appends};
ghost use Rattle.grove.specs.Answers.{printed, status_of, IsStopped};

use crate::answer::{Answer, Stop};
use crate::failure::Failure;
use crate::round_keeper::{KeptFile, RoundKeeper};
use grove_base::Hint;
use grove_serve::{Host, serve};
use grove_session::{DeviceFault, Sink, write_whole};
use std::alloc::Global;
use std::net::{Net, TcpListener, TcpStream};

/// Prints the answer, and gives its status. What a port is listened on for ends only where a device fails.
pub fn print<R: Host + Net<Listener = TcpListener, Stream = TcpStream>, O: Sink>(
    rt: &R,
    answer: Answer<'_>,
    out: &mut O,
) -> Result<u8, Stop>
    ensures printed { IfOk result (λ status. (status ≡ status_of answer.entry)
        × Appends (O.contents out.old) (O.contents out.new) (printed answer.entry)) }
    ensures stopped { OnErr result
        (IsStopped answer.entry (O.has_failed out.new) (O.contents out.old) (O.contents out.new)) }
    ensures few { IfOk result (λ status. status ≤ 1) }
{
    match answer {
        Answer::Done(lines) => {
            tell(&lines, out)?;
            Ok(0)
        }
        Answer::Refused { line, .. } => {
            tell(&line, out)?;
            Ok(1)
        }
        Answer::Listen { line, service } => {
            tell(&line, out)?;
            Err(stop_of(serve(rt, service)))
        }
    }
}

/// Why connections are served no more, where this kept the rounds, or there was no thread to look after that.
fn stop_of(keeper: Option<RoundKeeper<KeptFile<'_>>>) -> Stop {
    match keeper {
        Some(keeper) => keeper.failure().unwrap_or(Failure::Accept).stop(),
        None => Stop::Memory,
    }
}

/// Prints the text.
pub fn tell<S: Sink>(text: &str, sink: &mut S) -> Result<(), Stop>
    ensures whole { OnOk result (Appends (S.contents sink.old) (S.contents sink.new) text.now) }
    ensures cut { OnErr result ((S.has_failed sink.new ≡ true)
        × (count : ℕ) × Appends (S.contents sink.old) (S.contents sink.new) (take count text.now)) }
{
    match write_whole(sink, text.as_bytes()) {
        Ok(()) => Ok(()),
        Err(DeviceFault) => Err(Stop::Device(None)),
    }
}

/// Prints the line of a hint on standard error. It is there to help: where it can't be printed, the answer stands.
pub fn add<E: Sink>(alloc: Global, hint: Option<Hint>, err: &mut E) {
    let Some(hint) = hint else {
        return;
    };
    let hint = hint.as_str();
    if let Ok(line) = format!(in alloc; "{hint}\n") {
        let _printed = write_whole(err, line.as_bytes());
    }
}

/// Says on standard error why there is no answer, after the line of the system's reason, if there is one.
pub fn say_stop<E: Sink>(why: Stop, reason: Option<String>, err: &mut E) -> u8
    ensures { result ≡ 3 }
{
    if let Some(line) = reason {
        let _told = write_whole(err, line.as_bytes());
    }
    report(why, err)
}

/// Says on standard error why there is no answer.
pub fn report<E: Sink>(why: Stop, err: &mut E) -> u8
    ensures { result ≡ 3 }
{
    let line = match why {
        Stop::Device(_) => "device\n",
        Stop::Memory => "memory\n",
    };
    // Where standard error fails too, the status alone is left to tell of it.
    let _told = write_whole(err, line.as_bytes());
    3
}
