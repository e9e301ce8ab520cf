ghost use Rattle.std.specs.Prelude.{◌≡◌, ◌≢◌, ◌≤◌, ◌⊎◌, IfOk, OnErr};
ghost use Rattle.grove_words.specs.NoOrders.{HasText};
ghost use Rattle.std.specs.Io.KnownBytes.{Appends};
ghost use Rattle.grove.specs.Answers.{printed, status_of, IsStopped};
ghost use Rattle.grove.specs.Outcomes.{IsResumed, TellsFile};
ghost use Rattle.grove.specs.Runs.{HasFile, IsDone, IsPrinted, IsSaid, IsTold};

use crate::answer::{Response, Stop};
use crate::answering::response_to;
use crate::asking::ask;
use crate::closed_streams::Placeholders;
use crate::data_file::DataFile;
use crate::data_opening::Keeping;
use crate::data_telling::tell_data;
use crate::document::document_bytes;
use crate::explained::Explained;
use crate::failure::{StreamErrors, reason_for, reason_of_output};
use crate::hinting::{awaited_by, command_lacks, with_hint};
use crate::output::{add, print, report, say_stop, tell};
use crate::saving::save;
use crate::serving::serve_file;
use grove_serve::{Host, Talk};
use grove_session::{Sink, Source};
use grove_words::{Command, Document, Front, Invocation, NoOrder, Order, Serving, order_of};
use std::alloc::Global;
use std::fs::File;
use std::net::{Net, TcpListener, TcpStream};
use std::rt::Files;

/// Does what the words after the program's name ask for, and gives the status of the process: 0 done, 1 refused,
/// 2 wrong words, found before anything is read, 3 no answer or one that couldn't be printed. Where a document is to be
/// read from an input that `is_typed`, `err` says first which one is awaited.
pub fn run_command<
    R: Host + Files<File = File> + Net<Listener = TcpListener, Stream = TcpStream>,
    I: Source + Explained,
    O: Sink + Explained,
    E: Sink,
>(
    rt: &R,
    disk: &HostRuntime,
    words: &[String],
    is_typed: bool,
    input: &mut I,
    out: &mut O,
    err: &mut E,
) -> u8
    ensures done { ((order : Order)
        × IsDone order (I.remaining input.old) (O.contents out.old) (O.contents out.new) (O.has_failed out.new) result)
        ⊎ IsTold (O.contents out.old) (O.contents out.new) (O.has_failed out.new)
        (E.contents err.old) (E.contents err.new) result }
    ensures unread { result ≡ 2 → input.new ≡ input.old }
{
    match order_of(rt.alloc(), words) {
        Ok(invocation) => {
            if is_typed {
                invite(rt.alloc(), words, &invocation.order, err);
            }
            carry_out(rt, disk, &invocation, input, out, err)
        }
        Err(why) => say_no_order(rt.alloc(), why, out, err),
    }
}

/// Says on standard error which document is to be typed, where one is, and by which command if none is named.
fn invite<E: Sink>(alloc: Global, words: &[String], order: &Order<'_>, err: &mut E) {
    if words.is_empty() {
        add(alloc, command_lacks(alloc), err);
    }
    if let Order::Do {
        command,
        document: Document::StandardInput,
    } = order
    {
        add(alloc, awaited_by(alloc, command), err);
    }
}

/// Does what is ordered, and gives the status of the process. A document without a name is read from `input`. Beside a
/// refusal of the document a hint may go to `err`, and beside an answer to one that has a member which nothing uses and
/// which resembles one that is used.
pub fn carry_out<
    R: Host + Files<File = File> + Net<Listener = TcpListener, Stream = TcpStream>,
    I: Source + Explained,
    O: Sink + Explained,
    E: Sink,
>(
    rt: &R,
    disk: &HostRuntime,
    invocation: &Invocation<'_>,
    input: &mut I,
    out: &mut O,
    err: &mut E,
) -> u8
    ensures done { IsDone invocation.now.order (I.remaining input.old)
        (O.contents out.old) (O.contents out.new) (O.has_failed out.new) result }
    ensures taken { result ≢ 2 }
    ensures apart { HasFile invocation.now.order → input.new ≡ input.old }
{
    match obey(rt, disk, &invocation.order, input, out, err) {
        Ok(status) => status,
        Err(why) => {
            let streams = StreamErrors {
                input: input.error(),
                output: out.error(),
            };
            let reason = reason_for(rt.alloc(), why, invocation, streams);
            say_stop(why, reason, err)
        }
    }
}

/// Does the order, and gives its status.
fn obey<
    R: Host + Files<File = File> + Net<Listener = TcpListener, Stream = TcpStream>,
    I: Source,
    O: Sink,
    E: Sink,
>(
    rt: &R,
    disk: &HostRuntime,
    order: &Order<'_>,
    input: &mut I,
    out: &mut O,
    err: &mut E,
) -> Result<u8, Stop>
    ensures done { IfOk result (IsDone order.now (I.remaining input.old)
        (O.contents out.old) (O.contents out.new) (O.has_failed out.new)) }
    ensures stopped { OnErr result (IsDone order.now (I.remaining input.old)
        (O.contents out.old) (O.contents out.new) (O.has_failed out.new) 3) }
    ensures few { IfOk result (λ status. status ≤ 1) }
    ensures apart { HasFile order.now → input.new ≡ input.old }
{
    let _held = Placeholders::for_order(rt, order);
    let file = data_file(rt.alloc(), order);
    let keeping = Keeping {
        disk,
        file: file.as_ref(),
    };
    match order {
        Order::Do { command, document } => {
            do_command(rt, keeping, command, *document, input, out, err)
        }
        Order::Resume { front, serving, .. } => resume(rt, keeping, *front, serving, out, err),
        Order::Data { file, checks } => tell_file(rt, file, *checks, out, err),
        Order::Ask { server, lines } => ask(rt, *server, lines, input, out, err),
        Order::Save { server, file } => save(rt, *server, file, out, err),
    }
}

/// Does the command with the document, and gives its status.
fn do_command<
    R: Host + Files<File = File> + Net<Listener = TcpListener, Stream = TcpStream>,
    I: Source,
    O: Sink,
    E: Sink,
>(
    rt: &R,
    keeping: Keeping<'_>,
    command: &Command<'_>,
    document: Document<'_>,
    input: &mut I,
    out: &mut O,
    err: &mut E,
) -> Result<u8, Stop>
    ensures done { IfOk result (IsDone (Order.Do command.now document.entry) (I.remaining input.old)
        (O.contents out.old) (O.contents out.new) (O.has_failed out.new)) }
    ensures stopped { OnErr result (IsDone (Order.Do command.now document.entry) (I.remaining input.old)
        (O.contents out.old) (O.contents out.new) (O.has_failed out.new) 3) }
    ensures few { IfOk result (λ status. status ≤ 1) }
    ensures apart { HasFile (Order.Do command.now document.entry) → input.new ≡ input.old }
{
    let bytes = document_bytes(rt, command, document, input)?;
    let response = response_to(rt, keeping, command, &bytes)?;
    say(rt, response, out, err)
}

/// Serves the store that the file of its rounds has, and gives the status of the process.
fn resume<
    R: Host + Files<File = File> + Net<Listener = TcpListener, Stream = TcpStream>,
    O: Sink,
    E: Sink,
>(
    rt: &R,
    keeping: Keeping<'_>,
    front: Front,
    serving: &Serving<'_>,
    out: &mut O,
    err: &mut E,
) -> Result<u8, Stop>
    ensures done { IfOk result (IsPrinted (IsResumed serving.now.place) 3 (O.contents out.old) (O.contents out.new)) }
    ensures stopped { OnErr result (IsSaid (IsResumed serving.now.place) 3 (O.contents out.old) (O.contents out.new)
        (O.has_failed out.new) 3) }
    ensures few { IfOk result (λ status. status ≤ 1) }
{
    let talk = match front {
        Front::Sessions => Talk::Lines,
        Front::Page => Talk::Requests,
    };
    let answer = serve_file(rt, keeping, None, serving, talk)?;
    say(rt, with_hint(rt.alloc(), answer), out, err)
}

/// Tells what a file of rounds has, and gives the status of the process.
fn tell_file<
    R: Host + Files<File = File> + Net<Listener = TcpListener, Stream = TcpStream>,
    O: Sink,
    E: Sink,
>(rt: &R, file: &str, checks: bool, out: &mut O, err: &mut E) -> Result<u8, Stop>
    ensures done { IfOk result (IsPrinted (TellsFile checks) 0 (O.contents out.old) (O.contents out.new)) }
    ensures stopped { OnErr result (IsSaid (TellsFile checks) 0 (O.contents out.old) (O.contents out.new)
        (O.has_failed out.new) 3) }
    ensures few { IfOk result (λ status. status ≤ 1) }
{
    let answer = tell_data(rt, file, checks)?;
    say(rt, with_hint(rt.alloc(), answer), out, err)
}

/// Prints the answer, and what a person is told beside it, and gives the status of the process.
fn say<R: Host + Net<Listener = TcpListener, Stream = TcpStream>, O: Sink, E: Sink>(
    rt: &R,
    response: Response<'_>,
    out: &mut O,
    err: &mut E,
) -> Result<u8, Stop>
    ensures printed { IfOk result (λ status. (status ≡ status_of response.entry.answer)
        × Appends (O.contents out.old) (O.contents out.new) (printed response.entry.answer)) }
    ensures stopped { OnErr result (IsStopped response.entry.answer (O.has_failed out.new) (O.contents out.old)
        (O.contents out.new)) }
    ensures few { IfOk result (λ status. status ≤ 1) }
{
    let Response { answer, hint } = response;
    let status = print(rt, answer, out)?;
    add(rt.alloc(), hint, err);
    Ok(status)
}

/// The file in which an order has rounds kept, if it does, and there is memory for its names.
fn data_file<'a>(alloc: Global, order: &Order<'a>) -> Option<DataFile<'a>> {
    let name = match order {
        Order::Do {
            command: Command::Serve(serving) | Command::Page(serving),
            ..
        } => serving.data?,
        Order::Resume { file, .. } => file,
        _ => return None,
    };
    DataFile::new(alloc, name).ok()
}

/// Tells what there is to tell to words that are no order, and gives the status of the process.
pub fn say_no_order<O: Sink + Explained, E: Sink>(
    alloc: Global,
    why: NoOrder,
    out: &mut O,
    err: &mut E,
) -> u8
    requires { HasText why }
    ensures { IsTold (O.contents out.old) (O.contents out.new) (O.has_failed out.new)
        (E.contents err.old) (E.contents err.new) result }
{
    match why {
        NoOrder::Shown(lines) => match tell(&lines, out) {
            Ok(()) => 0,
            Err(why) => say_stop(why, reason_of_output(alloc, out.error()), err),
        },
        NoOrder::Wrong(lines) => match tell(&lines, err) {
            Ok(()) => 2,
            Err(why) => report(why, err),
        },
        NoOrder::Memory => report(Stop::Memory, err),
    }
}
