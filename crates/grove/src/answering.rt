ghost use Rattle.std.specs.Prelude.{◌≡◌, ◌≤◌, Bool, Result, Ok, IfOk, IfSome};
ghost use Rattle.serde_json.specs.Data.{Data, depth};
ghost use Rattle.serde_json.specs.View.{view};
ghost use Rattle.grove_wire.specs.declared.fault.WireFault.{WireFault};
ghost use Rattle.grove_answer.specs.Outcomes.{ThenSays};
ghost use Rattle.grove_answer.specs.Says.{refusal_outcome, Says};
ghost use Rattle.grove_words.specs.declared.order.Place.{Place};
ghost use Rattle.grove.specs.Answers.{IsAnswerTo, Tells};
ghost use Rattle.grove.specs.Outcomes.{document_for, IsResumed, MaySay, TellsFile};
ghost use Rattle.grove.specs.Runs.{done_status};

use crate::answer::{Answer, Cause, Response, Stop};
use crate::data_opening::Keeping;
use crate::data_refusal::DataRefusal;
use crate::document::read_for;
use crate::hinting::hint_beside;
use crate::serving::serve_document;
use crate::tables::{answer_to_table, table_of};
use grove_answer::{
    Refusal, audit_document, check_document, draw_document, judge_document, plan_document,
    planned_document, run_document,
};
use grove_draw::Form;
use grove_serve::{Host, Talk};
use grove_words::{Command, Form as WrittenForm};
use serde_json::Value;
use std::alloc::Global;
use std::fs::File;
use std::net::{Net, TcpListener, TcpStream};
use std::rt::Files;

/// What a command answers to the bytes of its document, and what a person is told beside it.
pub fn response_to<
    'd,
    R: Host + Files<File = File> + Net<Listener = TcpListener, Stream = TcpStream>,
>(rt: &R, keeping: Keeping<'d>, command: &Command<'_>, bytes: &[u8]) -> Result<Response<'d>, Stop>
    ensures { IfOk result (λ response. IsAnswerTo command.now (document_for command.now bytes.now)
        response.answer) }
{
    let alloc = rt.alloc();
    match read_for(alloc, command, bytes) {
        Ok(document) => {
            let answer = answer_to(rt, keeping, command, &document)?;
            let hint = hint_beside(alloc, command, bytes, Some(&document), &answer);
            Ok(Response { answer, hint })
        }
        Err(fault) => {
            let answer = refused(alloc, Refusal::of_wire(alloc, &fault))?;
            let hint = hint_beside(alloc, command, bytes, None, &answer);
            Ok(Response { answer, hint })
        }
    }
}

/// What a command answers to its document.
fn answer_to<'d, R: Host + Files<File = File> + Net<Listener = TcpListener, Stream = TcpStream>>(
    rt: &R,
    keeping: Keeping<'d>,
    command: &Command<'_>,
    document: &Value,
) -> Result<Answer<'d>, Stop>
    requires { depth (view document.now) ≤ 127 }
    ensures { IfOk result (IsAnswerTo command.now (Ok (view document.now))) }
{
    let alloc = rt.alloc();
    match command {
        Command::Judge => done(alloc, judge_document(alloc, document)),
        Command::Check => done(alloc, check_document(alloc, document)),
        Command::Plan { in_document } => done(alloc, plan_for(alloc, document, *in_document)),
        Command::Draw { form } => done(alloc, draw_document(alloc, document, form_of(*form))),
        Command::Run { workers } => {
            done(alloc, run_document(rt, alloc, document, workers.number))
        }
        Command::Audit => done(alloc, audit_document(alloc, document)),
        Command::Tree { adds_parents } => answer_to_table(alloc, document, *adds_parents),
        Command::Table => done(alloc, table_of(alloc, document)),
        Command::Serve(serving) => serve_document(rt, keeping, document, serving, Talk::Lines),
        Command::Page(serving) => serve_document(rt, keeping, document, serving, Talk::Requests),
    }
}

/// The answer that a command's result makes: its lines, or the line that says what is refused.
fn done<'d>(alloc: Global, lines: Result<String, Refusal>) -> Result<Answer<'d>, Stop>
    ensures { (command : Command) (document : Data) → done_status command ≡ 0
        → Says (MaySay command document) lines
        → IfOk result (IsAnswerTo command (Ok document)) }
{
    match lines {
        Ok(lines) => Ok(Answer::Done(lines)),
        Err(refusal) => refused(alloc, refusal),
    }
}

/// The answer that a refusal makes.
pub fn refused<'d>(alloc: Global, refusal: Refusal) -> Result<Answer<'d>, Stop>
    ensures { (command : Command) (found : Result Data WireFault)
        → IfSome (refusal_outcome refusal) (ThenSays found (MaySay command))
        → IfOk result (IsAnswerTo command found) }
{
    match refusal {
        Refusal::Fault { fault, text } => {
            let text = text.as_str();
            let line = format!(in alloc; "refused {text}\n")?;
            Ok(Answer::Refused {
                line,
                cause: Cause::Document(fault),
            })
        }
        Refusal::Memory => Err(Stop::Memory),
    }
}

/// The answer that the refusal of a file of rounds makes.
pub fn data_refused<'d>(alloc: Global, refusal: DataRefusal) -> Result<Answer<'d>, Stop>
    ensures resumed { (place : Place) → IfOk result (Tells (IsResumed place) 3) }
    ensures told { (checks : Bool) → IfOk result (Tells (TellsFile checks) 0) }
{
    let text = refusal.text(alloc)?;
    Ok(Answer::Refused {
        line: format!(in alloc; "refused {text}\n")?,
        cause: Cause::Data(refusal),
    })
}

/// What is said of the settled plan: its lines, or the document with it.
fn plan_for(alloc: Global, document: &Value, in_document: bool) -> Result<String, Refusal>
    requires { depth (view document.now) ≤ 127 }
    ensures { Says (MaySay (Command.Plan in_document) (view document.now)) result }
{
    if in_document {
        planned_document(alloc, document)
    } else {
        plan_document(alloc, document)
    }
}

/// The form of a drawing that the words ask for.
fn form_of(form: WrittenForm) -> Form {
    match form {
        WrittenForm::Svg => Form::Svg,
        WrittenForm::Text => Form::Text,
    }
}
