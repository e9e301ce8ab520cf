ghost use Rattle.std.specs.Prelude.{List, IfOk, IfErr, IfSome, IsOkAnd};
ghost use Rattle.serde_json.specs.View.{view};
ghost use Rattle.grove_access.specs.Lists.{nodes_of, lengths_of};
ghost use Rattle.grove_build.specs.Settled.{IsSettled};
ghost use Rattle.grove_draw.specs.Pictures.{IsPictureOf};
ghost use Rattle.grove_plan.specs.declared.step.Step.{Step};
ghost use Rattle.grove_answer.specs.Says.{refusal_outcome, IsFitting, Says};
ghost use Rattle.grove_answer.specs.Outcomes.{ThenSays, sketch_in, IsDrawingOf, IsDrawn, PicturesOwn};

use crate::reading::{Task, read_sketch};
use crate::refusal::{Refusal, or_refuse};
use grove_base::NoMemory;
use grove_build::plan;
use grove_draw::{Drawing, Form, Picture, legal_picture, picture_of};
use grove_plan::Plan;
use grove_wire::Fault;
use serde_json::Value;
use std::alloc::Global;

/// The text of a document's drawing, in the form that is asked for.
pub fn draw_document(alloc: Global, document: &Value, form: Form) -> Result<String, Refusal>
    ensures { Says (ThenSays (sketch_in (view document.now)) IsDrawn) result }
{
    let drawing = drawing_of(alloc, document)?;
    Ok(drawing.written(alloc, form)?)
}

/// What is drawn of a document: its list's settled plan and, where it has a plan of its own, that one too.
pub fn drawing_of(alloc: Global, document: &Value) -> Result<Drawing, Refusal>
    ensures drawn { IfOk result
        (λ drawing. IsOkAnd (sketch_in (view document.now)) (λ sketch. IsDrawingOf sketch.0 sketch.1 drawing)) }
    ensures refused { IfErr result
        (λ refusal. IfSome (refusal_outcome refusal) (ThenSays (sketch_in (view document.now)) IsDrawn)) }
{
    let (task, own) = or_refuse(alloc, read_sketch(alloc, document))?;
    draw(alloc, &task, &own)
}

fn draw(alloc: Global, task: &Task, own: &Option<Plan>) -> Result<Drawing, Refusal>
    requires { IsFitting task.now }
    ensures drawn { IfOk result (IsDrawingOf task.now own.now) }
    ensures refused { IfErr result (λ refusal. IfSome (refusal_outcome refusal) (IsDrawn (task.now, own.now))) }
{
    let own = own_picture(alloc, task, own)?;
    let settled = settled_picture(alloc, task)?;
    Ok(Drawing { own, settled })
}

/// The picture of the plan that the document has, if it has one.
#[tactic(auto, using(crate::proofs::Faults::fault_fits, crate::proofs::Drawings::says_own_fault))]
fn own_picture(alloc: Global, task: &Task, own: &Option<Plan>) -> Result<Option<Picture>, Refusal>
    requires { IsFitting task.now }
    ensures pictured { IfOk result (PicturesOwn task.now own.now) }
    ensures refused { IfErr result (λ refusal. IfSome (refusal_outcome refusal) (IsDrawn (task.now, own.now))) }
{
    match own {
        Some(plan) => match picture_of(alloc, &task.tree, &task.list, plan) {
            Ok(picture) => Ok(Some(picture)),
            Err(fault) => Err(Refusal::of(alloc, &task.tree, Fault::Plan(fault))),
        },
        None => Ok(None),
    }
}

fn settled_picture(alloc: Global, task: &Task) -> Result<Picture, NoMemory>
    requires { IsFitting task.now }
    ensures { IfOk result (λ picture. (plan : List Step)
        × IsSettled task.now.tree (nodes_of task.now.list) (lengths_of task.now.list) plan
        × IsPictureOf task.now.tree task.now.list plan picture) }
{
    let planned = plan(alloc, &task.tree, &task.list)?;
    legal_picture(alloc, &task.tree, &task.list, &planned.plan, planned.cost)
}
