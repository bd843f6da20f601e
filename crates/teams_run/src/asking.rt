//! What a plan that asks for a strategy comes to before the search, and after it. Between the two stands the search alone, so
//! that it may be made on one thread or by workers, and all that is read, refused and written is the same.
ghost use Rattle.std.specs.Prelude.{◌≡◌, ◌≤◌, IfOk};
ghost use Rattle.sig_edge.specs.Shelf.{Holds};
ghost use Rattle.teams_words.specs.Plans.{IsProper};
ghost use Rattle.teams_run.specs.Asked.{IsAsked, IsAskedOfFile};
ghost use Rattle.teams_run.specs.Runs.{IsDueText};

use crate::answering::{Accepted, prepared_for, told};
use crate::due::Due;
use crate::preparing::Prepared;
use crate::refusing::refused;
use crate::searching::{outcome_by, outcome_of};
use sig_edge::Gate;
use sig_types::ModelFault;
use std::alloc::{AllocError, Global};
use std::sync::Wait;
use std::thread::Threads;
use teams_words::{Action, Plan};

/// What a plan that asks for a strategy comes to before the search.
#[derive(Drop)]
pub enum Asked {
    /// A text is due, and nothing is searched.
    Told(Due),
    /// The model is ready for the search.
    Search(Accepted, Prepared),
}

/// The model of the bytes, ready for the search, or the refusal.
pub fn asked_of(alloc: Global, plan: &Plan, content: &[u8]) -> Result<Asked, AllocError>
    requires action { plan.now.action ≡ Action.Solve }
    ensures { IfOk result (IsAsked plan.now content.now) }
{
    match prepared_for(alloc, plan, content) {
        Ok((accepted, prepared)) => Ok(Asked::Search(accepted, prepared)),
        Err(ModelFault::Refused(refusal)) => {
            let due = refused(alloc, refusal)?;
            Ok(Asked::Told(due))
        }
        Err(ModelFault::OutOfMemory) => Err(AllocError),
    }
}

/// What is due once the search on this thread is made, if one is asked for.
pub fn due_alone(alloc: Global, plan: &Plan, asked: Asked) -> Result<Due, AllocError>
    requires proper { IsProper plan.now }
    requires action { plan.now.action ≡ Action.Solve }
    requires asked { (holds : Holds) × IsAskedOfFile plan.now holds asked }
    ensures { (holds : Holds) → IsAskedOfFile plan.now holds asked → IfOk result (λ due. IsDueText plan.now holds due.status due.text.items) }
{
    match asked {
        Asked::Told(due) => Ok(due),
        Asked::Search(accepted, prepared) => {
            let outcome = outcome_of(alloc, &prepared.inst, plan.groups)?;
            told(alloc, plan, &accepted, &prepared, &outcome)
        }
    }
}

/// What is due once the plan's workers have searched, if a search is asked for.
pub fn due_by<R: Threads + Wait + Sync, G: Gate + Sync>(
    rt: &R,
    alloc: Global,
    plan: &Plan,
    asked: Asked,
    gate: &G,
) -> Result<Due, AllocError>
    requires proper { IsProper plan.now }
    requires action { plan.now.action ≡ Action.Solve }
    requires workers { 1 ≤ plan.now.workers }
    requires asked { (holds : Holds) × IsAskedOfFile plan.now holds asked }
    ensures { (holds : Holds) → IsAskedOfFile plan.now holds asked → IfOk result (λ due. IsDueText plan.now holds due.status due.text.items) }
{
    match asked {
        Asked::Told(due) => Ok(due),
        Asked::Search(accepted, prepared) => {
            let outcome = outcome_by(rt, alloc, &prepared.inst, plan.groups, plan.workers, gate)?;
            told(alloc, plan, &accepted, &prepared, &outcome)
        }
    }
}
