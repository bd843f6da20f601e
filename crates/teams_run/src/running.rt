//! The calls that the program makes. `run` reads the words of the command line and does what they ask;
//! `run_quiet` does what a plan asks without workers, and waits for nobody. A text is made whole before the first write.
//!
//! What a run leaves behind is told by one relation, `EndsAs`: a line for each status, with its cause.
ghost use Rattle.std.specs.Prelude.{◌≡◌, ◌≢◌, ◌≤◌, [], map, string_bytes, Ok, IfOk, IfErr, IsErrOf, IsSome};
ghost use Rattle.sig_edge.specs.Causes.{Rose};
ghost use Rattle.sig_edge.specs.Shelf.{Holds, HoldsNone, HoldsLonger};
ghost use Rattle.teams_words.specs.Plans.{plan_of, IsProper};
ghost use Rattle.teams_run.specs.Texts.{IsDue, IsFit, cert_limit, cert_name, log_limit, log_name};
ghost use Rattle.teams_run.specs.Accepted.{refusals};
ghost use Rattle.teams_run.specs.Asked.{IsAskedOfFile};
ghost use Rattle.teams_run.specs.Runs.{moment, EndsAs, EndsFor, IsDueOfFile, IsDueText, WantsModel, HasLongFile, LacksFile};

use crate::answering::{accepted_for, answer_for, mode_name, prepared_for};
use crate::asking::{Asked, asked_of, due_alone, due_by};
use crate::due::Due;
use crate::judging::judgement_on;
use crate::reasoning::reasoning_on;
use crate::refusing::refused;
use crate::sampling::sample_due;
use crate::status::Status;
use sig_edge::{FetchFault, Gate, Shelf, Sink, fetch, put_all};
use sig_types::ModelFault;
use std::alloc::{AllocError, Global};
use std::sync::Wait;
use std::thread::Threads;
use teams_words::{Action, Plan, PlanFault, plan_of};

/// What is due where the plan needs no certificate and no log, whatever files are held.
fn answer_due(alloc: Global, plan: &Plan, content: &[u8]) -> Result<Due, AllocError>
    requires proper { IsProper plan.now }
    requires quiet { plan.now.action ≢ Action.Solve }
    requires alone { plan.now.action ≢ Action.Check }
    requires file { WantsModel plan.now }
    requires log { plan.now.action ≢ Action.Reason }
    ensures { IfOk result (λ due. (holds : Holds) → IsDue plan.now holds content.now due.status due.text.items) }
{
    match answer_for(alloc, plan, content) {
        Ok(due) => Ok(due),
        Err(ModelFault::Refused(refusal)) => refused(alloc, refusal),
        Err(ModelFault::OutOfMemory) => Err(AllocError),
    }
}

/// Where no file was fetched, only memory can fail.
fn in_memory(due: Result<Due, AllocError>) -> Result<Due, FetchFault>
    ensures due { IfOk result (λ found. due ≡ Ok found) }
    ensures fault { IfErr result (λ fault. fault ≡ FetchFault.OutOfMemory) }
{
    match due {
        Ok(due) => Ok(due),
        Err(_) => Err(FetchFault::OutOfMemory),
    }
}

/// The name of the certificate's file.
fn cert_name(plan: &Plan) -> &str
    requires { IsSome plan.now.cert }
    ensures { result.now ≡ cert_name plan.now }
{
    match &plan.cert {
        Some(name) => name.as_str(),
        None => unreachable!(),
    }
}

/// What is due for a certificate, which is fetched once the model is accepted.
fn check_due<D: Shelf>(
    alloc: Global,
    plan: &Plan,
    content: &[u8],
    shelf: &mut D,
) -> Result<Due, FetchFault>
    requires action { plan.now.action ≡ Action.Check }
    requires cert { IsSome plan.now.cert }
    ensures due { IfOk result (λ due. IsDue plan.now (D.holds shelf.old) content.now due.status due.text.items) }
    ensures missing { IsErrOf result FetchFault.Missing → Rose (D.misses shelf.old) (D.misses shelf.new) }
    ensures missing_held { IsErrOf result FetchFault.Missing → IsFit plan.now content.now × HoldsNone (D.holds shelf.old) (cert_name plan.now) }
    ensures failed { IsErrOf result FetchFault.Failed → Rose (D.faults shelf.old) (D.faults shelf.new) }
    ensures too_long { IsErrOf result FetchFault.TooLong → IsFit plan.now content.now × HoldsLonger (D.holds shelf.old) (cert_name plan.now) cert_limit }
    ensures same { D.holds shelf.new ≡ D.holds shelf.old }
{
    let (accepted, prepared) = match prepared_for(alloc, plan, content) {
        Ok(both) => both,
        Err(ModelFault::Refused(refusal)) => return in_memory(refused(alloc, refusal)),
        Err(ModelFault::OutOfMemory) => return Err(FetchFault::OutOfMemory),
    };
    let cert = fetch(alloc, shelf, cert_name(plan), 16_777_216)?;
    let mode = mode_name(plan);
    match judgement_on(alloc, &accepted.matrix, &prepared, mode, cert.as_slice()) {
        Ok(due) => Ok(due),
        Err(_) => Err(FetchFault::OutOfMemory),
    }
}

/// The name of the log's file.
fn log_name(plan: &Plan) -> &str
    requires { IsSome plan.now.log }
    ensures { result.now ≡ log_name plan.now }
{
    match &plan.log {
        Some(name) => name.as_str(),
        None => unreachable!(),
    }
}

/// What is due for a log, which is fetched once the model is accepted.
fn reason_due<D: Shelf>(
    alloc: Global,
    plan: &Plan,
    content: &[u8],
    shelf: &mut D,
) -> Result<Due, FetchFault>
    requires action { plan.now.action ≡ Action.Reason }
    requires log { IsSome plan.now.log }
    ensures due { IfOk result (λ due. IsDue plan.now (D.holds shelf.old) content.now due.status due.text.items) }
    ensures missing { IsErrOf result FetchFault.Missing → Rose (D.misses shelf.old) (D.misses shelf.new) }
    ensures missing_held { IsErrOf result FetchFault.Missing → (plan.now.action ≡ Action.Reason) × (refusals content.now plan.now.mode ≡ []) × HoldsNone (D.holds shelf.old) (log_name plan.now) }
    ensures failed { IsErrOf result FetchFault.Failed → Rose (D.faults shelf.old) (D.faults shelf.new) }
    ensures too_long { IsErrOf result FetchFault.TooLong → (plan.now.action ≡ Action.Reason) × (refusals content.now plan.now.mode ≡ []) × HoldsLonger (D.holds shelf.old) (log_name plan.now) log_limit }
    ensures same { D.holds shelf.new ≡ D.holds shelf.old }
{
    let matrix = match accepted_for(alloc, plan, content) {
        Ok(matrix) => matrix,
        Err(ModelFault::Refused(refusal)) => return in_memory(refused(alloc, refusal)),
        Err(ModelFault::OutOfMemory) => return Err(FetchFault::OutOfMemory),
    };
    let log = fetch(alloc, shelf, log_name(plan), 1_048_576)?;
    let mode = mode_name(plan);
    match reasoning_on(alloc, &matrix, mode, log.as_slice()) {
        Ok(due) => Ok(due),
        Err(_) => Err(FetchFault::OutOfMemory),
    }
}

/// What is due for the model's file that the shelf holds, where nothing is searched.
fn file_due<D: Shelf>(alloc: Global, plan: &Plan, shelf: &mut D) -> Result<Due, FetchFault>
    requires proper { IsProper plan.now }
    requires quiet { plan.now.action ≢ Action.Solve }
    requires file { WantsModel plan.now }
    ensures due { IfOk result (λ due. IsDueOfFile plan.now (D.holds shelf.old) due.status due.text.items) }
    ensures missing { IsErrOf result FetchFault.Missing → Rose (D.misses shelf.old) (D.misses shelf.new) × LacksFile plan.now (D.holds shelf.old) }
    ensures failed { IsErrOf result FetchFault.Failed → Rose (D.faults shelf.old) (D.faults shelf.new) }
    ensures too_long { IsErrOf result FetchFault.TooLong → HasLongFile plan.now (D.holds shelf.old) }
    ensures same { D.holds shelf.new ≡ D.holds shelf.old }
{
    let content = fetch(alloc, shelf, plan.model.as_str(), 1_048_576)?;
    if plan.action == Action::Check {
        check_due(alloc, plan, content.as_slice(), shelf)
    } else if plan.action == Action::Reason {
        reason_due(alloc, plan, content.as_slice(), shelf)
    } else {
        in_memory(answer_due(alloc, plan, content.as_slice()))
    }
}

/// What a plan that asks for a strategy comes to before the search, for the model's file that the shelf holds.
fn file_asked<D: Shelf>(alloc: Global, plan: &Plan, shelf: &mut D) -> Result<Asked, FetchFault>
    requires action { plan.now.action ≡ Action.Solve }
    ensures asked { IfOk result (IsAskedOfFile plan.now (D.holds shelf.old)) }
    ensures missing { IsErrOf result FetchFault.Missing → Rose (D.misses shelf.old) (D.misses shelf.new) × LacksFile plan.now (D.holds shelf.old) }
    ensures failed { IsErrOf result FetchFault.Failed → Rose (D.faults shelf.old) (D.faults shelf.new) }
    ensures too_long { IsErrOf result FetchFault.TooLong → HasLongFile plan.now (D.holds shelf.old) }
    ensures same { D.holds shelf.new ≡ D.holds shelf.old }
{
    let content = fetch(alloc, shelf, plan.model.as_str(), 1_048_576)?;
    match asked_of(alloc, plan, content.as_slice()) {
        Ok(asked) => Ok(asked),
        Err(_) => Err(FetchFault::OutOfMemory),
    }
}

/// What is due for a strategy that is searched on this thread.
fn solve_due<D: Shelf>(alloc: Global, plan: &Plan, shelf: &mut D) -> Result<Due, FetchFault>
    requires proper { IsProper plan.now }
    requires action { plan.now.action ≡ Action.Solve }
    ensures due { IfOk result (λ due. IsDueText plan.now (D.holds shelf.old) due.status due.text.items) }
    ensures missing { IsErrOf result FetchFault.Missing → WantsModel plan.now × Rose (D.misses shelf.old) (D.misses shelf.new) × LacksFile plan.now (D.holds shelf.old) }
    ensures failed { IsErrOf result FetchFault.Failed → WantsModel plan.now × Rose (D.faults shelf.old) (D.faults shelf.new) }
    ensures too_long { IsErrOf result FetchFault.TooLong → WantsModel plan.now × HasLongFile plan.now (D.holds shelf.old) }
    ensures same { D.holds shelf.new ≡ D.holds shelf.old }
{
    let asked = file_asked(alloc, plan, shelf)?;
    in_memory(due_alone(alloc, plan, asked))
}

/// What is due for a strategy that the plan's workers search.
fn search_due<R: Threads + Wait + Sync, D: Shelf, G: Gate + Sync>(
    rt: &R,
    alloc: Global,
    plan: &Plan,
    shelf: &mut D,
    gate: &G,
) -> Result<Due, FetchFault>
    requires proper { IsProper plan.now }
    requires action { plan.now.action ≡ Action.Solve }
    requires workers { 1 ≤ plan.now.workers }
    ensures due { IfOk result (λ due. IsDueText plan.now (D.holds shelf.old) due.status due.text.items) }
    ensures missing { IsErrOf result FetchFault.Missing → WantsModel plan.now × Rose (D.misses shelf.old) (D.misses shelf.new) × LacksFile plan.now (D.holds shelf.old) }
    ensures failed { IsErrOf result FetchFault.Failed → WantsModel plan.now × Rose (D.faults shelf.old) (D.faults shelf.new) }
    ensures too_long { IsErrOf result FetchFault.TooLong → WantsModel plan.now × HasLongFile plan.now (D.holds shelf.old) }
    ensures same { D.holds shelf.new ≡ D.holds shelf.old }
{
    let asked = file_asked(alloc, plan, shelf)?;
    in_memory(due_by(rt, alloc, plan, asked, gate))
}

/// What is due for the plan on this thread alone: for the chain of `sample`, which takes no file, or for a file.
#[tactic(auto, using(crate::proofs::EndLaws::text_of_file, crate::proofs::EndLaws::text_of_chain))]
fn due_for<D: Shelf>(alloc: Global, plan: &Plan, shelf: &mut D) -> Result<Due, FetchFault>
    requires { IsProper plan.now }
    ensures due { IfOk result (λ due. IsDueText plan.now (D.holds shelf.old) due.status due.text.items) }
    ensures missing { IsErrOf result FetchFault.Missing → WantsModel plan.now × Rose (D.misses shelf.old) (D.misses shelf.new) × LacksFile plan.now (D.holds shelf.old) }
    ensures failed { IsErrOf result FetchFault.Failed → WantsModel plan.now × Rose (D.faults shelf.old) (D.faults shelf.new) }
    ensures too_long { IsErrOf result FetchFault.TooLong → WantsModel plan.now × HasLongFile plan.now (D.holds shelf.old) }
    ensures same { D.holds shelf.new ≡ D.holds shelf.old }
{
    if plan.action == Action::Sample {
        in_memory(sample_due(alloc, plan))
    } else if plan.action == Action::Solve {
        solve_due(alloc, plan, shelf)
    } else {
        file_due(alloc, plan, shelf)
    }
}

/// Does what the plan asks, on the caller's thread alone, and says how it ended.
#[tactic(auto, using(crate::proofs::EndLaws::writes))]
pub fn run_quiet<D: Shelf, K: Sink>(
    alloc: Global,
    plan: &Plan,
    shelf: &mut D,
    sink: &mut K,
) -> Status
    requires proper { IsProper plan.now }
    requires alone { plan.now.action ≡ Action.Solve → plan.now.workers ≡ 0 }
    ensures ends { EndsAs plan.now (moment (D.holds shelf.old) (D.misses shelf.old) (D.faults shelf.old) (K.wrote sink.old) (K.faults sink.old)) (moment (D.holds shelf.new) (D.misses shelf.new) (D.faults shelf.new) (K.wrote sink.new) (K.faults sink.new)) result }
    ensures same { D.holds shelf.new ≡ D.holds shelf.old }
{
    let due = match due_for(alloc, plan, shelf) {
        Ok(due) => due,
        Err(FetchFault::Missing) => return Status::Missing,
        Err(FetchFault::Failed) => return Status::ReadFault,
        Err(FetchFault::TooLong) => return Status::TooLong,
        Err(FetchFault::OutOfMemory) => return Status::NoMemory,
    };
    match put_all(sink, due.text.as_slice()) {
        Ok(()) => due.status,
        Err(_) => Status::WriteFault,
    }
}

/// Does what a plan with workers asks, and says how it ended.
#[tactic(auto, using(crate::proofs::EndLaws::writes))]
fn run_search<R: Threads + Wait + Sync, D: Shelf, K: Sink, G: Gate + Sync>(
    rt: &R,
    alloc: Global,
    plan: &Plan,
    shelf: &mut D,
    sink: &mut K,
    gate: &G,
) -> Status
    requires proper { IsProper plan.now }
    requires action { plan.now.action ≡ Action.Solve }
    requires workers { 1 ≤ plan.now.workers }
    ensures ends { EndsAs plan.now (moment (D.holds shelf.old) (D.misses shelf.old) (D.faults shelf.old) (K.wrote sink.old) (K.faults sink.old)) (moment (D.holds shelf.new) (D.misses shelf.new) (D.faults shelf.new) (K.wrote sink.new) (K.faults sink.new)) result }
    ensures same { D.holds shelf.new ≡ D.holds shelf.old }
{
    let due = match search_due(rt, alloc, plan, shelf, gate) {
        Ok(found) => found,
        Err(FetchFault::Missing) => return Status::Missing,
        Err(FetchFault::Failed) => return Status::ReadFault,
        Err(FetchFault::TooLong) => return Status::TooLong,
        Err(FetchFault::OutOfMemory) => return Status::NoMemory,
    };
    match put_all(sink, due.text.as_slice()) {
        Ok(_) => due.status,
        Err(_) => Status::WriteFault,
    }
}

/// Does what the plan asks, by as many workers as it asks for where it asks for a search, and says how it ended.
fn run_plan<R: Threads + Wait + Sync, D: Shelf, K: Sink, G: Gate + Sync>(
    rt: &R,
    alloc: Global,
    plan: &Plan,
    shelf: &mut D,
    sink: &mut K,
    gate: &G,
) -> Status
    requires { IsProper plan.now }
    ensures ends { EndsAs plan.now (moment (D.holds shelf.old) (D.misses shelf.old) (D.faults shelf.old) (K.wrote sink.old) (K.faults sink.old)) (moment (D.holds shelf.new) (D.misses shelf.new) (D.faults shelf.new) (K.wrote sink.new) (K.faults sink.new)) result }
    ensures same { D.holds shelf.new ≡ D.holds shelf.old }
{
    if plan.action == Action::Solve && plan.workers > 0 {
        run_search(rt, alloc, plan, shelf, sink, gate)
    } else {
        run_quiet(alloc, plan, shelf, sink)
    }
}

/// Does what the words of a command line ask, without the program's own name. A search has as many workers as they say,
/// 4 where they say nothing, and each turn of a worker passes the gate; with workers it returns if each lock is given
/// and the gate returns.
#[tactic(auto, using(crate::proofs::EndLaws::as_plan, crate::proofs::EndLaws::no_memory, crate::proofs::EndLaws::usage))]
pub fn run<R: Threads + Wait + Sync, D: Shelf, K: Sink, G: Gate + Sync>(
    rt: &R,
    alloc: Global,
    words: &[String],
    shelf: &mut D,
    sink: &mut K,
    gate: &G,
) -> Status
    ensures ends { EndsFor (plan_of (map string_bytes words.now)) (moment (D.holds shelf.old) (D.misses shelf.old) (D.faults shelf.old) (K.wrote sink.old) (K.faults sink.old)) (moment (D.holds shelf.new) (D.misses shelf.new) (D.faults shelf.new) (K.wrote sink.new) (K.faults sink.new)) result }
    ensures same { D.holds shelf.new ≡ D.holds shelf.old }
{
    match plan_of(alloc, words) {
        Ok(plan) => run_plan(rt, alloc, &plan, shelf, sink, gate),
        Err(PlanFault::Usage) => Status::Usage,
        Err(PlanFault::OutOfMemory) => Status::NoMemory,
    }
}
