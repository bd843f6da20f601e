//! From the words to the plan. The form of the words is tested first; then `clap` reads them, and the plan is made of
//! what it found.
ghost use Rattle.std.specs.Prelude.{◌≡◌, ◌≤◌, Some, None, true, false, is_some, map, string_bytes, option_map, IfOk, IfSome, IsErrOf, MatchOption};
ghost use Rattle.teams_words.specs.Words.{parts_in};
ghost use Rattle.teams_words.specs.Plans.{plan_of, plan_for, plan_with, takes, is_mode_alone, action_of, chosen_of, chosen_in, count_or, is_count, usual_groups, usual_workers, most_groups, most_workers, IsProper};
ghost use Rattle.teams_words.specs.Read.{parts_of, choice};

use crate::command::matches_in;
use crate::numbers::number_in;
use crate::parts::{Parts, read_parts};
use crate::plan::{Action, Plan, PlanFault};
use sig_types::Text;
use std::alloc::Global;

/// Whether the lists are those of a command line: the action and MODEL, and each option at most once.
fn is_choice(parts: &Parts) -> bool
    ensures { result ≡ is_some (chosen_of (parts_of parts.now)) }
{
    parts.cert.len() <= 1
        && parts.workers.len() <= 1
        && parts.groups.len() <= 1
        && parts.mode.len() <= 1
        && parts.log.len() <= 1
        && parts.others.len() == 2
}

/// The action, MODEL, and the value of each option that is given.
#[derive(Clone, Copy)]
pub struct Chosen<'a> {
    action: &'a str,
    model: &'a str,
    cert: Option<&'a str>,
    workers: Option<&'a str>,
    groups: Option<&'a str>,
    mode: Option<&'a str>,
    log: Option<&'a str>,
}

fn action_of(word: &str) -> Option<Action>
    ensures { result ≡ action_of word.now }
{
    match word {
        "solve" => Some(Action::Solve),
        "check" => Some(Action::Check),
        "matrix" => Some(Action::Matrix),
        "figures" => Some(Action::Figures),
        "sample" => Some(Action::Sample),
        "reason" => Some(Action::Reason),
        _ => None,
    }
}

/// Whether only `--mode` is given, or nothing.
fn is_mode_alone(chosen: &Chosen) -> bool
    ensures { result ≡ is_mode_alone (choice chosen.now) }
{
    chosen.cert.is_none()
        && chosen.workers.is_none()
        && chosen.groups.is_none()
        && chosen.log.is_none()
}

/// Whether the action takes what is chosen.
fn takes(action: Action, chosen: &Chosen) -> bool
    ensures { result ≡ takes action (choice chosen.now) }
{
    match action {
        Action::Solve => chosen.cert.is_none() && chosen.log.is_none(),
        Action::Check => {
            chosen.cert.is_some()
                && chosen.workers.is_none()
                && chosen.groups.is_none()
                && chosen.log.is_none()
        }
        Action::Matrix | Action::Figures => is_mode_alone(chosen),
        Action::Sample => {
            number_in(chosen.model, 1, 100).is_some()
                && chosen.cert.is_none()
                && chosen.workers.is_none()
                && chosen.mode.is_none()
                && chosen.log.is_none()
        }
        Action::Reason => {
            chosen.log.is_some()
                && chosen.cert.is_none()
                && chosen.workers.is_none()
                && chosen.groups.is_none()
        }
    }
}

/// The number of an option, or the usual one where it isn't given; None where it isn't within its limits.
fn count_in(word: Option<&str>, low: u32, high: u32, usual: u32) -> Option<u32>
    requires { high ≤ 99999 }
    ensures { MatchOption result (is_count low high (option_map (λ w. w.now) word.entry) ≡ false) (λ n. (is_count low high (option_map (λ w. w.now) word.entry) ≡ true) × (n ≡ count_or usual (option_map (λ w. w.now) word.entry))) }
{
    match word {
        None => Some(usual),
        Some(word) => number_in(word, low, high),
    }
}

/// The text as one of its own.
fn owned(alloc: Global, text: Option<&str>) -> Result<Option<Text>, PlanFault>
    ensures text { IfOk result (λ t. t ≡ option_map (λ s. s.now) text.entry) }
    ensures fault { IsErrOf result PlanFault.Usage → ⊥ }
{
    match text {
        None => Ok(None),
        Some(text) => match Text::of(alloc, text) {
            Ok(text) => Ok(Some(text)),
            Err(_) => Err(PlanFault::OutOfMemory),
        },
    }
}

/// The plan with these numbers.
fn plan_with(
    alloc: Global,
    action: Action,
    chosen: &Chosen,
    workers: u32,
    groups: u32,
) -> Result<Plan, PlanFault>
    requires workers { workers ≡ count_or usual_workers (choice chosen.now).workers }
    requires groups { groups ≡ count_or usual_groups (choice chosen.now).groups }
    ensures plan { IfOk result (λ plan. plan ≡ plan_with action (choice chosen.now)) }
    ensures fault { IsErrOf result PlanFault.Usage → ⊥ }
{
    let Ok(model) = Text::of(alloc, chosen.model) else {
        return Err(PlanFault::OutOfMemory);
    };
    let cert = owned(alloc, chosen.cert)?;
    let mode = owned(alloc, chosen.mode)?;
    let log = owned(alloc, chosen.log)?;
    Ok(Plan {
        action,
        model,
        cert,
        workers,
        groups,
        mode,
        log,
    })
}

/// The plan of what is chosen.
fn plan_for(alloc: Global, chosen: &Chosen) -> Result<Plan, PlanFault>
    ensures proper { IfOk result IsProper }
    ensures found { IfOk result (λ plan. plan_for (choice chosen.now) ≡ Some plan) }
    ensures usage { IsErrOf result PlanFault.Usage → plan_for (choice chosen.now) ≡ None }
{
    let Some(action) = action_of(chosen.action) else {
        return Err(PlanFault::Usage);
    };
    if !takes(action, chosen) {
        return Err(PlanFault::Usage);
    }
    let workers = count_in(chosen.workers, 0, 16, 4);
    let groups = count_in(chosen.groups, 1, 32_768, 4000);
    match (workers, groups) {
        (Some(workers), Some(groups)) => plan_with(alloc, action, chosen, workers, groups),
        _ => Err(PlanFault::Usage),
    }
}

/// The plan of words that have the form of a command line, of what `clap` finds in them alone.
fn plan_by_clap(alloc: Global, words: &[String]) -> Result<Plan, PlanFault>
    requires { is_some (chosen_in (map string_bytes words.now)) ≡ true }
    ensures proper { IfOk result IsProper }
    ensures found { IfOk result (λ plan. plan_of (map string_bytes words.now) ≡ Some plan) }
    ensures usage { IsErrOf result PlanFault.Usage → plan_of (map string_bytes words.now) ≡ None }
{
    let Ok(matches) = matches_in(alloc, words) else {
        return Err(PlanFault::OutOfMemory);
    };
    match (matches.get_str("action"), matches.get_str("model")) {
        (Some(action), Some(model)) => plan_for(
            alloc,
            &Chosen {
                action,
                model,
                cert: matches.get_str("cert"),
                workers: matches.get_str("workers"),
                groups: matches.get_str("groups"),
                mode: matches.get_str("mode"),
                log: matches.get_str("log"),
            },
        ),
        _ => unreachable!(),
    }
}

/// The plan of the words, without the program's own name: an action and MODEL, and options in any order, each at
/// most once, as `--NAME=VALUE` or as `--NAME VALUE`, where VALUE isn't empty and as a word of its own doesn't begin
/// with `-`. `solve` takes `--workers`, `--groups` and `--mode`; `check` takes `--cert`, which has to be there, and
/// `--mode`; `matrix` and `figures` take `--mode`; `sample` takes `--groups`, and its MODEL is a number of 1 to 100
/// parts; `reason` takes `--log`, which has to be there, and `--mode`. Workers are 0 to 16 and 4 where nothing is said of them, groups 1 to 32,768 and 4,000 where nothing is said,
/// each in one to five decimal digits.
pub fn plan_of(alloc: Global, words: &[String]) -> Result<Plan, PlanFault>
    ensures proper { IfOk result IsProper }
    ensures found { IfOk result (λ plan. plan_of (map string_bytes words.now) ≡ Some plan) }
    ensures usage { IsErrOf result PlanFault.Usage → plan_of (map string_bytes words.now) ≡ None }
{
    match read_parts(alloc, words) {
        Ok(Some(parts)) => {
            if is_choice(&parts) {
                plan_by_clap(alloc, words)
            } else {
                Err(PlanFault::Usage)
            }
        }
        Ok(None) => Err(PlanFault::Usage),
        Err(_) => Err(PlanFault::OutOfMemory),
    }
}
