//! Command lines, each with its plan or without one. What is expected is set out by hand from the rules.

use super::{Action, Plan, PlanFault, plan_of};
use sig_types::Text;
use std::alloc::{AllocError, Global};
use std::test::Fail;

/// The words of a line between single spaces.
fn words(alloc: Global, line: &str) -> Result<Vec<String>, AllocError> {
    let mut words = Vec::new(alloc);
    for word in line.split(' ') {
        words.push(String::from_str(alloc, word)?)?;
    }
    Ok(words)
}

fn is_usage(alloc: Global, line: &str) -> Result<bool, AllocError> {
    let words = words(alloc, line)?;
    match plan_of(alloc, words.as_slice()) {
        Ok(_) => Ok(false),
        Err(PlanFault::Usage) => Ok(true),
        Err(PlanFault::OutOfMemory) => Err(AllocError),
    }
}

fn word_for(action: Action) -> &'static str {
    match action {
        Action::Solve => "solve",
        Action::Check => "check",
        Action::Matrix => "matrix",
        Action::Figures => "figures",
        Action::Sample => "sample",
        Action::Reason => "reason",
    }
}

fn text_or_none(text: &Option<Text>) -> &str {
    match text {
        Some(text) => text.as_str(),
        None => "none",
    }
}

/// The plan in the order ACTION MODEL CERT WORKERS GROUPS MODE LOG.
fn shown(alloc: Global, plan: &Plan) -> Result<String, AllocError> {
    let action = word_for(plan.action);
    let model = plan.model.as_str();
    let cert = text_or_none(&plan.cert);
    let mode = text_or_none(&plan.mode);
    let log = text_or_none(&plan.log);
    let workers = plan.workers;
    let groups = plan.groups;
    format!(in alloc; "{action} {model} {cert} {workers} {groups} {mode} {log}")
}

fn plan_in(alloc: Global, line: &str) -> Result<String, AllocError> {
    let words = words(alloc, line)?;
    match plan_of(alloc, words.as_slice()) {
        Ok(plan) => shown(alloc, &plan),
        Err(_) => Err(AllocError),
    }
}

/// A command line and its plan.
const PLANS: &str = "solve m => solve m none 4 4000 none none
solve m --workers 0 => solve m none 0 4000 none none
--groups=5 solve --mode xy m --workers=016 => solve m none 16 5 xy none
solve m --groups 00001 => solve m none 4 1 none none
solve m --groups=32768 => solve m none 4 32768 none none
check m --cert c => check m c 4 4000 none none
--mode=-x check --cert=a=b m => check m a=b 4 4000 -x none
matrix m --mode=\u{20ac} => matrix m none 4 4000 \u{20ac} none
figures h\u{e9} => figures h\u{e9} none 4 4000 none none
sample 3 => sample 3 none 4 4000 none none
sample --groups 20 00100 => sample 00100 none 4 20 none none
solve solve => solve solve none 4 4000 none none
reason m --log l => reason m none 4 4000 none l
--log=a=b reason --mode=x m => reason m none 4 4000 x a=b";

#[test]
fn words_give_plans(rt: HostRuntime) -> Result<(), Fail> {
    for line in PLANS.split('\n') {
        match line.split_once(" => ") {
            Some((words, plan)) => {
                let found = plan_in(rt.alloc(), words)?;
                assert_eq!(rt; found.as_str(), plan);
            }
            None => return Err(Fail::from("no plan")),
        }
    }
    Ok(())
}

/// A word may be empty between two spaces.
const OTHERS: &str = "
solve
check m
solve m --cert=c
solve m --workers=17
solve m x
sample 0
sample 101
sample m
sample 3 --mode=a
sample 3 --workers=0
solve m --groups=5 --groups=5
solve m --groups=5 --groups 5
solve m --groups=0
solve m --groups=32769
solve m --groups=000005
solve m --groups=+5
matrix m --groups=5
figures m --workers=0
check m --cert=c --groups=5
check m --cert=c --log=l
reason m
reason m --log=l --cert=c
reason m --log=l --groups=5
reason m --log=l --log=l
reason m --log
solve m --log=l
matrix m --log=l
sample 3 --log=l
solve m --mode
solve m --mode=
solve m --mode 
solve m --mode -x
solve m --mode --groups=5
solve 
solve -m
solve m --
solve m -
solve m --help
--help
--version
help m
Solve m
solve m --Groups=5
solve m --group=5";

#[test]
fn other_words_are_a_usage_fault(rt: HostRuntime) -> Result<(), Fail> {
    let none = Vec::new(rt.alloc());
    assert!(rt; matches!(plan_of(rt.alloc(), none.as_slice()), Err(PlanFault::Usage)));
    for line in OTHERS.split('\n') {
        assert!(rt; is_usage(rt.alloc(), line)?, "{line}");
    }
    Ok(())
}
