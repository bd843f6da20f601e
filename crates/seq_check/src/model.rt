//! C02: what a report says of the model. Its mode and counts stand in the head; its class lines, state
//! lines and test lines are compared with the labels one by one.
ghost use Rattle.std.specs.Prelude.{◌≡◌, ◌+◌, ◌^◌, ◌<◌, length, vec_len, drop, filter, IfOk, All};
ghost use Rattle.seq_inst.specs.Instances.{problem_of};
ghost use Rattle.seq_cert.specs.OutcomeReport.{is_of};
ghost use Rattle.seq_check.specs.Looks.{first_bad};
ghost use Rattle.seq_check.specs.ModelLooks.{has_line, is_state, is_test, side_looks, class_look, class_looks, test_looks, model_looks};
ghost use Rattle.seq_check.specs.Lines.{class_length};
ghost use Rattle.seq_check.specs.Picked.{picked};

use crate::looking::{is_same_text, look};
use seq_cert::{BadCode, BadLine, ClassLine, Report, StateLine, states_by_class};
use seq_inst::{Instance, root, weight_of};
use sig_lines::{Labels, StateLabel, TestLabel};
use std::alloc::{AllocError, Global};

/// The first of the head's lines that differs from the model.
#[tactic(auto, unfolding(crate::specs::ModelLooks::model_looks))]
pub fn first_in_model(inst: &Instance, labels: &Labels, report: &Report) -> Option<BadLine>
    ensures { result ≡ first_bad (model_looks (problem_of inst.now) labels.now report.now) }
{
    if !is_same_text(&report.mode, &labels.mode) {
        return look(2, BadCode::C02, false);
    }
    if report.states as usize != labels.states.len() {
        return look(3, BadCode::C02, false);
    }
    if report.classes as usize != inst.weights.len() {
        return look(4, BadCode::C02, false);
    }
    if report.tests as usize != inst.costs.len() {
        return look(5, BadCode::C02, false);
    }
    look(
        6,
        BadCode::C02,
        report.weight == weight_of(inst, &root(inst)),
    )
}

/// Whether the line is that of the state of this number, if there is one.
fn is_state_at(states: &[StateLabel], numbers: &[usize], at: usize, line: &StateLine) -> bool
    requires { All (λ i. i < length states.now) numbers.now }
    ensures { result ≡ has_line is_state (drop at (picked states.now numbers.now)) line.now }
{
    if at < numbers.len() {
        let state = &states[numbers[at]];
        line.weight == u64::from(state.weight) && is_same_text(&line.label, &state.label)
    } else {
        false
    }
}

/// The first line that differs from the state of its place.
fn first_in_states(
    states: &[StateLabel],
    numbers: &[usize],
    lines: &[StateLine],
    line: u32,
) -> Option<BadLine>
    requires there { All (λ i. i < length states.now) numbers.now }
    requires fits { line + length lines.now < 2 ^ 32 }
    ensures { result ≡ first_bad (side_looks is_state line (picked states.now numbers.now) lines.now) }
{
    for at in 0..lines.len() {
        if !is_state_at(states, numbers, at, &lines[at]) {
            return look(line + at as u32, BadCode::C02, false);
        }
    }
    None
}

/// The first line of the class that differs.
#[tactic(auto, unfolding(crate::specs::ModelLooks::class_look))]
fn first_in_class(
    inst: &Instance,
    states: &[StateLabel],
    class: usize,
    numbers: &[usize],
    class_line: &ClassLine,
    line: u32,
) -> Option<BadLine>
    requires there { All (λ i. i < length states.now) numbers.now }
    requires picked { picked states.now numbers.now ≡ filter (is_of class) states.now }
    requires fits { line + (1 + length class_line.now.states) < 2 ^ 32 }
    requires class { class < vec_len inst.now.weights }
    ensures { result ≡ first_bad (class_look (problem_of inst.now) states.now line class class_line.now) }
{
    if class_line.weight != inst.weights[class] || class_line.states.len() != numbers.len() {
        return look(line, BadCode::C02, false);
    }
    first_in_states(states, numbers, class_line.states.as_slice(), line + 1)
}

/// The first line of the classes that differs, the first of them on line 13.
pub fn first_in_classes(
    alloc: Global,
    inst: &Instance,
    states: &[StateLabel],
    lines: &[ClassLine],
) -> Result<Option<BadLine>, AllocError>
    requires there { All (λ (s : StateLabel). s.class < vec_len inst.now.weights) states.now }
    requires fits { 13 + class_length lines.now < 2 ^ 32 }
    ensures { IfOk result (λ b. b ≡ first_bad (class_looks (problem_of inst.now) states.now 13 0 lines.now)) }
{
    let lists = states_by_class(alloc, states, inst.weights.len())?;
    let mut line = 13;
    for class in 0..lines.len() {
        if class >= lists.len() {
            return Ok(look(line, BadCode::C02, false));
        }
        let numbers = lists[class].as_slice();
        let bad = first_in_class(inst, states, class, numbers, &lines[class], line);
        if bad.is_some() {
            return Ok(bad);
        }
        line += 1 + lines[class].states.len() as u32;
    }
    Ok(None)
}

/// Whether the line is that of the test of this number, if there is one.
fn is_test_at(tests: &[TestLabel], at: usize, line: &TestLabel) -> bool
    ensures { result ≡ has_line is_test (drop at tests.now) line.now }
{
    if at < tests.len() {
        let test = &tests[at];
        line.cost == test.cost && is_same_text(&line.label, &test.label)
    } else {
        false
    }
}

/// The first line that differs from the test of its place.
#[tactic(auto, unfolding(crate::specs::ModelLooks::test_looks))]
pub fn first_in_tests(tests: &[TestLabel], lines: &[TestLabel], line: u32) -> Option<BadLine>
    requires { line + length lines.now < 2 ^ 32 }
    ensures { result ≡ first_bad (test_looks line tests.now lines.now) }
{
    for at in 0..lines.len() {
        if !is_test_at(tests, at, &lines[at]) {
            return look(line + at as u32, BadCode::C02, false);
        }
    }
    None
}
