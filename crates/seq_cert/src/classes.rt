//! The classes of a report, each with its states. Classes come in order, and the states of a class in
//! order of states.
ghost use Rattle.std.specs.Prelude.{◌≡◌, ◌<◌, ◌∷◌, [], length, map, slice_index_or, OnOk, All};
ghost use Rattle.sig_lines.specs.Written.{with_line, with_lines};
ghost use Rattle.seq_theory.specs.Problem.{count_up};
ghost use Rattle.seq_inst.specs.Instances.{problem_of};
ghost use Rattle.seq_cert.specs.ByClass.{no_state};
ghost use Rattle.seq_cert.specs.Text.{class_words, state_words, class_lines};
ghost use Rattle.seq_cert.specs.OutcomeReport.{class_line, state_line};

use crate::by_class::states_by_class;
use seq_inst::Instance;
use sig_lines::{Lines, StateLabel};
use std::alloc::{AllocError, Global};

fn write_state(out: &mut Lines, state: &StateLabel) -> Result<(), AllocError>
    ensures { OnOk result (out.new ≡ with_line out.old (state_words (state_line state.now))) }
{
    out.word("state")?;
    out.number(u64::from(state.weight))?;
    out.word(state.label.as_str())?;
    out.end_line()
}

/// Writes the states with these numbers.
fn write_states(out: &mut Lines, states: &[StateLabel], numbers: &[usize]) -> Result<(), AllocError>
    requires { All (λ i. i < length states.now) numbers.now }
    ensures { OnOk result (out.new ≡ with_lines out.old (map (λ i. state_words (state_line (slice_index_or states.now i no_state))) numbers.now)) }
{
    for at in 0..numbers.len() {
        write_state(out, &states[numbers[at]])?;
    }
    Ok(())
}

fn write_class_line(
    out: &mut Lines,
    class: usize,
    weight: u64,
    count: usize,
) -> Result<(), AllocError>
    ensures { OnOk result (out.new ≡ with_line out.old (class_words class weight count)) }
{
    out.word("class")?;
    out.number(class as u64)?;
    out.number(weight)?;
    out.number(count as u64)?;
    out.end_line()
}

/// Writes a class with the states of these numbers.
fn write_class(
    out: &mut Lines,
    class: usize,
    weight: u64,
    states: &[StateLabel],
    numbers: &[usize],
) -> Result<(), AllocError>
    requires { All (λ i. i < length states.now) numbers.now }
    ensures { OnOk result (out.new ≡ with_lines out.old (class_words class weight (length numbers.now) ∷ map (λ i. state_words (state_line (slice_index_or states.now i no_state))) numbers.now)) }
{
    write_class_line(out, class, weight, numbers.len())?;
    write_states(out, states, numbers)
}

/// Writes all classes with their states.
pub(crate) fn write_classes(
    alloc: Global,
    out: &mut Lines,
    inst: &Instance,
    states: &[StateLabel],
) -> Result<(), AllocError>
    requires { All (λ (s : StateLabel). s.class < length inst.now.weights.items) states.now }
    ensures { OnOk result (out.new ≡ with_lines out.old (class_lines 0 (map (class_line (problem_of inst.now) states.now) (count_up 0 (length inst.now.weights.items))))) }
{
    let lists = states_by_class(alloc, states, inst.weights.len())?;
    for class in 0..inst.weights.len() {
        let numbers = lists[class].as_slice();
        write_class(out, class, inst.weights[class], states, numbers)?;
    }
    Ok(())
}
