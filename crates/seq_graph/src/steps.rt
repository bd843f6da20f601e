//! What a walk does at a group: one step down. It goes by the test of least sum: a part that is not known
//! is entered; else the walk goes on in a part that is open; else both parts are closed, and so the group
//! itself closes. Which of the two parts is looked at first is the caller's choice: one thread takes the
//! passing one, and of several workers some take the failing one, so that they part ways.
ghost use Rattle.std.specs.Prelude.{◌≡◌, ◌<◌, List, ℕ, length};
ghost use Rattle.seq_inst.specs.Members.{members};
ghost use Rattle.seq_inst.specs.Instances.{problem_of};
ghost use Rattle.seq_graph.specs.Numbered.{HasNumber};
ghost use Rattle.seq_graph.specs.Known.{group_at, IsGraphOf};
ghost use Rattle.seq_graph.specs.Rooms.{KeepsRoom};
ghost use Rattle.seq_graph.specs.Steps.{IsStep, EntersFirst, step_by, least_test as least_test_of};
ghost use Rattle.seq_graph.specs.Parts.{IsKnowledge};

use crate::choice::least_test;
use crate::graph::Graph;
use seq_inst::{Answer, Group, Instance, is_leaf, parts_of};
use seq_theory::walks_hold;

/// What a walk does at a group.
#[derive(Clone, Copy)]
pub enum Step {
    /// It enters a part.
    Enter { group: Group },
    /// It goes on at the part of this place.
    Down { place: usize },
    /// It closes the group.
    Close,
}

/// What is known of a part.
#[derive(Clone, Copy)]
pub(crate) enum Knowledge {
    /// It has two goals or more, and no row.
    Unknown,
    /// Its row has this place, and its least cost is not known yet.
    Open { place: usize },
    /// Its least cost is known.
    Closed,
}

/// What is known of the part of a number. A part that has no row and an up has one goal.
pub(crate) fn knowledge_of(inst: &Instance, graph: &Graph, number: u32) -> Knowledge
    requires known { IsGraphOf inst.now graph.now }
    requires there { number < length graph.now.numbers.groups }
    ensures { (part : List ℕ) → HasNumber graph.now.numbers part number → IsKnowledge (problem_of inst.now) graph.now.rows.items part result }
{
    let _ = inst;
    let count = graph.counts[number as usize];
    match count.place {
        None => {
            if count.up == u64::MAX {
                Knowledge::Unknown
            } else {
                Knowledge::Closed
            }
        }
        Some(place) => {
            if count.low == count.up {
                Knowledge::Closed
            } else {
                Knowledge::Open {
                    place: place as usize,
                }
            }
        }
    }
}

/// What is known of a part. One that was not met before has no row.
fn knowledge_of_part(inst: &Instance, graph: &Graph, part: &Group) -> Knowledge
    requires known { IsGraphOf inst.now graph.now }
    ensures { IsKnowledge (problem_of inst.now) graph.now.rows.items (members part.now) result }
{
    match graph.numbers.find(part) {
        Some(number) => knowledge_of(inst, graph, number),
        None => {
            if is_leaf(inst, part) {
                Knowledge::Closed
            } else {
                Knowledge::Unknown
            }
        }
    }
}

/// What the walk does at a group, by what is known of both parts. The one comes first.
pub(crate) fn step_of(
    one: Group,
    one_known: Knowledge,
    other: Group,
    other_known: Knowledge,
) -> Step
    ensures { result ≡ step_by one one_known other other_known }
{
    match one_known {
        Knowledge::Unknown => Step::Enter { group: one },
        Knowledge::Open { place } => match other_known {
            Knowledge::Unknown => Step::Enter { group: other },
            _ => Step::Down { place },
        },
        Knowledge::Closed => match other_known {
            Knowledge::Unknown => Step::Enter { group: other },
            Knowledge::Open { place } => Step::Down { place },
            Knowledge::Closed => Step::Close,
        },
    }
}

/// What the walk does at a group, by its test of least sum. Of its two parts that of the first answer comes
/// first.
pub(crate) fn step_by_test(
    inst: &Instance,
    graph: &Graph,
    place: usize,
    test: u32,
    first: Answer,
) -> Step
    requires known { IsGraphOf inst.now graph.now }
    requires place { place < length graph.now.rows.items }
    requires test { test ≡ least_test_of (problem_of inst.now) graph.now.rows.items (members (group_at graph.now.rows.items place)) }
    ensures step { IsStep (problem_of inst.now) graph.now.rows.items (members (group_at graph.now.rows.items place)) result }
    ensures first { EntersFirst (problem_of inst.now) graph.now.rows.items (members (group_at graph.now.rows.items place)) first result }
{
    walks_hold();
    let parts = parts_of(inst, &graph.rows[place].group, test);
    let pass_known = knowledge_of_part(inst, graph, &parts.pass);
    let fail_known = knowledge_of_part(inst, graph, &parts.fail);
    match first {
        Answer::Pass => step_of(parts.pass, pass_known, parts.fail, fail_known),
        Answer::Fail => step_of(parts.fail, fail_known, parts.pass, pass_known),
    }
}

/// What the walk of one thread does at a group.
pub fn next_step(inst: &Instance, graph: &mut Graph, place: usize, first: Answer) -> Step
    requires known { IsGraphOf inst.now graph.old }
    requires place { place < length graph.old.rows.items }
    ensures known { IsGraphOf inst.now graph.new }
    ensures rows { graph.new.rows ≡ graph.old.rows }
    ensures keeps { KeepsRoom graph.old graph.new }
    ensures step { IsStep (problem_of inst.now) graph.old.rows.items (members (group_at graph.old.rows.items place)) result }
    ensures first { EntersFirst (problem_of inst.now) graph.old.rows.items (members (group_at graph.old.rows.items place)) first result }
{
    let test = least_test(inst, graph, place).test;
    step_by_test(inst, graph, place, test, first)
}
