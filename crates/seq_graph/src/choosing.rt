//! A worker's choice of a step, where several work on one graph. They would all go by the test of least sum,
//! and so do the same work. So each but the first chooses among the tests that qualify: a test whose sum is
//! near the least, of which a part isn't closed, and whose sum over the bounds of its parts is at most a low
//! of the group that is known. The last makes its parts wanted, and so allows that they are entered.
//!
//! It chooses a test that leads to a group that it has listed before, since going on there costs it no new
//! list. Where there is none, it skips some of the qualifying tests by a hash of its number and of the group:
//! half of the workers skip none, a quarter one, and so on. The walk itself stays AO*'s.
ghost use Rattle.std.specs.Prelude.{◌≡◌, ◌⊎◌, ◌<◌, true, length, IfSome};
ghost use Rattle.seq_theory.specs.Problem.{IsIn, splitting};
ghost use Rattle.seq_theory.specs.Bound.{bound as bound_by, step_sum};
ghost use Rattle.seq_theory.specs.Rows.{known_low};
ghost use Rattle.seq_inst.specs.Members.{members};
ghost use Rattle.seq_inst.specs.Instances.{problem_of};
ghost use Rattle.seq_core.specs.RowsOf.{rows_of as rows_from};
ghost use Rattle.seq_graph.specs.KeptOf.{HasParts};
ghost use Rattle.seq_graph.specs.Known.{group_at, IsGraphOf};
ghost use Rattle.seq_graph.specs.Rooms.{KeepsRoom};
ghost use Rattle.seq_graph.specs.Steps.{IsStep, least_test as least_test_of};
ghost use Rattle.seq_graph.specs.Choosing.{IsAhead, IsCandidate, IsLowOf};

use crate::choice::{least_test, low_sum};
use crate::graph::Graph;
use crate::node::Split;
use crate::steps::{Knowledge, Step, knowledge_of, step_by_test, step_of};
use seq_inst::{Answer, Group, Instance, parts_of};

/// The least sum of a group's tests, and the places of the rows of the two parts by the test that has it,
/// where they have one that is open.
#[derive(Clone, Copy, Debug, PartialEq, Eq)]
pub struct LeastParts {
    pub sum: u64,
    pub pass: Option<u32>,
    pub fail: Option<u32>,
}

/// The place of the part's row, if it has one of which the low and the up differ.
fn open_place(inst: &Instance, graph: &Graph, part: &Group) -> Option<u32>
    requires known { IsGraphOf inst.now graph.now }
    ensures { IfSome result (λ k. k < length graph.now.rows.items) }
{
    let _ = inst;
    let number = graph.numbers.find(part)?;
    let count = graph.counts[number as usize];
    if count.low == count.up {
        return None;
    }
    count.place
}

/// The least sum of the group's tests, and the open parts by the test that has it: with these a worker hears
/// what others know of them before it chooses. It is what `choose_step` goes by while nothing changes.
pub fn least_parts(inst: &Instance, graph: &mut Graph, place: usize) -> LeastParts
    requires known { IsGraphOf inst.now graph.old }
    requires place { place < length graph.old.rows.items }
    ensures known { IsGraphOf inst.now graph.new }
    ensures rows { graph.new.rows ≡ graph.old.rows }
    ensures keeps { KeepsRoom graph.old graph.new }
    ensures sum { result.sum ≡ step_sum (problem_of inst.now) (known_low (problem_of inst.now) (rows_from graph.old.rows.items)) (members (group_at graph.old.rows.items place)) (least_test_of (problem_of inst.now) graph.old.rows.items (members (group_at graph.old.rows.items place))) }
    ensures pass { IfSome result.pass (λ k. k < length graph.old.rows.items) }
    ensures fail { IfSome result.fail (λ k. k < length graph.old.rows.items) }
{
    let least = least_test(inst, graph, place);
    let parts = parts_of(inst, &graph.rows[place].group, least.test);
    LeastParts {
        sum: least.sum,
        pass: open_place(inst, graph, &parts.pass),
        fail: open_place(inst, graph, &parts.fail),
    }
}

/// Up to which sums tests qualify.
#[derive(Clone, Copy)]
struct Limits {
    /// Over what the parts count for a low.
    sum: u64,
    /// Over the bounds of the parts: a low of the group that is known.
    bounds: u64,
}

/// The limits by the least sum: a tenth of what it lacks to the up, and a 64th of it, are allowed above it.
fn limits_of(inst: &Instance, graph: &Graph, place: usize, least: u64) -> Limits
    requires known { IsGraphOf inst.now graph.now }
    requires place { place < length graph.now.rows.items }
    requires least { least ≡ step_sum (problem_of inst.now) (known_low (problem_of inst.now) (rows_from graph.now.rows.items)) (members (group_at graph.now.rows.items place)) (least_test_of (problem_of inst.now) graph.now.rows.items (members (group_at graph.now.rows.items place))) }
    ensures { IsLowOf (problem_of inst.now) (members (group_at graph.now.rows.items place)) result.bounds }
{
    let _ = inst;
    let row = graph.rows[place];
    let slack = if row.up == u64::MAX {
        0
    } else {
        (row.up.saturating_sub(least) / 10).min(least / 64)
    };
    Limits {
        sum: least.saturating_add(slack),
        bounds: least.max(row.low),
    }
}

/// A test that qualifies, with its sum and what is known of its parts.
#[derive(Clone, Copy)]
pub(crate) struct Candidate {
    split: Split,
    sum: u64,
    pass: Knowledge,
    fail: Knowledge,
}

impl Candidate {
    /// Whether it comes before the other: its sum is less, or no more and its test lower.
    fn is_before(self, other: Candidate) -> bool {
        self.sum < other.sum || (self.sum == other.sum && self.split.test < other.split.test)
    }

    /// Whether the graph has listed one of its open parts.
    fn leads_to_listed(self, graph: &Graph) -> bool {
        is_listed(graph, self.pass) || is_listed(graph, self.fail)
    }
}

/// Whether the part is open, and some of its tests are evaluated in this graph.
fn is_listed(graph: &Graph, part: Knowledge) -> bool {
    match part {
        Knowledge::Open { place } => match graph.nodes.get(place) {
            Some(node) => !node.splits.is_empty(),
            None => false,
        },
        _ => false,
    }
}

/// The sum of a test over the group of the place, and the bounds of its parts.
fn bound_sum(inst: &Instance, graph: &Graph, place: usize, split: Split) -> u64
    requires known { IsGraphOf inst.now graph.now }
    requires place { place < length graph.now.rows.items }
    requires parts { HasParts (problem_of inst.now) graph.now.numbers (members (group_at graph.now.rows.items place)) split }
    requires there { split.test < length inst.now.costs.items }
    ensures { result ≡ step_sum (problem_of inst.now) (bound_by (problem_of inst.now)) (members (group_at graph.now.rows.items place)) split.test }
{
    let pass = graph.numbers.bound_at(split.pass);
    let fail = graph.numbers.bound_at(split.fail);
    u64::from(inst.costs[split.test as usize]) * graph.nodes[place].weight + (pass + fail)
}

/// Whether a walk has something to do in one of the two parts.
fn is_ahead(pass: Knowledge, fail: Knowledge) -> bool
    ensures { result ≡ true → IsAhead pass fail }
{
    match pass {
        Knowledge::Closed => match fail {
            Knowledge::Closed => false,
            _ => true,
        },
        _ => true,
    }
}

/// The evaluated test, if it qualifies.
fn qualify(
    inst: &Instance,
    graph: &Graph,
    place: usize,
    split: Split,
    limits: Limits,
) -> Option<Candidate>
    requires known { IsGraphOf inst.now graph.now }
    requires place { place < length graph.now.rows.items }
    requires parts { HasParts (problem_of inst.now) graph.now.numbers (members (group_at graph.now.rows.items place)) split }
    requires splits { IsIn split.test (splitting (problem_of inst.now) (members (group_at graph.now.rows.items place))) }
    requires low { IsLowOf (problem_of inst.now) (members (group_at graph.now.rows.items place)) limits.bounds }
    ensures { IfSome result (IsCandidate (problem_of inst.now) graph.now.numbers graph.now.rows.items (members (group_at graph.now.rows.items place))) }
{
    let sum = low_sum(inst, graph, place, split);
    if sum > limits.sum {
        return None;
    }
    let pass = knowledge_of(inst, graph, split.pass);
    let fail = knowledge_of(inst, graph, split.fail);
    if !is_ahead(pass, fail) || bound_sum(inst, graph, place, split) > limits.bounds {
        return None;
    }
    Some(Candidate {
        split,
        sum,
        pass,
        fail,
    })
}

/// Of which of the qualifying tests the first is looked for.
#[derive(Clone, Copy)]
enum Among {
    /// Of all.
    All,
    /// Of those that come after this one.
    After { last: Candidate },
    /// Of those that lead to an open part that is listed.
    Listed,
}

impl Among {
    /// Whether the candidate is one of these.
    fn has(self, graph: &Graph, candidate: Candidate) -> bool {
        match self {
            Among::All => true,
            Among::After { last } => last.is_before(candidate),
            Among::Listed => candidate.leads_to_listed(graph),
        }
    }
}

/// The earlier one, unless the new one is among those that are looked for and comes before it.
fn first_of(
    graph: &Graph,
    earlier: Option<Candidate>,
    new: Option<Candidate>,
    among: Among,
) -> Option<Candidate>
    ensures { (result ≡ earlier) ⊎ (result ≡ new) }
{
    match (earlier, new) {
        (_, None) => earlier,
        (None, Some(next)) if among.has(graph, next) => new,
        (Some(first), Some(next)) if next.is_before(first) && among.has(graph, next) => new,
        _ => earlier,
    }
}

/// The first of the qualifying tests, by sum and then by number.
fn first_candidate(
    inst: &Instance,
    graph: &Graph,
    place: usize,
    limits: Limits,
    among: Among,
) -> Option<Candidate>
    requires known { IsGraphOf inst.now graph.now }
    requires place { place < length graph.now.rows.items }
    requires low { IsLowOf (problem_of inst.now) (members (group_at graph.now.rows.items place)) limits.bounds }
    ensures { IfSome result (IsCandidate (problem_of inst.now) graph.now.numbers graph.now.rows.items (members (group_at graph.now.rows.items place))) }
{
    let splits = graph.nodes[place].splits.as_slice();
    let mut first = None;
    for split in splits {
        let next = qualify(inst, graph, place, *split, limits);
        first = first_of(graph, first, next, among);
    }
    first
}

/// How many qualifying tests the worker of this number skips at the group.
fn skips(number: u32, group: &Group) -> u32 {
    let mut mix = u64::from(number).wrapping_mul(0x9e37_79b9_7f4a_7c15);
    for word in group.0 {
        mix = (mix ^ word).wrapping_mul(0x9e37_79b9_7f4a_7c15);
        mix ^= mix >> 32;
    }
    mix.trailing_zeros()
}

/// The qualifying test that comes after so many others, or the last one.
fn candidate_after(
    inst: &Instance,
    graph: &Graph,
    place: usize,
    limits: Limits,
    skipped: u32,
) -> Option<Candidate>
    requires known { IsGraphOf inst.now graph.now }
    requires place { place < length graph.now.rows.items }
    requires low { IsLowOf (problem_of inst.now) (members (group_at graph.now.rows.items place)) limits.bounds }
    ensures { IfSome result (IsCandidate (problem_of inst.now) graph.now.numbers graph.now.rows.items (members (group_at graph.now.rows.items place))) }
{
    let mut last = first_candidate(inst, graph, place, limits, Among::All)?;
    for _ in 0..skipped {
        let among = Among::After { last };
        let Some(next) = first_candidate(inst, graph, place, limits, among) else {
            return Some(last);
        };
        last = next;
    }
    Some(last)
}

/// The test by which the worker of this number goes, if any qualifies.
fn chosen(
    inst: &Instance,
    graph: &Graph,
    place: usize,
    limits: Limits,
    number: u32,
) -> Option<Candidate>
    requires known { IsGraphOf inst.now graph.now }
    requires place { place < length graph.now.rows.items }
    requires low { IsLowOf (problem_of inst.now) (members (group_at graph.now.rows.items place)) limits.bounds }
    ensures { IfSome result (IsCandidate (problem_of inst.now) graph.now.numbers graph.now.rows.items (members (group_at graph.now.rows.items place))) }
{
    match first_candidate(inst, graph, place, limits, Among::Listed) {
        Some(listed) => Some(listed),
        None => {
            let skipped = skips(number, &graph.rows[place].group);
            candidate_after(inst, graph, place, limits, skipped)
        }
    }
}

/// Whether the failing part comes first: of two open parts the one that is listed, else the one after the
/// first answer.
fn fails_first(graph: &Graph, candidate: Candidate, first: Answer) -> bool {
    let pass = is_listed(graph, candidate.pass);
    let fail = is_listed(graph, candidate.fail);
    if pass == fail {
        first == Answer::Fail
    } else {
        fail
    }
}

/// What the walk does by a test that qualifies.
fn step_at(
    inst: &Instance,
    graph: &Graph,
    place: usize,
    candidate: Candidate,
    first: Answer,
) -> Step
    requires known { IsGraphOf inst.now graph.now }
    requires place { place < length graph.now.rows.items }
    requires candidate { IsCandidate (problem_of inst.now) graph.now.numbers graph.now.rows.items (members (group_at graph.now.rows.items place)) candidate }
    ensures { IsStep (problem_of inst.now) graph.now.rows.items (members (group_at graph.now.rows.items place)) result }
{
    let _ = inst;
    let _ = place;
    let pass = graph.numbers.group_at(candidate.split.pass);
    let fail = graph.numbers.group_at(candidate.split.fail);
    if fails_first(graph, candidate, first) {
        step_of(fail, candidate.fail, pass, candidate.pass)
    } else {
        step_of(pass, candidate.pass, fail, candidate.fail)
    }
}

/// What the worker of this number does at a group. The worker of number 0 goes by the test of least sum, as
/// one thread does; another by a test that qualifies. Of the two parts one that isn't known comes first, and
/// then one that this graph has listed. Where both parts by the test of least sum are closed, so is the group.
pub fn choose_step(
    inst: &Instance,
    graph: &mut Graph,
    place: usize,
    first: Answer,
    number: u32,
) -> Step
    requires known { IsGraphOf inst.now graph.old }
    requires place { place < length graph.old.rows.items }
    ensures known { IsGraphOf inst.now graph.new }
    ensures rows { graph.new.rows ≡ graph.old.rows }
    ensures keeps { KeepsRoom graph.old graph.new }
    ensures step { IsStep (problem_of inst.now) graph.old.rows.items (members (group_at graph.old.rows.items place)) result }
{
    let least = least_test(inst, graph, place);
    // Where both parts by the test of least sum are closed, its sums over lows and ups are the same.
    if number != 0 && least.sum < least.up {
        let limits = limits_of(inst, graph, place, least.sum);
        if let Some(candidate) = chosen(inst, graph, place, limits, number) {
            return step_at(inst, graph, place, candidate, first);
        }
    }
    step_by_test(inst, graph, place, least.test, first)
}
