//! Room for the groups that are entered. A graph on one thread makes room for one group at a time (`grow`),
//! and its lists grow while groups are looked at. A graph with room (`Graph::with_room`) has all its memory from
//! the start, and nothing that is done with it takes any: of several workers none can be left without. Where
//! its lists or its numbers are full, or no list is left for a group, sums are worked out the plain way: slower,
//! with the same answers.
//!
//! How much room is worth its memory depends on how many workers have a graph each. One alone enters all groups
//! itself, so each list has room for all tests. Of several each enters some. Most groups have few tests that may be
//! of least sum, and those that are entered first, which a walk passes most often, have the most: so one list of
//! eight has room for all tests, and these are taken first.
ghost use Rattle.std.specs.Prelude.{◌≡◌, ◌≤◌, [], length, vec_capacity, IfOk, OnOk};
ghost use Rattle.seq_inst.specs.Instances.{problem_of};
ghost use Rattle.seq_graph.specs.Numbered.{capacity, AreNumbersFor};
ghost use Rattle.seq_graph.specs.Known.{AreSound, IsGraphOf};
ghost use Rattle.seq_graph.specs.Rooms.{HasRoom, KeepsRoom};

use crate::graph::Graph;
use crate::node::{Growth, Lists};
use crate::numbers::Numbers;
use seq_inst::Instance;
use std::alloc::{AllocError, Global};

/// The room that is made for the groups that greedy's tree meets.
const ROOM_FOR_GREEDY: u32 = 4096;

/// The room of short lists: tests that are evaluated, and tests that wait.
const FEW_SPLITS: usize = 48;

const FEW_WAITING: usize = 32;

/// For so many groups beside one that is entered numbers are kept, where one worker has all the room, and at least.
const MOST_NUMBERS: u32 = 24;

const FEW_NUMBERS: u32 = 4;

/// Makes room for so many more numbers, and holds room for so many groups. Where the memory is short there is
/// as much room as before.
pub(crate) fn reserve_numbers(
    inst: &Instance,
    graph: &mut Graph,
    more: u32,
    held: u32,
) -> Result<(), AllocError>
    requires known { IsGraphOf inst.now graph.old }
    ensures known { IsGraphOf inst.now graph.new }
    ensures rows { graph.new.rows ≡ graph.old.rows }
    ensures nodes { graph.new.nodes ≡ graph.old.nodes }
    ensures lists { graph.new.lists ≡ graph.old.lists }
    ensures keeps { KeepsRoom graph.old graph.new }
    ensures held { OnOk result (held ≤ graph.new.numbers.held) }
    ensures counts { OnOk result (capacity graph.new.numbers ≤ vec_capacity graph.new.counts) }
{
    let _ = inst;
    let room = graph.numbers.room().max(more) as usize;
    let all_held = graph.numbers.held().max(held) as usize;
    graph.counts.reserve(room + all_held)?;
    graph.numbers.reserve(more, held)
}

/// Makes lists for one group, where there are none. They take memory when tests are listed.
fn make_lists(alloc: Global, lists: &mut Vec<Lists>) -> Result<(), AllocError>
    ensures more { length lists.old.items ≤ length lists.new.items }
    ensures some { OnOk result (1 ≤ length lists.new.items) }
{
    if lists.len() > 0 {
        return Ok(());
    }
    lists.push(Lists {
        splits: Vec::new(alloc),
        waiting: Vec::new(alloc),
    })?;
    Ok(())
}

/// Makes room for one more group. Where the memory is short, what is known has not changed.
pub fn grow(alloc: Global, inst: &Instance, graph: &mut Graph) -> Result<(), AllocError>
    requires known { IsGraphOf inst.now graph.old }
    ensures known { IsGraphOf inst.now graph.new }
    ensures rows { graph.new.rows.items ≡ graph.old.rows.items }
    ensures nodes { graph.new.nodes.items ≡ graph.old.nodes.items }
    ensures room { OnOk result (HasRoom 1 graph.new) }
    ensures keeps { KeepsRoom graph.old graph.new }
{
    graph.rows.reserve(1)?;
    graph.nodes.reserve(1)?;
    make_lists(alloc, &mut graph.lists)?;
    reserve_numbers(inst, graph, ROOM_FOR_GREEDY, 1)?;
    Ok(())
}

/// How many of so many groups have lists with room for all tests.
fn long_lists(groups: u32, workers: u32) -> u32
    ensures { result ≤ groups }
{
    if workers == 1 {
        return groups;
    }
    groups / 8
}

/// For how many groups beside one that is entered there is room for numbers.
fn numbers_each(workers: u32) -> u32 {
    (MOST_NUMBERS / workers.max(1)).max(FEW_NUMBERS)
}

/// Lists for so many groups, the short ones first.
fn lists_for(
    alloc: Global,
    inst: &Instance,
    groups: u32,
    workers: u32,
) -> Result<Vec<Lists>, AllocError>
    ensures { IfOk result (λ l. groups ≤ length l.items) }
{
    let tests = inst.costs.len();
    let mut lists = Vec::with_capacity(alloc, groups as usize)?;
    let few = groups - long_lists(groups, workers);
    for group in 0..groups {
        let splits = if group < few {
            tests.min(FEW_SPLITS)
        } else {
            tests
        };
        let waiting = if group < few {
            tests.min(FEW_WAITING)
        } else {
            tests
        };
        lists.push(Lists {
            splits: Vec::with_capacity(alloc, splits)?,
            waiting: Vec::with_capacity(alloc, waiting)?,
        })?;
    }
    Ok(lists)
}

impl Graph {
    /// Nothing is known yet. There is room for so many groups, with lists for each, and what is done with the
    /// graph takes no more memory. So many workers have such a graph each. With 256 tests that of one alone takes 11,000 bytes a group
    /// at most, that of one of several 4,000, and each 5 MB beside.
    pub fn with_room(
        alloc: Global,
        inst: &Instance,
        groups: u32,
        workers: u32,
    ) -> Result<Graph, AllocError>
        ensures rows { IfOk result (λ g. g.rows.items ≡ []) }
        ensures known { IfOk result (IsGraphOf inst.now) }
        ensures sound { IfOk result (λ g. AreSound (problem_of inst.now) g.rows.items) }
        ensures room { IfOk result (HasRoom groups) }
    {
        let numbers = Numbers::new(alloc, inst)?;
        let rows = Vec::with_capacity(alloc, groups as usize)?;
        let nodes = Vec::with_capacity(alloc, groups as usize)?;
        let lists = lists_for(alloc, inst, groups, workers)?;
        let mut graph = Graph {
            numbers,
            rows,
            nodes,
            counts: Vec::new(alloc),
            lists,
            growth: Growth::Fixed,
        };
        let more = groups
            .saturating_mul(numbers_each(workers))
            .saturating_add(ROOM_FOR_GREEDY);
        reserve_numbers(inst, &mut graph, more, groups)?;
        Ok(graph)
    }
}
