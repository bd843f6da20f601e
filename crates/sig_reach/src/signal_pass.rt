//! A pass for all signals at once: which nodes lead to a target, and with which signals, going backwards
//! from it along links.
//!
//! The signals of a node are the bits of one word, so a step takes all signals that come through a node
//! to each of its sources. What was not yet taken on from a node pends there, and the node waits in a
//! queue; first come, first served, since then a node has mostly gathered all its signals by its turn,
//! and a pass costs little more than that of one signal. A stack would send signals far ahead one by one.

ghost use Rattle.std.specs.Prelude.{◌≡◌, ℕ, ◌<◌, ◌↔◌, true, length, slice_index, IfOk, OnOk};
ghost use Rattle.std.specs.List.{Contains};
ghost use Rattle.sig_types.specs.Sets.{has_bit};
ghost use Rattle.sig_reach.specs.Marks.{AreThere, LeadsTo};
ghost use Rattle.sig_reach.specs.Words.{SpreadSignals, open_to};

use sig_types::List;
use std::alloc::{AllocError, Global};
use std::collections::VecDeque;

/// Puts the signals into the words of the nodes. Those that are new to a node pend there, and it waits.
fn spread_signals(
    nodes: &[u32],
    signals: u64,
    words: &mut [u64],
    pending: &mut [u64],
    waiting: &mut VecDeque<u32>,
) -> Result<(), AllocError>
    requires words { (v : ℕ) → Contains nodes.now v → v < length words.old }
    requires pending { length pending.old ≡ length words.old }
    ensures { OnOk result (SpreadSignals nodes.now signals words.old pending.old waiting.old.items words.new pending.new waiting.new.items) }
{
    for node in nodes {
        let word = words[*node as usize];
        let fresh = signals & !word;
        if fresh != 0 {
            words[*node as usize] = word | fresh;
            pending[*node as usize] |= fresh;
            waiting.push_back(*node)?;
        }
    }
    Ok(())
}

/// For each node the signals with which a list of links leads from it to the target, as bits. `stops` has
/// for each node the signals that it stops, and `sources` those from which a link leads to it.
pub fn leading_signals(
    alloc: Global,
    sources: &[List<u32>],
    stops: &[u64],
    target: u32,
) -> Result<Vec<u64>, AllocError>
    requires target { target < length sources.now }
    requires stops { length stops.now ≡ length sources.now }
    requires there { AreThere sources.now }
    ensures long { IfOk result (λ words. length words.items ≡ length sources.now) }
    ensures marked { IfOk result (λ words. (s : ℕ) → s < 64 → (v : ℕ) → (has_bit (slice_index words.items v) s ≡ true) ↔ LeadsTo sources.now (open_to s stops.now) target v) }
{
    let mut words = vec![in alloc; 0u64; sources.len()]?;
    let mut pending = vec![in alloc; 0u64; sources.len()]?;
    let mut waiting = VecDeque::new(alloc);
    spread_signals(
        sources[target as usize].as_slice(),
        u64::MAX,
        words.as_mut_slice(),
        pending.as_mut_slice(),
        &mut waiting,
    )?;
    'waiting: while let Some(node) = waiting.pop_front() {
        let through = pending[node as usize] & !stops[node as usize];
        pending[node as usize] = 0;
        if through != 0 {
            spread_signals(
                sources[node as usize].as_slice(),
                through,
                words.as_mut_slice(),
                pending.as_mut_slice(),
                &mut waiting,
            )?;
        }
    }
    Ok(words)
}
