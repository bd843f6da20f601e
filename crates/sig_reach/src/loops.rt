//! Which nodes lie on a loop. That is so where one of a node's sources is in its strongly connected component, maybe
//! the node itself; so one search for the components and one look at each link settle it for all nodes.

ghost use Rattle.std.specs.Prelude.{◌≡◌, ℕ, ◌<◌, ◌↔◌, true, length, IfOk, IsTrue};
ghost use Rattle.std.specs.List.{Contains};
ghost use Rattle.sig_reach.specs.Marks.{AreThere, LeadsTo, all_open, is_marked};
ghost use Rattle.sig_reach.specs.Components.{HasNumbered};

use crate::components::components;
use sig_types::List;
use std::alloc::{AllocError, Global};

/// Whether one of the nodes has the number.
fn has_numbered(nodes: &[u32], numbers: &[usize], number: usize) -> bool
    requires { (v : ℕ) → Contains nodes.now v → v < length numbers.now }
    ensures { IsTrue result ↔ HasNumbered nodes.now numbers.now number }
{
    for node in nodes {
        if numbers[*node as usize] == number {
            return true;
        }
    }
    false
}

/// Marks the nodes from which a list of links leads to themselves. `sources` has for each node those from which a link
/// leads to it.
pub fn mark_loops(alloc: Global, sources: &[List<u32>]) -> Result<Vec<bool>, AllocError>
    requires there { AreThere sources.now }
    ensures long { IfOk result (λ marks. length marks.items ≡ length sources.now) }
    ensures marked { IfOk result (λ marks. (v : ℕ) → v < length sources.now → (is_marked marks.items v ≡ true) ↔ LeadsTo sources.now (all_open sources.now) v v) }
{
    let numbers = components(alloc, sources)?;
    let mut marks = Vec::with_capacity(alloc, sources.len())?;
    for node in 0..sources.len() {
        let number = numbers[node];
        let loops = has_numbered(sources[node].as_slice(), numbers.as_slice(), number);
        marks.push(loops)?;
    }
    Ok(marks)
}
