//! The places of names among the modes, the blocks, and the nodes and uses of a block of a valid model, which keeps
//! them by number. A name that isn't there has the number of names as its place, so that a look-up needs no case of its
//! own: a model without breach asks for no such name.
//!
//! The items of a block are numbered with its uses between its parts and its points, and its nodes are the items without
//! the uses. No two items share a name, so where a name stands among the items decides both places.
ghost use Rattle.std.specs.Prelude.{◌≡◌, ◌+◌, ◌<◌, length};
ghost use Rattle.sig_types.specs.Breaches.{block_names};
ghost use Rattle.sig_types.specs.Symbols.{item_names};
ghost use Rattle.sig_flat.specs.Known.{use_names};
ghost use Rattle.sig_flat.specs.Places.{own_names};
ghost use Rattle.sig_flat.specs.Resolved.{block_at};
ghost use Rattle.sig_flat.specs.Words.{place_among};

use sig_types::{Name, Valid};

/// The place of a mode.
pub fn mode_place(valid: &Valid, name: &Name) -> usize
    ensures { result ≡ place_among valid.now.modes name.now }
{
    match valid.mode_number(name) {
        Some(number) => number,
        None => valid.model().modes.len(),
    }
}

/// The place of a block.
pub fn block_place(valid: &Valid, name: &Name) -> usize
    ensures { result ≡ place_among (block_names valid.now) name.now }
{
    match valid.block_number(name) {
        Some(number) => number,
        None => valid.model().blocks.len(),
    }
}

/// The place of an item of a block.
fn item_place(valid: &Valid, block: usize, name: &Name) -> usize
    requires { block < length valid.now.blocks }
    ensures { result ≡ place_among (item_names (block_at valid.now.blocks block)) name.now }
{
    match valid.item_number(block, name) {
        Some(number) => number,
        None => valid.item_count(block),
    }
}

/// The place of a node of a block among its nodes.
pub fn node_place(valid: &Valid, block: usize, name: &Name) -> usize
    requires { block < length valid.now.blocks }
    ensures { result ≡ place_among (own_names (block_at valid.now.blocks block)) name.now }
{
    let model = valid.model();
    let own = &model.blocks.as_slice()[block];
    let place = item_place(valid, block, name);
    let items = valid.item_count(block);
    let first_point = items - own.points.len();
    if first_point <= place {
        place - own.uses.len()
    } else if first_point - own.uses.len() <= place {
        items - own.uses.len()
    } else {
        place
    }
}

/// The place of a use of a block among its uses.
pub fn use_place(valid: &Valid, block: usize, name: &Name) -> usize
    requires { block < length valid.now.blocks }
    ensures { result ≡ place_among (use_names (block_at valid.now.blocks block)) name.now }
{
    let model = valid.model();
    let own = &model.blocks.as_slice()[block];
    let place = item_place(valid, block, name);
    let first_point = valid.item_count(block) - own.points.len();
    let first_use = first_point - own.uses.len();
    if first_use <= place && place < first_point {
        place - first_use
    } else {
        own.uses.len()
    }
}
