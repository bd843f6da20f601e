//! What is kept of the group lines while they are looked at: what each group's first line claims of it, and
//! of which groups a line claims less than their bound.
ghost use Rattle.std.specs.Prelude.{IfOk};
ghost use Rattle.seq_inst.specs.Instances.{problem_of};
ghost use Rattle.seq_huff.specs.Orders.{IsOrderFor};
ghost use Rattle.seq_check.specs.Listed.{IsListing};

use crate::below::{Below, below_of};
use crate::lows::{Lows, lows_of};
use seq_cert::GroupLine;
use seq_huff::{Order, Scratch};
use seq_inst::Instance;
use std::alloc::{AllocError, Global};

/// The lows by group, and the groups with a low below their bound.
#[derive(Drop)]
pub struct Listing {
    pub lows: Lows,
    pub below: Below,
}

/// What is kept of the lines.
pub fn listing_of(
    alloc: Global,
    scratch: &mut Scratch,
    order: &Order,
    inst: &Instance,
    lines: &[GroupLine],
) -> Result<Listing, AllocError>
    requires { IsOrderFor inst.now order.now }
    ensures { IfOk result (λ l. IsListing (problem_of inst.now) l lines.now) }
{
    let lows = lows_of(alloc, lines)?;
    let below = below_of(alloc, scratch, order, inst, lines)?;
    Ok(Listing { lows, below })
}
