//! How much an instance of a block has, with all that stands below it, and the limits of a flat model.
//! Numbers stand still at the end of the word, so a model whose uses multiply past every bound is refused
//! before anything is unfolded.
ghost use Rattle.std.specs.Prelude.{◌≡◌};
ghost use Rattle.sig_flat.specs.Counts.{first_over};
ghost use Rattle.sig_flat.specs.Counting.{limits_of, own_counts, IsWithUse};

use crate::pattern::Pattern;
use sig_types::{Block, Counted};

/// How many uses may stand one in another.
pub const MAX_DEPTH: u64 = 16;

pub const MAX_USES: u64 = 4096;

pub const MAX_NODES: u64 = 4096;

pub const MAX_LINKS: u64 = 32_768;

pub const MAX_FAULTS: u64 = 4096;

pub const MAX_TESTS: u64 = 256;

/// How much an instance of a block has, with all below it; each number stands still at the end of the word.
#[derive(Clone, Copy, Debug)]
pub struct Counts {
    /// How many uses stand one in another below it.
    pub depth: u64,
    /// How many uses there are below it.
    pub uses: u64,
    pub nodes: u64,
    pub links: u64,
    pub faults: u64,
    pub tests: u64,
}

impl Counts {
    /// What stands in the block itself.
    pub fn own(block: &Block, pattern: &Pattern) -> Counts
        ensures { result ≡ own_counts block.now pattern.now }
    {
        Counts {
            depth: 0,
            uses: 0,
            nodes: pattern.nodes.len() as u64,
            links: block.links.len() as u64,
            faults: pattern.faults.len() as u64,
            tests: pattern.tests.len() as u64,
        }
    }

    /// With one use more, of a block whose instances have so much.
    pub fn with_use(self, used: &Counts) -> Counts
        ensures { IsWithUse self used.now result }
    {
        Counts {
            depth: self.depth.max(used.depth.saturating_add(1)),
            uses: self.uses.saturating_add(used.uses.saturating_add(1)),
            nodes: self.nodes.saturating_add(used.nodes),
            links: self.links.saturating_add(used.links),
            faults: self.faults.saturating_add(used.faults),
            tests: self.tests.saturating_add(used.tests),
        }
    }

    /// The first quantity that passes its limit.
    pub fn over_limit(&self) -> Option<Counted>
        ensures { result ≡ first_over (limits_of self.now) }
    {
        if self.depth > MAX_DEPTH {
            Some(Counted::Depth)
        } else if self.uses > MAX_USES {
            Some(Counted::Uses)
        } else if self.nodes > MAX_NODES {
            Some(Counted::Nodes)
        } else if self.links > MAX_LINKS {
            Some(Counted::Links)
        } else if self.faults > MAX_FAULTS {
            Some(Counted::Faults)
        } else if self.tests > MAX_TESTS {
            Some(Counted::Tests)
        } else {
            None
        }
    }
}
