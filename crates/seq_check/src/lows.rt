//! What the group lines claim, looked up by group. A group that is listed twice counts with its first
//! line. The table is in order of the groups' words and not hashed: whoever writes a certificate chooses
//! its groups, and no choice makes a look-up in an ordered table dear.
ghost use Rattle.std.specs.Prelude.{IfOk, OnOk, List, ◌∷◌, [], ◌++◌};
ghost use Rattle.seq_cert.specs.declared.report.GroupLine.{GroupLine as Line};
ghost use Rattle.seq_check.specs.Listed.{AreLows};

use seq_cert::GroupLine;
use seq_inst::{group_stands, same_words_hold};
use std::alloc::{AllocError, Global};
use std::collections::BTreeMap;

/// The low of each listed group, by the group's words.
pub type Lows = BTreeMap<[u64; 8], u64>;

/// Notes the low of one more line.
fn note(lows: &mut Lows, line: &GroupLine) -> Result<(), AllocError>
    ensures { OnOk result ((lines : List Line) → AreLows lows.old lines → AreLows lows.new (lines ++ line.now ∷ [])) }
{
    group_stands(&line.group);
    same_words_hold();
    let known = lows.contains_key(&line.group.0);
    if !known {
        lows.insert(line.group.0, line.low)?;
    }
    Ok(())
}

/// The lows of the lines.
pub fn lows_of(alloc: Global, lines: &[GroupLine]) -> Result<Lows, AllocError>
    ensures { IfOk result (λ m. AreLows m lines.now) }
{
    let mut lows = BTreeMap::new(alloc);
    for line in lines {
        note(&mut lows, line)?;
    }
    Ok(lows)
}
