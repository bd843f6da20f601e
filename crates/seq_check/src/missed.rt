//! C09: the missed group has its size, only classes that are there, and is none of those listed.
ghost use Rattle.std.specs.Prelude.{◌≡◌, List};
ghost use Rattle.seq_inst.specs.Instances.{problem_of};
ghost use Rattle.seq_cert.specs.declared.report.GroupLine.{GroupLine as Line};
ghost use Rattle.seq_check.specs.Looks.{first_bad};
ghost use Rattle.seq_check.specs.GroupLooks.{is_listed, missed_looks};
ghost use Rattle.seq_check.specs.Listed.{AreLows};

use crate::looking::look;
use crate::lows::Lows;
use crate::sized::is_sized;
use seq_cert::{BadCode, BadLine, MissedLine};
use seq_inst::{Group, Instance, group_stands};

/// Whether the group is listed.
fn is_listed(lows: &Lows, group: &Group) -> bool
    ensures { (lines : List Line) → AreLows lows.now lines → result ≡ is_listed lines group.now }
{
    group_stands(group);
    lows.contains_key(&group.0)
}

/// Whether the missed line is bad.
#[tactic(auto, unfolding(crate::specs::GroupLooks::missed_looks))]
pub fn first_in_missed(
    inst: &Instance,
    lows: &Lows,
    missed: Option<MissedLine>,
    line: u32,
) -> Option<BadLine>
    ensures { (lines : List Line) → AreLows lows.now lines → result ≡ first_bad (missed_looks (problem_of inst.now) line lines missed) }
{
    match missed {
        None => None,
        Some(missed) => look(
            line,
            BadCode::C09,
            is_sized(inst, missed.size, &missed.group) && !is_listed(lows, &missed.group),
        ),
    }
}
