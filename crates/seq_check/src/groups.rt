//! The group lines, one after another: at each first its size, classes and place (C06), then its low
//! (C07), and at the last one whether it is the group of all classes (C08). A bound is taken only of a
//! group whose classes are there. A line takes an estimate for each splitting test, and where that leaves the
//! test open, a look-up for both parts, and a bound of each that is not listed.
ghost use Rattle.std.specs.Prelude.{◌≡◌, ◌+◌, ◌^◌, ◌<◌, List, [], None, length, IsTrue};
ghost use Rattle.seq_inst.specs.Instances.{problem_of};
ghost use Rattle.seq_huff.specs.Orders.{IsOrderFor};
ghost use Rattle.seq_cert.specs.declared.report.GroupLine.{GroupLine as Line};
ghost use Rattle.seq_check.specs.Looks.{first_bad};
ghost use Rattle.seq_check.specs.GroupLooks.{claims_of, group_look, group_looks};
ghost use Rattle.seq_check.specs.Listed.{IsListing};

use crate::claim::is_allowed;
use crate::last::is_root;
use crate::listing::Listing;
use crate::looking::look;
use crate::sized::{does_follow, is_sized};
use seq_cert::{BadCode, BadLine, GroupLine};
use seq_huff::{Order, Scratch};
use seq_inst::Instance;

/// The first look at the line that is bad; `behind` are the lines after it.
#[tactic(auto, unfolding(crate::specs::GroupLooks::group_look))]
fn first_in_group(
    scratch: &mut Scratch,
    order: &Order,
    inst: &Instance,
    listing: &Listing,
    low: u64,
    before: Option<GroupLine>,
    line: &GroupLine,
    behind: &[GroupLine],
    number: u32,
) -> Option<BadLine>
    requires { IsOrderFor inst.now order.now }
    ensures { (lines : List Line) → IsListing (problem_of inst.now) listing.now lines → result ≡ first_bad (group_look (problem_of inst.now) number low (claims_of lines) before line.now behind.now) }
{
    if !is_sized(inst, line.size, &line.group) || !does_follow(before, line) {
        return look(number, BadCode::C06, false);
    }
    if !is_allowed(scratch, order, inst, listing, line) {
        return look(number, BadCode::C07, false);
    }
    if behind.is_empty() {
        look(number, BadCode::C08, is_root(inst, low, line))
    } else {
        None
    }
}

/// The first bad group line, the first of them on this line.
pub fn first_in_groups(
    scratch: &mut Scratch,
    order: &Order,
    inst: &Instance,
    listing: &Listing,
    low: u64,
    lines: &[GroupLine],
    line: u32,
) -> Option<BadLine>
    requires order { IsOrderFor inst.now order.now }
    requires listing { IsListing (problem_of inst.now) listing.now lines.now }
    requires fits { line + length lines.now < 2 ^ 32 }
    ensures { result ≡ first_bad (group_looks (problem_of inst.now) line low (claims_of lines.now) None lines.now) }
{
    let mut before = None;
    for at in 0..lines.len() {
        let number = line + at as u32;
        let bad = first_in_group(
            scratch,
            order,
            inst,
            listing,
            low,
            before,
            &lines[at],
            &lines[at + 1..],
            number,
        );
        if bad.is_some() {
            return bad;
        }
        before = Some(lines[at]);
    }
    None
}
