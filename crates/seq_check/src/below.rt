//! The listed groups of which a line claims less than their bound. A search begins a low with the bound and
//! only raises it, so it writes no such line, and the set is empty. But whoever writes a certificate may claim
//! less, and such a line is good. Of any group outside the set it is known without a look at the lines that it
//! counts at least its bound. So an estimate that is at most the sum over the bounds of a test's parts is at
//! most the sum over what they count. A set and no flag, since one such line would turn a flag.
ghost use Rattle.std.specs.Prelude.{◌≡◌, ◌≤◌, IfOk, OnOk, List, ◌∷◌, [], ◌++◌, true};
ghost use Rattle.seq_theory.specs.Problem.{Problem};
ghost use Rattle.seq_theory.specs.Bound.{bound as bound_of};
ghost use Rattle.seq_theory.specs.Claims.{claimed};
ghost use Rattle.seq_inst.specs.Members.{members};
ghost use Rattle.seq_inst.specs.Instances.{problem_of};
ghost use Rattle.seq_huff.specs.Orders.{IsOrderFor};
ghost use Rattle.seq_cert.specs.declared.report.GroupLine.{GroupLine as Line};
ghost use Rattle.seq_check.specs.GroupLooks.{claims_of};
ghost use Rattle.seq_check.specs.Listed.{AreBelow};

use crate::sized::has_only_classes;
use seq_cert::GroupLine;
use seq_huff::{Order, Scratch, ordered_bound};
use seq_inst::{Group, Instance, group_stands, same_words_hold};
use std::alloc::{AllocError, Global};
use std::collections::BTreeSet;

/// Groups, by their words.
pub type Below = BTreeSet<[u64; 8]>;

/// Whether the line claims at least the bound of its group. Of a group with classes that aren't there no
/// bound is taken.
fn is_above(scratch: &mut Scratch, order: &Order, inst: &Instance, line: &GroupLine) -> bool
    requires { IsOrderFor inst.now order.now }
    ensures { result ≡ true → bound_of (problem_of inst.now) (members line.now.group) ≤ line.now.low }
{
    if !has_only_classes(inst, &line.group) {
        return false;
    }
    ordered_bound(scratch, order, inst, &line.group) <= line.low
}

/// Notes the group of one more line, where the line claims less than its bound.
fn note(
    below: &mut Below,
    scratch: &mut Scratch,
    order: &Order,
    inst: &Instance,
    line: &GroupLine,
) -> Result<(), AllocError>
    requires { IsOrderFor inst.now order.now }
    ensures { OnOk result ((lines : List Line) → AreBelow (problem_of inst.now) below.old lines → AreBelow (problem_of inst.now) below.new (lines ++ line.now ∷ [])) }
{
    group_stands(&line.group);
    same_words_hold();
    let above = is_above(scratch, order, inst, line);
    if !above {
        below.insert(line.group.0)?;
    }
    Ok(())
}

/// The groups of which one of the lines claims less than their bound. Takes a bound for each line.
pub fn below_of(
    alloc: Global,
    scratch: &mut Scratch,
    order: &Order,
    inst: &Instance,
    lines: &[GroupLine],
) -> Result<Below, AllocError>
    requires { IsOrderFor inst.now order.now }
    ensures { IfOk result (λ s. AreBelow (problem_of inst.now) s lines.now) }
{
    let mut below = BTreeSet::new(alloc);
    for line in lines {
        note(&mut below, scratch, order, inst, line)?;
    }
    Ok(below)
}

/// Whether it is known that the group counts at least its bound, by whichever lines the set is made from.
pub fn counts_bound(below: &Below, group: &Group) -> bool
    ensures { (p : Problem) (lines : List Line) → AreBelow p below.now lines → result ≡ true → bound_of p (members group.now) ≤ claimed p (claims_of lines) (members group.now) }
{
    group_stands(group);
    !below.contains(&group.0)
}
