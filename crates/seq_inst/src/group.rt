//! A group of classes as 512 bits in eight words, so that what two groups share, what the one lacks
//! of the other, and how many classes a group has are each worked out for all words at once, a word a
//! lane. Which class comes first is a walk over words, since most groups show it in an early one.
ghost use Rattle.std.specs.Prelude.{◌≡◌, ◌<◌, ◌≤◌, length, filter, not, IfSome, IfNone};
ghost use Rattle.std.specs.List.{list_any};
ghost use Rattle.seq_inst.specs.Members.{members, has_class, IsFirstFrom, HasNoneFrom, IsStep, IsWords};

use crate::words::group_stands;
use std::simd::prelude::*;

/// A set of classes: class c is bit c % 64 of word c / 64.
#[derive(Clone, Copy, Debug, PartialEq, Eq)]
pub struct Group(pub [u64; 8]);

impl Group {
    /// Whether the class is in the group.
    pub fn has(&self, class: u32) -> bool
        requires { class < 512 }
        ensures { result ≡ has_class self.now class }
    {
        (self.0[(class / 64) as usize] >> (class % 64)) & 1 == 1
    }

    /// The first class of the group from this number on. Words without a class take a step each.
    pub fn first_from(&self, class: u32) -> Option<u32>
        ensures found { IfSome result (IsFirstFrom self.now class) }
        ensures none { IfNone result (HasNoneFrom self.now class) }
        ensures step { class ≤ 512 → IsStep self.now class result }
    {
        if class >= 512 {
            return None;
        }
        let place = (class / 64) as usize;
        let word = self.0[place] >> (class % 64);
        if word != 0 {
            return Some(class + word.trailing_zeros());
        }
        for i in place + 1..8 {
            let word = self.0[i];
            if word != 0 {
                return Some(64 * i as u32 + word.trailing_zeros());
            }
        }
        None
    }
}

/// The words of a group side by side, one a lane.
#[inline(always)]
fn lanes_of(group: &Group) -> u64x8
    ensures lanes { result ≡ group.now.0 }
    ensures words { IsWords group.now }
{
    group_stands(group);
    u64x8::from_array(group.0)
}

/// The classes that are in both groups.
#[inline(always)]
pub(crate) fn common(a: &Group, b: &Group) -> Group
    ensures { members result ≡ filter (has_class b.now) (members a.now) }
{
    Group((lanes_of(a) & lanes_of(b)).to_array())
}

/// The classes of the first group that are not in the second.
#[inline(always)]
pub(crate) fn without(a: &Group, b: &Group) -> Group
    ensures { members result ≡ filter (λ c. not (has_class b.now c)) (members a.now) }
{
    let all = lanes_of(a);
    Group((all ^ (all & lanes_of(b))).to_array())
}

/// How many classes the group has.
pub fn count_of(group: &Group) -> u32
    ensures { result ≡ length (members group.now) }
{
    lanes_of(group).count_ones().strict_reduce_sum() as u32
}

/// Whether some class is in both groups.
#[inline(always)]
pub(crate) fn shares(a: &Group, b: &Group) -> bool
    ensures { result ≡ list_any (has_class b.now) (members a.now) }
{
    (lanes_of(a) & lanes_of(b)).reduce_or() != 0
}

/// Whether some class of the first group is not in the second.
#[inline(always)]
pub(crate) fn lacks(a: &Group, b: &Group) -> bool
    ensures { result ≡ list_any (λ c. not (has_class b.now c)) (members a.now) }
{
    let all = lanes_of(a);
    (all ^ (all & lanes_of(b))).reduce_or() != 0
}
