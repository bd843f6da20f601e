//! A walk over the classes of a group. It keeps of one word the classes that are left, and takes the lowest
//! of them; so a class costs a few steps that need not wait for a look at the group, and a word without a
//! class costs one. `first_from` asks the same of a group from any number on, and starts anew each time.
ghost use Rattle.std.specs.Prelude.{◌<◌, ◌≤◌, ℕ, IfSome, IfNone};
ghost use Rattle.seq_inst.specs.Members.{HasNoneFrom, IsStep};
ghost use Rattle.seq_inst.specs.Walks.{IsAhead, IsNext, IsAheadOf};

use crate::group::Group;

/// The classes of a group that are ahead of a walk: in one word those that are left, and those of the
/// words after it.
#[derive(Clone, Copy)]
pub struct Ahead {
    pub(crate) place: usize,
    pub(crate) word: u64,
}

impl Ahead {
    /// All classes of the group.
    pub fn of(group: &Group) -> Ahead
        ensures { IsAhead group.now result 0 }
    {
        Ahead {
            place: 0,
            word: group.0[0],
        }
    }

    /// The next class of the group, which is that of `of`.
    #[inline(always)]
    pub fn next_class(&mut self, group: &Group) -> Option<u32>
        requires { self.old.place < 8 }
        ensures found { (from : ℕ) → IsAhead group.now self.old from → IfSome result (IsNext group.now self.new from) }
        ensures none { (from : ℕ) → IsAhead group.now self.old from → IfNone result (HasNoneFrom group.now from) }
        ensures step { (from : ℕ) → from ≤ 512 → IsAhead group.now self.old from → IsStep group.now from result }
        ensures ahead { (from : ℕ) → IsAhead group.now self.old from → IsAheadOf group.now self.new result }
    {
        while self.word == 0 {
            if self.place >= 7 {
                return None;
            }
            self.place += 1;
            self.word = group.0[self.place];
        }
        let class = 64 * self.place as u32 + self.word.trailing_zeros();
        self.word &= self.word - 1;
        Some(class)
    }
}
