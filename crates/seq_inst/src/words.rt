//! A group as its eight words, by which a table finds it. That there are eight, and that each has 64 bits, is
//! known of the type; two groups with the same classes have the same words.
ghost use Rattle.std.specs.Prelude.{◌≡◌, ◌^◌, ◌<◌, ℕ, length, slice_index};
ghost use Rattle.seq_theory.specs.Graph.{same_group};
ghost use Rattle.seq_inst.specs.Members.{members, IsWords, SameWordsHold};

use crate::group::Group;

/// How many words there are.
fn know_count(words: &[u64; 8])
    ensures { length words.now ≡ 8 }
{}

/// How great words are.
fn know_each(words: &[u64])
    ensures { (k : ℕ) → slice_index words.now k < 2 ^ 64 }
{}

/// A group is eight words of 64 bits. Does nothing.
pub fn group_stands(group: &Group)
    ensures { IsWords group.now }
{
    know_count(&group.0);
    know_each(&group.0);
}

/// Groups with the same classes have the same words, and a test of the words tells it. Does nothing.
pub fn same_words_hold()
    ensures { SameWordsHold }
{}

impl Group {
    /// Whether the groups have the same classes.
    pub fn is_same(&self, other: &Group) -> bool
        ensures { result ≡ same_group (members self.now) (members other.now) }
    {
        group_stands(self);
        group_stands(other);
        self.0 == other.0
    }
}
