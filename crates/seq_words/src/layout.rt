//! Where the words of a place stand: eight words of bits, then its state, its low and its up, behind
//! two words that serve the moves of seats and the count of places.
ghost use Rattle.std.specs.Prelude.{◌≡◌, ◌<◌};
ghost use Rattle.seq_words.specs.Layout.{bits_at, state_at, low_at, up_at};

/// The word of 64 classes of the group at a place; part 0 has the first ones.
pub fn bits_word(place: u32, part: usize) -> usize
    requires { part < 8 }
    ensures { result ≡ bits_at place part }
{
    11 * place as usize + (2 + part)
}

/// 1 where the place is published, and 0 before.
pub fn state_word(place: u32) -> usize
    ensures { result ≡ state_at place }
{
    11 * place as usize + 10
}

/// A number that is at most what the group costs at least.
pub fn low_word(place: u32) -> usize
    ensures { result ≡ low_at place }
{
    11 * place as usize + 11
}

/// What some strategy for the group costs, or the greatest number.
pub fn up_word(place: u32) -> usize
    ensures { result ≡ up_at place }
{
    11 * place as usize + 12
}
