//! Numbers in upward order, by std's sort in place: it takes no memory, and about n log n steps for n
//! numbers. The weights of a group and the costs of its tests are sorted by the same call.
ghost use Rattle.std.specs.Prelude.{◌≡◌};
ghost use Rattle.seq_theory.specs.Huffman.{upward};

/// Puts the numbers in upward order.
pub(crate) fn sort_upward(numbers: &mut [u64])
    ensures { numbers.new ≡ upward numbers.old }
{
    numbers.sort_unstable();
}
