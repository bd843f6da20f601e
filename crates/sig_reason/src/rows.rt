//! Sets of tests as rows of four words, joined and compared a whole word at a time: test t is bit t % 64 of word t / 64, as in
//! a row of the matrix.

ghost use Rattle.std.specs.Prelude.{◌≡◌, ◌<◌, ℕ, true, false, not, ◌&&◌, ◌||◌, IfSome, IfNone};
ghost use Rattle.std.specs.Bool.{OnTrue, OnFalse};
ghost use Rattle.sig_matrix.specs.Detection.{in_row};
ghost use Rattle.sig_reason.specs.Rows.{HasJust, IsEmpty, HasSome, IsFirst};

use sig_matrix::has_test;

/// The tests that are in either.
pub(crate) fn joined(a: [u64; 4], b: [u64; 4]) -> [u64; 4]
    ensures { HasJust result (λ t. in_row a t || in_row b t) }
{
    [a[0] | b[0], a[1] | b[1], a[2] | b[2], a[3] | b[3]]
}

/// The tests that are in both.
pub(crate) fn common(a: [u64; 4], b: [u64; 4]) -> [u64; 4]
    ensures { HasJust result (λ t. in_row a t && in_row b t) }
{
    [a[0] & b[0], a[1] & b[1], a[2] & b[2], a[3] & b[3]]
}

/// The tests that are in the first alone.
pub(crate) fn without(a: [u64; 4], b: [u64; 4]) -> [u64; 4]
    ensures { HasJust result (λ t. in_row a t && not (in_row b t)) }
{
    [
        a[0] ^ (a[0] & b[0]),
        a[1] ^ (a[1] & b[1]),
        a[2] ^ (a[2] & b[2]),
        a[3] ^ (a[3] & b[3]),
    ]
}

/// Whether no test is in the row.
pub(crate) fn is_empty(row: [u64; 4]) -> bool
    ensures none { OnTrue result (IsEmpty row) }
    ensures some { OnFalse result (HasSome row) }
{
    for at in 0..4 {
        if row[at] != 0 {
            return false;
        }
    }
    true
}

/// The lowest test of the row.
pub(crate) fn first_of(row: [u64; 4]) -> Option<u32>
    ensures first { IfSome result (IsFirst row) }
    ensures none { IfNone result (IsEmpty row) }
{
    for test in 0..256 {
        if has_test(row, test) {
            return Some(test);
        }
    }
    None
}
