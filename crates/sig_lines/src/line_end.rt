//! Where a line of a text ends, for readers that keep places in place of slices.
ghost use Rattle.std.specs.Prelude.{◌≡◌, ◌≢◌, ◌<◌, ◌≤◌, ℕ, IfSome, IfNone, length, slice_index};

/// The place of the first LF at or after a place, by one pass over the bytes between.
pub fn next_line(text: &[u8], at: usize) -> Option<usize>
    requires { at ≤ length text.now }
    ensures within { IfSome result (λ i. (at ≤ i) × (i < length text.now)) }
    ensures ends { IfSome result (λ i. slice_index text.now i ≡ 10) }
    ensures first { IfSome result (λ i. (k : ℕ) → at ≤ k → k < i → slice_index text.now k ≢ 10) }
    ensures none { IfNone result ((k : ℕ) → at ≤ k → k < length text.now → slice_index text.now k ≢ 10) }
{
    for i in at..text.len() {
        if text[i] == b'\n' {
            return Some(i);
        }
    }
    None
}
