//! One look at a line, and texts compared.
ghost use Rattle.std.specs.Prelude.{◌≡◌, ◌∷◌, []};
ghost use Rattle.std.specs.Str.{bytes_eq};
ghost use Rattle.seq_check.specs.Looks.{look, first_bad};

use seq_cert::{BadCode, BadLine};
use sig_lines::is_text;
use sig_types::Text;

/// The bad line, unless it is good.
pub fn look(line: u32, code: BadCode, good: bool) -> Option<BadLine>
    ensures { result ≡ first_bad (look line code good ∷ []) }
{
    if good {
        None
    } else {
        Some(BadLine { line, code })
    }
}

/// Whether two texts are the same.
pub fn is_same_text(a: &Text, b: &Text) -> bool
    ensures { result ≡ bytes_eq a.now b.now }
{
    is_text(a.as_str().as_bytes(), b.as_str().as_bytes())
}
