//! A text made of bytes that are known to be ASCII, as the words of a text that was read: they are UTF-8
//! then, so only memory can fail.
ghost use Rattle.std.specs.Str.{IsAscii};
ghost use Rattle.std.specs.Prelude.{◌≡◌, IfOk};

use sig_types::Text;
use std::alloc::{AllocError, Global};
use std::str;

/// A text of these bytes.
pub fn ascii_text(alloc: Global, bytes: &[u8]) -> Result<Text, AllocError>
    requires { IsAscii bytes.now }
    ensures { IfOk result (λ t. t ≡ bytes.now) }
{
    match str::from_utf8(bytes) {
        Ok(text) => Text::of(alloc, text),
        Err(_) => unreachable!(),
    }
}
