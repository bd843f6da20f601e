//! What a word of a line may be: a label, a mode, or the number of the line.
ghost use Rattle.std.specs.Prelude.{◌≡◌, decimal};
ghost use Rattle.std.specs.List.{list_all};
ghost use Rattle.std.specs.Str.{bytes_eq};
ghost use Rattle.sig_types.specs.NameText.{is_name};
ghost use Rattle.seq_cert.specs.LineForms.{is_in, is_label, is_mode};

use sig_lines::{is_text, number_of};
use sig_types::Name;
use std::str;

fn is_label_byte(byte: u8) -> bool
    ensures { result ≡ is_in 33 126 byte }
{
    0x21 <= byte && byte <= 0x7e
}

fn are_label_bytes(label: &[u8]) -> bool
    ensures { result ≡ list_all (is_in 33 126) label.now }
{
    for at in 0..label.len() {
        if !is_label_byte(label[at]) {
            return false;
        }
    }
    true
}

/// One or more bytes from 0x21 to 0x7e.
pub(crate) fn is_label(label: &[u8]) -> bool
    ensures { result ≡ is_label label.now }
{
    label.len() != 0 && are_label_bytes(label)
}

fn is_name(word: &[u8]) -> bool
    ensures { result ≡ is_name word.now }
{
    match str::from_utf8(word) {
        Ok(text) => Name::of(text).is_some(),
        Err(_) => false,
    }
}

/// A name, or `-`.
pub(crate) fn is_mode(mode: &[u8]) -> bool
    ensures { result ≡ is_mode mode.now }
{
    is_text(mode, b"-") || is_name(mode)
}

/// Whether the word writes the number.
pub(crate) fn is_number(word: &[u8], n: u32) -> bool
    ensures { result ≡ bytes_eq word.now (decimal n) }
{
    match number_of(word) {
        Some(m) => m == u64::from(n),
        None => false,
    }
}
