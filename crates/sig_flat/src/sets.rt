//! Sets of signals and modes as bits of a word, each bit at the number that the model has for the name. A
//! name that is given twice sets one bit.
ghost use Rattle.std.specs.Prelude.{◌≡◌, ◌≤◌, length};
ghost use Rattle.sig_flat.specs.Words.{with_name, word_of};

use sig_types::{Modes, Name, Signals, Valid};

fn with_signal(valid: &Valid, word: u64, name: &Name) -> u64
    requires { length valid.now.signals ≤ 64 }
    ensures { result ≡ with_name valid.now.signals word name.now }
{
    match valid.signal_number(name) {
        Some(number) => word | (1 << number),
        None => word,
    }
}

/// The signals of these names; one that isn't known adds nothing.
#[tactic(auto, unfolding(crate::specs::Words::word_of))]
pub fn signals_of(valid: &Valid, names: &[Name]) -> Signals
    requires { length valid.now.signals ≤ 64 }
    ensures { result.0 ≡ word_of valid.now.signals names.now }
{
    let mut word = 0;
    for name in names {
        word = with_signal(valid, word, name);
    }
    Signals(word)
}

fn with_mode(valid: &Valid, word: u32, name: &Name) -> u32
    requires { length valid.now.modes ≤ 32 }
    ensures { result ≡ with_name valid.now.modes word name.now }
{
    match valid.mode_number(name) {
        Some(number) => word | (1 << number),
        None => word,
    }
}

/// The modes of these names; one that isn't known adds nothing.
#[tactic(auto, unfolding(crate::specs::Words::word_of))]
pub fn modes_of(valid: &Valid, names: &[Name]) -> Modes
    requires { length valid.now.modes ≤ 32 }
    ensures { result.0 ≡ word_of valid.now.modes names.now }
{
    let mut word = 0;
    for name in names {
        word = with_mode(valid, word, name);
    }
    Modes(word)
}
