//! The form of one word: `--NAME=VALUE`, `--NAME`, a word that is no option, or one that no command line has.
ghost use Rattle.std.specs.Prelude.{◌≡◌, ◌<◌, drop, length, true, false, MatchOption};
ghost use Rattle.teams_words.specs.Words.{goes_on, is_plain, named};
ghost use Rattle.teams_words.specs.Read.{HasForm};

/// The options, each by its name.
#[derive(Clone, Copy, Debug, PartialEq, Eq)]
pub enum OptionName {
    Cert,
    Workers,
    Groups,
    Mode,
    Log,
}

/// The form of a word.
#[derive(Clone, Copy)]
pub enum Word<'a> {
    /// `--NAME=VALUE`, where the value isn't empty.
    Valued { name: OptionName, value: &'a str },
    /// `--NAME`, which takes the next word.
    Named { name: OptionName },
    /// A word that is no option.
    Plain,
    /// The empty word, or any other that begins with `-`.
    Refused,
}

/// Whether the word is no option: it isn't empty and doesn't begin with `-`.
pub fn is_plain(word: &str) -> bool
    ensures { result ≡ is_plain word.now }
{
    !word.is_empty() && word.as_bytes()[0] != b'-'
}

/// What follows in a word that begins so, where something does.
fn rest_after<'a>(word: &'a str, start: &str) -> Option<&'a str>
    ensures { MatchOption result (goes_on start.now word.entry.now ≡ false) (λ rest. (goes_on start.now word.entry.now ≡ true) × (rest.now ≡ drop (length start.now) word.entry.now)) }
{
    match word.strip_prefix(start) {
        Some("") => None,
        Some(rest) => Some(rest),
        None => None,
    }
}

/// The option in `--NAME`.
fn named(word: &str) -> Option<OptionName>
    ensures { result ≡ named word.now }
{
    match word {
        "--cert" => Some(OptionName::Cert),
        "--workers" => Some(OptionName::Workers),
        "--groups" => Some(OptionName::Groups),
        "--mode" => Some(OptionName::Mode),
        "--log" => Some(OptionName::Log),
        _ => None,
    }
}

/// The form of the word.
pub fn word_of(word: &str) -> Word<'_>
    ensures { HasForm word.entry.now result }
{
    if let Some(value) = rest_after(word, "--cert=") {
        return Word::Valued {
            name: OptionName::Cert,
            value,
        };
    }
    if let Some(value) = rest_after(word, "--workers=") {
        return Word::Valued {
            name: OptionName::Workers,
            value,
        };
    }
    if let Some(value) = rest_after(word, "--groups=") {
        return Word::Valued {
            name: OptionName::Groups,
            value,
        };
    }
    if let Some(value) = rest_after(word, "--mode=") {
        return Word::Valued {
            name: OptionName::Mode,
            value,
        };
    }
    if let Some(value) = rest_after(word, "--log=") {
        return Word::Valued {
            name: OptionName::Log,
            value,
        };
    }
    match named(word) {
        Some(name) => Word::Named { name },
        None => {
            if is_plain(word) {
                Word::Plain
            } else {
                Word::Refused
            }
        }
    }
}
