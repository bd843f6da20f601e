//! Numbers on a command line: one to five decimal digits, where leading zeros are allowed.
ghost use Rattle.std.specs.Prelude.{◌≡◌, ◌≤◌, min, true, false, MatchOption, IfSome};
ghost use Rattle.std.specs.List.{list_all};
ghost use Rattle.std.specs.Char.{is_ascii_digit};
ghost use Rattle.teams_words.specs.Plans.{is_number, value_after, value_of};

/// The value of decimal digits, or 100,000 where it is greater.
fn value_of(digits: &[u8]) -> u32
    ensures { result ≡ min (value_after 0 digits.now) 100000 }
{
    let mut value = 0;
    for digit in digits {
        value = (value * 10 + u32::from(digit.saturating_sub(b'0'))).min(100_000);
    }
    value
}

fn are_digits(word: &[u8]) -> bool
    ensures { result ≡ list_all is_ascii_digit word.now }
{
    word.iter().all(|byte| byte.is_ascii_digit())
}

/// The number that the word says, where it is one and lies between `low` and `high`.
pub fn number_in(word: &str, low: u32, high: u32) -> Option<u32>
    requires { high ≤ 99999 }
    ensures value { MatchOption result (is_number low high word.now ≡ false) (λ n. (is_number low high word.now ≡ true) × (n ≡ value_of word.now)) }
    ensures within { IfSome result (λ n. (low ≤ n) × (n ≤ high)) }
{
    if word.is_empty() || word.len() > 5 || !are_digits(word.as_bytes()) {
        return None;
    }
    let value = value_of(word.as_bytes());
    if value >= low && value <= high {
        Some(value)
    } else {
        None
    }
}
