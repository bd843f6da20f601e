//! The words as lists, read from left to right: the values of each option, and the other words.
ghost use Rattle.std.specs.Prelude.{◌≡◌, None, map, string_bytes, IfOk, OnOk};
ghost use Rattle.teams_words.specs.Words.{joined, value_part, other_part, parts_in};
ghost use Rattle.teams_words.specs.Read.{parts_of, Reads, ArePartsOf};

use crate::word::{OptionName, Word, is_plain, word_of};
use std::alloc::{AllocError, Global};

/// The values of each option, and the other words, each list in the order of the words.
#[derive(Debug, Drop)]
pub struct Parts<'a> {
    pub cert: Vec<&'a str>,
    pub workers: Vec<&'a str>,
    pub groups: Vec<&'a str>,
    pub mode: Vec<&'a str>,
    pub log: Vec<&'a str>,
    pub others: Vec<&'a str>,
}

impl<'a> Parts<'a> {
    fn add_value(&mut self, name: OptionName, value: &'a str) -> Result<(), AllocError>
        ensures { OnOk result (parts_of self.new ≡ joined (parts_of self.old) (value_part name value.entry.now)) }
    {
        match name {
            OptionName::Cert => self.cert.push(value)?,
            OptionName::Workers => self.workers.push(value)?,
            OptionName::Groups => self.groups.push(value)?,
            OptionName::Mode => self.mode.push(value)?,
            OptionName::Log => self.log.push(value)?,
        }
        Ok(())
    }

    fn add_other(&mut self, word: &'a str) -> Result<(), AllocError>
        ensures { OnOk result (parts_of self.new ≡ joined (parts_of self.old) (other_part word.entry.now)) }
    {
        self.others.push(word)?;
        Ok(())
    }
}

/// What was read, and the option that waits for its value.
#[derive(Debug, Drop)]
struct Reader<'a> {
    parts: Parts<'a>,
    waits: Option<OptionName>,
}

impl<'a> Reader<'a> {
    /// Takes one word more; false where the words before it don't allow it.
    #[tactic(auto, using(crate::proofs::Joined::with_more))]
    fn read(&mut self, word: &'a str) -> Result<bool, AllocError>
        ensures { IfOk result (Reads word.entry.now self.old self.new) }
    {
        if let Some(name) = self.waits {
            if !is_plain(word) {
                return Ok(false);
            }
            self.parts.add_value(name, word)?;
            self.waits = None;
            return Ok(true);
        }
        match word_of(word) {
            Word::Valued { name, value } => self.parts.add_value(name, value)?,
            Word::Named { name } => self.waits = Some(name),
            Word::Plain => self.parts.add_other(word)?,
            Word::Refused => return Ok(false),
        }
        Ok(true)
    }
}

/// The lists of the words; None where some word has no form that a command line allows at its place.
pub fn read_parts<'a>(alloc: Global, words: &'a [String]) -> Result<Option<Parts<'a>>, AllocError>
    ensures { IfOk result (ArePartsOf (parts_in (map string_bytes words.entry.now))) }
{
    let mut reader = Reader {
        parts: Parts {
            cert: Vec::new(alloc),
            workers: Vec::new(alloc),
            groups: Vec::new(alloc),
            mode: Vec::new(alloc),
            log: Vec::new(alloc),
            others: Vec::new(alloc),
        },
        waits: None,
    };
    for word in words {
        if !reader.read(word.as_str())? {
            return Ok(None);
        }
    }
    match reader.waits {
        Some(_) => Ok(None),
        None => Ok(Some(reader.parts)),
    }
}
