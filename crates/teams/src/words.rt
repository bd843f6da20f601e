//! The words of the command line. The system gives bytes, and the program takes texts, so a word that isn't UTF-8 is refused
//! here, as a word that no command has. The program's own name is no word and is never read, whatever its bytes are.
//!
//! The words are asked for one by one, with a buffer that grows until the word fits. What the system gives can't be known, so no
//! clause speaks of it.

use std::alloc::{AllocError, Global};
use std::env::{Env, FillError};

/// Why the words can't be taken.
#[derive(Debug, Drop, PartialEq, Eq)]
pub enum WordsFault {
    /// A word isn't UTF-8.
    NotText,
    /// There is no memory for the words.
    OutOfMemory,
}

impl From<AllocError> for WordsFault {
    fn from(_error: AllocError) -> WordsFault {
        WordsFault::OutOfMemory
    }
}

/// The words after the program's own name.
pub fn words(env: &impl Env, alloc: Global) -> Result<Vec<String>, WordsFault> {
    let mut words = Vec::new(alloc);
    for place in 1..usize::MAX {
        let Some(word) = word_at(env, alloc, place)? else {
            break;
        };
        if words.push(word).is_err() {
            return Err(WordsFault::OutOfMemory);
        }
    }
    Ok(words)
}

/// The word at a place, from 0, where the program's name is, if there is one.
fn word_at(env: &impl Env, alloc: Global, place: usize) -> Result<Option<String>, WordsFault> {
    let mut bytes = vec![in alloc; 0u8; 256]?;
    for _ in 0..usize::BITS {
        match env.arg(place, bytes.as_mut_slice()) {
            Ok(length) => {
                bytes.truncate(length);
                return text_of(bytes).map(Some);
            }
            Err(FillError::NotPresent) => return Ok(None),
            Err(FillError::TooLong) => {
                let longer = bytes.len().saturating_mul(2);
                bytes.resize(longer, 0)?;
            }
        }
    }
    Err(WordsFault::OutOfMemory)
}

fn text_of(bytes: Vec<u8>) -> Result<String, WordsFault> {
    match String::from_utf8(bytes) {
        Ok(text) => Ok(text),
        Err(_) => Err(WordsFault::NotText),
    }
}
