//! A text that grows word by word and line by line, in one list of bytes. Contracts see its bytes and
//! whether its last line has begun; `with_lines` says what a writer of whole lines appends, and what it
//! says is what its calls say one after another. A call that runs out of memory leaves the text as it was.
ghost use Rattle.std.specs.Prelude.{◌≡◌, List, map, decimal, OnOk, OnErr};
ghost use Rattle.sig_lines.specs.Hex.{hex, number_of_words};
ghost use Rattle.sig_lines.specs.Pieces.{Words, number_words, bytes_of};
ghost use Rattle.sig_lines.specs.Written.{nothing_written, with_word, with_end, with_line, with_lines};

use crate::hex::hex_word;
use itoa::Buffer;
use std::alloc::{AllocError, Global};
use std::marker::Model;

/// Lines of words: one space stands between words, and LF ends each line.
#[derive(Debug, Drop)]
pub struct Lines {
    text: Vec<u8>,
    begun: bool,
}

impl Model for Lines {
    ghost use Rattle.sig_lines.specs.Written.{Written};

    ghost Value = { Written };

    ghost view = { λ l. record { text = l.text.items; begun = l.begun } };
}

impl Lines {
    /// An empty text. Takes no memory.
    pub fn new(alloc: Global) -> Lines
        ensures { result ≡ nothing_written }
    {
        Lines {
            text: Vec::new(alloc),
            begun: false,
        }
    }

    /// Appends bytes as one word, after one space unless the line is empty.
    #[tactic(auto, unfolding(crate::specs::Written::with_word))]
    fn append(&mut self, word: &[u8]) -> Result<(), AllocError>
        ensures ok { OnOk result (self.new ≡ with_word self.old word.now) }
        ensures err { OnErr result (self.new ≡ self.old) }
    {
        self.text.try_reserve(word.len() + 1)?;
        if self.begun {
            self.text.push(b' ').unwrap();
        }
        self.text.extend_from_slice(word).unwrap();
        self.begun = true;
        Ok(())
    }

    /// Appends a word, after one space unless the line is empty.
    pub fn word(&mut self, word: &str) -> Result<(), AllocError>
        ensures ok { OnOk result (self.new ≡ with_word self.old word.now) }
        ensures err { OnErr result (self.new ≡ self.old) }
    {
        self.append(word.as_bytes())
    }

    /// Appends a number in decimal as one word.
    pub fn number(&mut self, n: u64) -> Result<(), AllocError>
        ensures ok { OnOk result (self.new ≡ with_word self.old (decimal n)) }
        ensures err { OnErr result (self.new ≡ self.old) }
    {
        let mut buffer = Buffer::new();
        self.append(buffer.format(n).as_bytes())
    }

    /// Appends a number of eight words, the lowest first, in hexadecimal as one word.
    pub fn hex(&mut self, bits: &[u64; 8]) -> Result<(), AllocError>
        ensures ok { OnOk result (self.new ≡ with_word self.old (hex (number_of_words bits.now))) }
        ensures err { OnErr result (self.new ≡ self.old) }
    {
        self.append(hex_word(bits).as_slice())
    }

    /// Ends the line.
    #[tactic(auto, unfolding(crate::specs::Written::with_end))]
    pub fn end_line(&mut self) -> Result<(), AllocError>
        ensures ok { OnOk result (self.new ≡ with_end self.old) }
        ensures err { OnErr result (self.new ≡ self.old) }
    {
        self.text.push(b'\n')?;
        self.begun = false;
        Ok(())
    }

    /// Writes a line of these words. Where memory runs out, the first of them may be written.
    pub fn line(&mut self, words: &[&str]) -> Result<(), AllocError>
        ensures { OnOk result (self.new ≡ with_line self.old (map (λ word. word.now) words.now)) }
    {
        for word in words {
            self.word(*word)?;
        }
        self.end_line()
    }

    /// Writes a line of a key and a number. Where memory runs out, the key may be written.
    pub fn number_line(&mut self, key: &str, n: u64) -> Result<(), AllocError>
        ensures { OnOk result (self.new ≡ with_line self.old (number_words key.now n)) }
    {
        self.word(key)?;
        self.number(n)?;
        self.end_line()
    }

    /// The bytes. Takes no memory.
    pub fn into_bytes(self) -> Vec<u8>
        ensures bytes { result.items ≡ self.text }
        // Of lines that were written from the start on, the bytes of these lines.
        ensures lines { (lines : List Words) → self ≡ with_lines nothing_written lines → result.items ≡ bytes_of lines }
    {
        let Lines { text, begun: _ } = self;
        text
    }
}
