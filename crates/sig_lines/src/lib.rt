//! Lines of words. Every text that the program prints is lines, each of words with one space between:
//! `Lines` writes them, and the readers take a text apart again. Numbers stand as decimal words without
//! leading zeros, groups of classes as one word in hexadecimal, each read exactly as it is written;
//! `lines_hold` says so. `Labels` says what the states and tests are called.
#![tactic(auto)]

mod ascii;
mod hex;
mod hex_reader;
mod labels;
mod laws;
mod line_end;
mod lines;
mod number;
mod pieces;
mod reader;

pub use ascii::ascii_text;
pub use hex_reader::{hex_of, words_in_hex};
pub use labels::{Labels, StateLabel, TestLabel};
pub use laws::lines_hold;
pub use line_end::next_line;
pub use lines::Lines;
pub use number::{number_between, number_of};
pub use pieces::{cut, first_word, four_words, is_text, one_word, three_words, two_words};
pub use reader::{LineReader, line_of};

#[cfg(test)]
mod tests;
