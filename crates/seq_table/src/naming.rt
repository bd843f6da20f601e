//! A name for one set of words, which the type of a lock carries.
use std::marker::Brand;

/// Names one set of words: which words, of which instance, for how many groups. The trait has no
/// calls.
pub trait Naming {
    ghost use Rattle.seq_words.specs.Seats.{Wording};

    ghost words: { Wording };
}

impl Naming for Brand {
    ghost use Rattle.seq_table.specs.Names.{no_words};

    ghost words = { no_words };
}
