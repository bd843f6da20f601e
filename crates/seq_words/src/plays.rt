//! What each kind of step does to the view of the seat that steps, and what it tells its caller. A step
//! that is of none of these kinds isn't accepted, since nothing shows that the rule holds after it.
use crate::view::View;
use atomic_table::{Join, Play, Split};
use std::marker::{Brand, PhantomData};

/// The group that a scribe begins to write. A call at `Brand` picks it.
pub trait Drafting {
    ghost use Rattle.std.specs.Prelude.{ℕ, List};

    ghost group: { List ℕ };
}

impl Drafting for Brand {
    ghost use Rattle.std.specs.Prelude.{[]};

    ghost group = { [] };
}

/// The first word of a group is stored.
pub struct Begin<D> {
    of: PhantomData<D>,
}

impl<D: Drafting> Play<(), View> for Begin<D> {
    ghost use Rattle.seq_words.specs.Plays.{Begins};

    ghost then = { Begins D.group };
}

/// The next word of it is stored.
pub struct Write;

impl Play<(), View> for Write {
    ghost use Rattle.seq_words.specs.Plays.{Writes};

    ghost then = { Writes };
}

/// The state word is stored: the place is published.
pub struct Publish;

impl Play<(), View> for Publish {
    ghost use Rattle.seq_words.specs.Plays.{Publishes};

    ghost then = { Publishes };
}

/// A state word is loaded.
pub struct Find;

impl Play<(), View> for Find {
    ghost use Rattle.seq_words.specs.Plays.{Finds};

    ghost then = { Finds };
}

/// A word of bits is loaded.
pub struct SeeBits;

impl Play<(), View> for SeeBits {
    ghost use Rattle.seq_words.specs.Plays.{SeesBits};

    ghost then = { SeesBits };
}

/// A low word is raised.
pub struct Raise;

impl Play<(), View> for Raise {
    ghost use Rattle.seq_words.specs.Plays.{Raises};

    ghost then = { Raises };
}

/// An up word is lowered.
pub struct Cap;

impl Play<(), View> for Cap {
    ghost use Rattle.seq_words.specs.Plays.{Caps};

    ghost then = { Caps };
}

/// A low word is loaded.
pub struct SeeLow;

impl Play<(), View> for SeeLow {
    ghost use Rattle.seq_words.specs.Plays.{SeesLow};

    ghost then = { SeesLow };
}

/// An up word is loaded.
pub struct SeeUp;

impl Play<(), View> for SeeUp {
    ghost use Rattle.seq_words.specs.Plays.{SeesUp};

    ghost then = { SeesUp };
}

/// A load of word 0, at which what was heard is put together with what was known. Whether two seats
/// know the same groups is known between steps alone, so a join by itself does not tell it.
pub struct Settle;

impl Play<(), View> for Settle {
    ghost use Rattle.seq_words.specs.Plays.{Settles};

    ghost then = { Settles };
}

/// A copy of a view in the role of a worker, or a view beside which another's knowledge is laid.
pub struct Share;

impl Split<View> for Share {
    ghost use Rattle.seq_words.specs.Plays.{as_worker};

    ghost left = { λ v. v };

    ghost right = { as_worker };
}

impl Join<View> for Share {
    ghost use Rattle.seq_words.specs.Plays.{beside, spent};

    ghost both = { beside };

    ghost spent = { spent };
}
