//! What all workers share.
ghost use Rattle.std.specs.Prelude.{◌≡◌, ◌≤◌};
ghost use Rattle.seq_words.specs.Knowledge.{told_of};

use seq_inst::Instance;
use seq_table::{Naming, Tables};
use seq_words::Words;

/// The words, the lock round their scribe, and the instance whose groups they hold. N names the words.
#[derive(Drop)]
pub struct Shared<N: Naming> {
    pub words: Words,
    pub tables: Tables<N>,
    pub inst: Instance,
    ghost named: { words ≡ N.words },
    ghost told: { words.told ≡ told_of inst },
}
