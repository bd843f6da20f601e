//! Where files are read from. What a shelf holds is told only where something can be known of it: a shelf in memory tells its
//! files, a file system tells nothing. Either way a fault or a file that isn't there shows in a count, and no count falls.

ghost use Rattle.std.specs.Prelude.{◌≡◌, ◌≤◌, ℕ, length, IfOk};
ghost use Rattle.sig_edge.specs.Shelf.{Holds, ReadsAt, HasShelfCause};

/// Why a read gave nothing.
#[derive(Clone, Copy, Debug, PartialEq, Eq)]
pub enum ShelfFault {
    /// There is no file of this name.
    Missing,
    /// The shelf couldn't read.
    Failed,
}

/// Files by their names.
pub trait Shelf {
    /// What is held under each name, where the shelf tells it.
    ghost holds: { Self → Holds };

    /// How many faults there were, up to its type's end.
    ghost faults: { Self → ℕ };

    /// How many reads asked for a name that isn't held, up to its type's end.
    ghost misses: { Self → ℕ };

    /// Reads bytes of the file from byte `at` on to the front of `into`, and says how many. 0 bytes for a buffer that isn't
    /// empty is the end of the file.
    fn read_at(&mut self, name: &str, at: u64, into: &mut [u8]) -> Result<usize, ShelfFault>
        ensures bound { IfOk result (λ n. n ≤ length into.new) }
        ensures bytes { ReadsAt (holds self.old) name.now at into.new result }
        ensures same { holds self.new ≡ holds self.old }
        ensures cause { HasShelfCause (faults self.old) (faults self.new) (misses self.old) (misses self.new) result };
}
