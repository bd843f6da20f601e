//! A row of a matrix, in four words: test t is bit t % 64 of word t / 64.

ghost use Rattle.std.specs.Prelude.{◌≡◌, ◌<◌};
ghost use Rattle.sig_matrix.specs.Detection.{in_row};
ghost use Rattle.sig_matrix.specs.Filling.{IsSetIn};

/// Whether the row has the test's bit.
pub fn has_test(row: [u64; 4], test: u32) -> bool
    requires { test < 256 }
    ensures { result ≡ in_row row test }
{
    (row[(test / 64) as usize] >> (test % 64)) & 1 == 1
}

/// The row with the test's bit.
pub fn with_test(row: [u64; 4], test: u32) -> [u64; 4]
    requires { test < 256 }
    ensures { IsSetIn test row result }
{
    let mut new = row;
    new[(test / 64) as usize] |= 1 << (test % 64);
    new
}
