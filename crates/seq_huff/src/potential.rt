//! A lower bound of Huffman's cost that asks only for sums. Each merge of Huffman's rule replaces two
//! weights by their sum; a potential of weights that grows by at most this sum with each merge is, at the
//! sum of all weights, at most the sum of the potentials and Huffman's cost together. The weight times its
//! logarithm is such a potential, and Huffman's cost then is at least the entropy (Shannon, "A
//! mathematical theory of communication", 1948). Here stands one in whole numbers, made of tangents of it,
//! so that nothing is rounded. Bad lines would make it less sharp and never wrong.
ghost use Rattle.std.specs.Prelude.{◌≡◌, ◌+◌, ◌*◌, ◌^◌, ◌<◌, ◌≤◌};
ghost use Rattle.seq_huff.specs.Potential.{potential, line_at, most_at, most_in, AreFlat};

/// A line over weights: so much for each unit of weight, less a fixed amount, in its first octave.
#[derive(Clone, Copy)]
pub(crate) struct Line {
    pub(crate) slope: u64,
    pub(crate) less: u64,
}

/// What 1 is in the slopes.
pub(crate) const UNIT: u64 = 1_048_576;

/// The tangents of the weight times its logarithm in the middle of each sixteenth of an octave.
const LINES: [Line; 16] = [
    Line {
        slope: 510_750,
        less: 780_025,
    },
    Line {
        slope: 599_762,
        less: 827_300,
    },
    Line {
        slope: 683_827,
        less: 874_574,
    },
    Line {
        slope: 763_465,
        less: 921_848,
    },
    Line {
        slope: 839_119,
        less: 969_122,
    },
    Line {
        slope: 911_170,
        less: 1_016_396,
    },
    Line {
        slope: 979_944,
        less: 1_063_671,
    },
    Line {
        slope: 1_045_727,
        less: 1_110_945,
    },
    Line {
        slope: 1_108_769,
        less: 1_158_219,
    },
    Line {
        slope: 1_169_288,
        less: 1_205_493,
    },
    Line {
        slope: 1_227_479,
        less: 1_252_768,
    },
    Line {
        slope: 1_283_514,
        less: 1_300_042,
    },
    Line {
        slope: 1_337_547,
        less: 1_347_316,
    },
    Line {
        slope: 1_389_717,
        less: 1_394_590,
    },
    Line {
        slope: 1_440_148,
        less: 1_441_865,
    },
    Line {
        slope: 1_488_951,
        less: 1_489_139,
    },
];

/// What the line says of the weight, in an octave.
fn value_at(line: &Line, octave: u32, weight: u64) -> u64
    requires slope { line.now.slope < 2 ^ 24 }
    requires less { line.now.less < 2 ^ 22 }
    requires octave { octave < 40 }
    requires weight { weight < 2 ^ 32 }
    ensures { result ≡ line_at line.now octave weight }
{
    let slope = line.slope + u64::from(octave) * UNIT;
    let less = line.less << octave;
    (slope * weight).saturating_sub(less)
}

/// The most that the lines say of the weight, in an octave.
fn most_value_at(lines: &[Line], octave: u32, weight: u64) -> u64
    requires lines { AreFlat lines.now }
    requires octave { octave < 40 }
    requires weight { weight < 2 ^ 32 }
    ensures { result ≡ most_at lines.now octave weight }
{
    match lines {
        [] => 0,
        [line, rest @ ..] => value_at(line, octave, weight).max(most_value_at(
            rest, octave, weight,
        )),
    }
}

/// The most that the lines say of the weight, in one of the first so many octaves.
fn most_value_in(lines: &[Line], octaves: u32, weight: u64) -> u64
    requires lines { AreFlat lines.now }
    requires octaves { octaves ≤ 40 }
    requires weight { weight < 2 ^ 32 }
    ensures { result ≡ most_in lines.now octaves weight }
{
    if octaves == 0 {
        0
    } else {
        most_value_at(lines, octaves - 1, weight).max(most_value_in(lines, octaves - 1, weight))
    }
}

/// The potential of a weight: the most that any line says of it. It asks each line in each octave, so it
/// is worked out once for each class.
pub(crate) fn potential_of(weight: u64) -> u64
    requires { weight < 2 ^ 32 }
    ensures { result ≡ potential weight }
{
    most_value_in(&LINES, 33, weight)
}

/// At most the potential of the weight, and nearly that: what one line says of it, that of its octave and
/// of the sixteenth of the octave in which it lies.
pub(crate) fn nearly_potential(weight: u64) -> u64
    requires some { 1 ≤ weight }
    requires light { weight < 2 ^ 32 }
    ensures { result ≤ potential weight }
{
    let top = weight.ilog2();
    let sixteenth = ((weight << 4) >> top) % 16;
    value_at(&LINES[sixteenth as usize], top + 1, weight)
}
