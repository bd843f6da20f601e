//! Huffman's cost of weights in a slice, by two queues (van Leeuwen, "On the construction of Huffman
//! trees", 1976). Huffman's rule takes the two least numbers and puts their sum among the others, again
//! and again; the sums add up to the cost. They come out upwards, since each is of two numbers that are
//! at least those of the sum before. So once the weights are sorted, the weights that are left are one
//! queue and the sums that are left another, and the least number is first in one of them: a merge takes
//! a fixed number of steps, and the sort is the dearest part.
//!
//! Each merge takes two numbers and makes one, so the sums fit in the places of weights that were taken
//! (Moffat and Katajainen, "In-place calculation of minimum-redundancy codes", 1995). No other room is
//! wanted; the weights are given up.
ghost use Rattle.std.specs.Prelude.{◌≡◌, ◌+◌, ◌*◌, ◌^◌, ◌<◌, ◌≤◌, length, take, drop, sum};
ghost use Rattle.seq_theory.specs.Huffman.{upward, merging as merge_cost, huff};
ghost use Rattle.seq_huff.specs.Queues.{TakesLeast};

use crate::sorting::sort_upward;

/// The places of the first weight and of the first sum that are left.
#[derive(Clone, Copy)]
struct Fronts {
    weight: usize,
    sum: usize,
}

/// Takes the least number that is left. The sums stand in the places below `made`. Which queue has it is a
/// matter of chance, so no branch depends on that.
#[inline(always)]
fn take_least(numbers: &[u64], made: usize, fronts: &mut Fronts) -> u64
    requires made { made ≤ length numbers.now }
    requires weights { fronts.old.weight ≤ length numbers.now }
    requires sums { fronts.old.sum ≤ made }
    requires some { fronts.old.weight + fronts.old.sum < length numbers.now + made }
    ensures takes { TakesLeast (drop fronts.old.weight numbers.now) (drop fronts.old.sum (take made numbers.now)) result (drop fronts.new.weight numbers.now) (drop fronts.new.sum (take made numbers.now)) }
    ensures weights { fronts.new.weight ≤ length numbers.now }
    ensures sums { fronts.new.sum ≤ made }
    ensures one { fronts.new.weight + fronts.new.sum ≡ 1 + (fronts.old.weight + fronts.old.sum) }
{
    let Fronts { weight, sum } = *fronts;
    if sum == made {
        fronts.weight = weight + 1;
        return numbers[weight];
    }
    if weight == numbers.len() {
        fronts.sum = sum + 1;
        return numbers[sum];
    }
    let step = usize::from(numbers[weight] <= numbers[sum]);
    fronts.weight = weight + step;
    fronts.sum = sum + (1 - step);
    numbers[weight].min(numbers[sum])
}

/// What merging the two least again and again costs, of numbers in upward order, which are given up.
pub(crate) fn merge_sum(numbers: &mut [u64]) -> u64
    requires up { numbers.old ≡ upward numbers.old }
    requires fits { length numbers.old * sum numbers.old < 2 ^ 64 }
    ensures { result ≡ merge_cost (length numbers.old) numbers.old }
{
    let merges = numbers.len().saturating_sub(1);
    let mut fronts = Fronts { weight: 0, sum: 0 };
    let mut cost = 0;
    for made in 0..merges {
        let least = take_least(numbers, made, &mut fronts);
        let second = take_least(numbers, made, &mut fronts);
        let both = least + second;
        numbers[made] = both;
        cost += both;
    }
    cost
}

/// Huffman's cost of the numbers, which are given up.
pub(crate) fn huffman_of(numbers: &mut [u64]) -> u64
    requires { length numbers.old * sum numbers.old < 2 ^ 64 }
    ensures { result ≡ huff numbers.old }
{
    sort_upward(numbers);
    merge_sum(numbers)
}
