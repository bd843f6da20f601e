//! What the rows allow: to what a group's low may be raised, and to what its up may be capped. A part that
//! has a row counts by its row, any other by its bound, and has no up. Both numbers are the least of sums
//! over the group's tests.
ghost use Rattle.std.specs.Prelude.{◌≡◌, ◌<◌, ◌≤◌, length, vec_len};
ghost use Rattle.seq_theory.specs.Problem.{weight_of as weight_sum};
ghost use Rattle.seq_theory.specs.Rows.{known_low as known_low_of, known_up as known_up_of};
ghost use Rattle.seq_inst.specs.Members.{members};
ghost use Rattle.seq_inst.specs.Instances.{problem_of, IsGroupOf};
ghost use Rattle.seq_huff.specs.Bounds.{greatest_cost};
ghost use Rattle.seq_core.specs.RowsOf.{rows_of, AreFit};
ghost use Rattle.seq_core.specs.Sums.{low_sum, up_sum, capped_value, lesser};
ghost use Rattle.seq_core.specs.Allowed.{IsMostLow, IsLeastUp};

use crate::machine::Core;
use seq_huff::{Scratch, bound, greedy_cost};
use seq_inst::{Group, Instance, is_leaf, parts_of, splits, weight_of};

/// The lesser of an earlier number, if there is one, and a new one.
fn lesser_of(earlier: Option<u64>, number: u64) -> u64
    ensures { result ≡ lesser earlier number }
{
    match earlier {
        None => number,
        Some(least) => least.min(number),
    }
}

impl Core {
    /// What a part counts for a low: 0 for one goal, the larger of its row's low and its bound, and the
    /// bound where it has no row.
    fn known_low(&self, scratch: &mut Scratch, inst: &Instance, group: &Group) -> u64
        requires fit { AreFit (problem_of inst.now) (rows_of self.now.rows) }
        requires within { IsGroupOf inst.now group.now }
        ensures value { result ≡ known_low_of (problem_of inst.now) (rows_of self.now.rows) (members group.now) }
        ensures fits { result ≤ greatest_cost }
    {
        if is_leaf(inst, group) {
            return 0;
        }
        let least = bound(scratch, inst, group);
        match self.index.find(group) {
            Some(place) => self.rows[place as usize].low.max(least),
            None => least,
        }
    }

    /// What a part counts for an up: 0 for one goal, and the up of a row that has one.
    fn known_up(&self, inst: &Instance, group: &Group) -> Option<u64>
        ensures { result ≡ known_up_of (problem_of inst.now) (rows_of self.now.rows) (members group.now) }
    {
        if is_leaf(inst, group) {
            return Some(0);
        }
        match self.index.find(group) {
            Some(place) => {
                let up = self.rows[place as usize].up;
                if up == u64::MAX { None } else { Some(up) }
            }
            None => None,
        }
    }

    /// The sum of a test over the group, of which the weight is known, and what its parts count for a
    /// low.
    fn low_sum(
        &self,
        scratch: &mut Scratch,
        inst: &Instance,
        group: &Group,
        test: u32,
        weight: u64,
    ) -> u64
        requires fit { AreFit (problem_of inst.now) (rows_of self.now.rows) }
        requires within { IsGroupOf inst.now group.now }
        requires there { test < vec_len inst.now.costs }
        requires weight { weight ≡ weight_sum (problem_of inst.now) (members group.now) }
        ensures { result ≡ low_sum (problem_of inst.now) self.now.rows (members group.now) test }
    {
        let parts = parts_of(inst, group, test);
        let pass = self.known_low(scratch, inst, &parts.pass);
        let fail = self.known_low(scratch, inst, &parts.fail);
        u64::from(inst.costs[test as usize]) * weight + (pass + fail)
    }

    /// The sum of a test over the group, of which the weight is known, and what its parts count for an
    /// up, where both have one. A sum past the greatest word is that word.
    fn up_sum(&self, inst: &Instance, group: &Group, test: u32, weight: u64) -> Option<u64>
        requires within { IsGroupOf inst.now group.now }
        requires there { test < vec_len inst.now.costs }
        requires weight { weight ≡ weight_sum (problem_of inst.now) (members group.now) }
        ensures { result ≡ capped_value (up_sum (problem_of inst.now) self.now.rows (members group.now) test) }
    {
        let parts = parts_of(inst, group, test);
        let pass = self.known_up(inst, &parts.pass)?;
        let fail = self.known_up(inst, &parts.fail)?;
        let first = u64::from(inst.costs[test as usize]) * weight;
        Some(first.saturating_add(pass).saturating_add(fail))
    }

    /// The most to which the row at the place may be raised: the larger of its group's bound and the least
    /// sum of a splitting test.
    pub(crate) fn most_low(&self, scratch: &mut Scratch, inst: &Instance, place: u32) -> u64
        requires fit { AreFit (problem_of inst.now) (rows_of self.now.rows) }
        requires there { place < length self.now.rows }
        ensures { IsMostLow (problem_of inst.now) self.now.rows place result }
    {
        let group = self.rows[place as usize].group;
        let weight = weight_of(inst, &group);
        let tests = inst.costs.len() as u32;
        let mut least = None;
        for test in 0..tests {
            if splits(inst, &group, test) {
                let sum = self.low_sum(scratch, inst, &group, test, weight);
                least = Some(lesser_of(least, sum));
            }
        }
        bound(scratch, inst, &group).max(least.unwrap_or(0))
    }

    /// The least to which the row at the place may be capped: the least of greedy's cost and the sums of
    /// ups of splitting tests.
    pub(crate) fn least_up(&self, scratch: &mut Scratch, inst: &Instance, place: u32) -> u64
        requires fit { AreFit (problem_of inst.now) (rows_of self.now.rows) }
        requires there { place < length self.now.rows }
        ensures { IsLeastUp (problem_of inst.now) self.now.rows place result }
    {
        let group = self.rows[place as usize].group;
        let weight = weight_of(inst, &group);
        let tests = inst.costs.len() as u32;
        let greedy = greedy_cost(scratch, inst, &group);
        let mut least = greedy;
        for test in 0..tests {
            if splits(inst, &group, test) {
                least = lesser_of(self.up_sum(inst, &group, test, weight), least);
            }
        }
        least
    }
}
