//! C05: whether the low, the gap, the limit and the count of groups go with the cost and the verdict. A
//! low above the cost is named before their difference is taken.
ghost use Rattle.std.specs.Prelude.{◌≡◌, length};
ghost use Rattle.seq_inst.specs.Instances.{problem_of};
ghost use Rattle.seq_check.specs.Looks.{first_bad};
ghost use Rattle.seq_check.specs.Lines.{is_gap, is_count, low_looks, gap_looks, count_looks};

use crate::last::{is_listing, is_low_of_one};
use crate::looking::look;
use seq_cert::{BadCode, BadLine, Report};
use seq_inst::{Instance, Verdict};

/// Whether the gap goes with the verdict.
fn is_gap(verdict: Verdict, gap: u64) -> bool
    ensures { result ≡ is_gap verdict gap }
{
    match verdict {
        Verdict::Optimal => gap == 0,
        Verdict::Bounded => 0 < gap,
    }
}

/// Whether the number of groups goes with the verdict and the limit.
fn is_count(verdict: Verdict, limit: u32, count: usize) -> bool
    ensures { result ≡ is_count verdict limit count }
{
    match verdict {
        Verdict::Optimal => count <= limit as usize,
        Verdict::Bounded => count == limit as usize,
    }
}

/// Whether the line of the low is bad.
#[tactic(auto, unfolding(crate::specs::Lines::low_looks))]
pub fn first_at_low(inst: &Instance, report: &Report) -> Option<BadLine>
    ensures { result ≡ first_bad (low_looks (problem_of inst.now) report.now) }
{
    if report.low > report.cost {
        return look(9, BadCode::C05, false);
    }
    look(9, BadCode::C08, is_low_of_one(inst, report.low))
}

/// Whether the line of the gap is bad.
#[tactic(auto, unfolding(crate::specs::Lines::gap_looks))]
pub fn first_at_gap(report: &Report) -> Option<BadLine>
    ensures { result ≡ first_bad (gap_looks report.now) }
{
    let is_difference = report.gap == report.cost.saturating_sub(report.low);
    look(
        10,
        BadCode::C05,
        is_difference && is_gap(report.verdict, report.gap),
    )
}

/// Whether the line of the count of groups is bad.
#[tactic(auto, unfolding(crate::specs::Lines::count_looks))]
pub fn first_at_count(inst: &Instance, report: &Report) -> Option<BadLine>
    ensures { result ≡ first_bad (count_looks (problem_of inst.now) report.now) }
{
    let count = report.groups.len();
    if !is_count(report.verdict, report.limit, count) {
        return look(12, BadCode::C05, false);
    }
    look(12, BadCode::C08, is_listing(inst, count))
}
