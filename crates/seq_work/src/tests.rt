//! Entering by one seat, and searches by one worker and by two. The gates wait by loads of flags, so that the tests end
//! whatever the schedule.
ghost use Rattle.std.specs.Prelude.{◌≡◌, IfOk};
ghost use Rattle.seq_inst.specs.Instances.{problem_of};
ghost use Rattle.seq_work.specs.Examples.{star as star_problem};
ghost use Rattle.seq_work.specs.Prepares.{IsPrepared};

use crate::{Ended, Prepared, WorkEnd, prepare, search};
use seq_inst::{Group, Instance, checked_holds};
use seq_table::{Entered, Naming, Tables};
use seq_words::{Seen, see};
use sig_edge::{FreeGate, Gate};
use std::alloc::{AllocError, Global};
use std::marker::Brand;
use std::sync::Wait;
use std::sync::atomic::{AtomicU64, Ordering};
use std::test::Fail;

/// Four faults and a good state of one weight; each fault is seen by a test of its own.
fn star(alloc: Global) -> Result<Instance, AllocError>
    ensures { IfOk result (λ i. problem_of i ≡ star_problem) }
{
    let weights = vec![in alloc; 1, 1, 1, 1, 1]?;
    let costs = vec![in alloc; 1, 1, 1, 1]?;
    let passes = vec![in alloc;
        Group([29, 0, 0, 0, 0, 0, 0, 0]),
        Group([27, 0, 0, 0, 0, 0, 0, 0]),
        Group([23, 0, 0, 0, 0, 0, 0, 0]),
        Group([15, 0, 0, 0, 0, 0, 0, 0]),
    ]?;
    checked_holds();
    Ok(Instance::new(weights, costs, passes))
}

/// Eight faults of one weight and no good state. Test 0 tells the first four from the last four; each
/// fault is seen by a test of its own, too.
fn two_halves(alloc: Global) -> Result<Instance, AllocError> {
    let weights = vec![in alloc; 1, 1, 1, 1, 1, 1, 1, 1]?;
    let costs = vec![in alloc; 1, 1, 1, 1, 1, 1, 1, 1, 1]?;
    let passes = vec![in alloc;
        Group([15, 0, 0, 0, 0, 0, 0, 0]),
        Group([254, 0, 0, 0, 0, 0, 0, 0]),
        Group([253, 0, 0, 0, 0, 0, 0, 0]),
        Group([251, 0, 0, 0, 0, 0, 0, 0]),
        Group([247, 0, 0, 0, 0, 0, 0, 0]),
        Group([239, 0, 0, 0, 0, 0, 0, 0]),
        Group([223, 0, 0, 0, 0, 0, 0, 0]),
        Group([191, 0, 0, 0, 0, 0, 0, 0]),
        Group([127, 0, 0, 0, 0, 0, 0, 0]),
    ]?;
    checked_holds();
    Ok(Instance::new(weights, costs, passes))
}

/// What one seat is told of the group of all classes, of a part of it twice, and of another part; and what it then
/// sees at place 1.
fn enters<N: Naming + Send + Sync, R: Wait>(rt: &R, prepared: Prepared) -> ([Entered; 4], Seen)
    requires named { prepared.words ≡ N.words }
    requires prepared { IsPrepared prepared }
    requires star { problem_of prepared.inst ≡ star_problem }
    requires limit { prepared.limit ≡ 2 }
{
    let Prepared {
        words,
        scribe,
        index,
        inst: _,
        limit: _,
        mut seats,
        locals: _,
        into: _,
    } = prepared;
    let tables = Tables::<N>::new(scribe, index);
    let Some(mut seat) = seats.pop() else {
        unreachable!()
    };
    let all = Group([31, 0, 0, 0, 0, 0, 0, 0]);
    let one = Group([29, 0, 0, 0, 0, 0, 0, 0]);
    let other = Group([27, 0, 0, 0, 0, 0, 0, 0]);
    let root = tables.enter_at(rt, &words, &mut seat, &all);
    let first = tables.enter_at(rt, &words, &mut seat, &one);
    let again = tables.enter_at(rt, &words, &mut seat, &one);
    let late = tables.enter_at(rt, &words, &mut seat, &other);
    ([root, first, again, late], see(&words, &mut seat, 1))
}

/// The same, where the words have a name.
fn enters_named<R: Wait>(rt: &R, prepared: Prepared) -> ([Entered; 4], Seen)
    requires prepared { IsPrepared prepared }
    requires star { problem_of prepared.inst ≡ star_problem }
    requires limit { prepared.limit ≡ 2 }
{
    enters::<Brand, R>(rt, prepared)
}

#[test]
fn a_group_has_one_place(rt: HostRuntime) -> Result<(), Fail> {
    let inst = star(rt.alloc())?;
    let prepared = prepare(rt.alloc(), &inst, 2, 1)?;
    let (entered, seen) = enters_named(&rt, prepared);
    assert_eq!(rt; entered[0], Entered::At { place: 0 });
    assert_eq!(rt; entered[1], Entered::At { place: 1 });
    assert_eq!(rt; entered[2], Entered::At { place: 1 });
    assert_eq!(rt; entered[3], Entered::Full { drawn: 2 });
    assert_eq!(rt;
        seen,
        Seen::There {
            group: Group([29, 0, 0, 0, 0, 0, 0, 0]),
            low: 0,
            up: u64::MAX
        }
    );
    Ok(())
}

#[test]
fn one_worker_meets_the_limit(rt: HostRuntime) -> Result<(), Fail> {
    let inst = star(rt.alloc())?;
    let prepared = prepare(rt.alloc(), &inst, 2, 1)?;
    let ended = search(&rt, prepared, &FreeGate);
    let rows = ended.closed.rows();
    assert_eq!(rt; rows.len(), 2);
    assert_eq!(rt; (rows[0].low, rows[0].up), (13, 14));
    assert_eq!(rt; rows[1].group, Group([29, 0, 0, 0, 0, 0, 0, 0]));
    assert_eq!(rt; (rows[1].low, rows[1].up), (9, 9));
    assert!(rt; ended.missed == Some(Group([27, 0, 0, 0, 0, 0, 0, 0])));
    assert!(rt; matches!(ended.ends[0], Some(WorkEnd::Full { .. })));
    assert!(rt; matches!(ended.ends[1], None));
    Ok(())
}

/// Holds the first turn of each of two workers until the other's has begun, and notes the greatest number of a turn.
#[derive(Drop)]
struct Meeting {
    begun: [AtomicU64; 2],
    failed: AtomicU64,
    most: AtomicU64,
}

impl Gate for Meeting {
    fn turn(&self, worker: u32, turn: u64) {
        self.most.fetch_max(turn, Ordering::SeqCst);
        if turn != 0 || worker > 1 {
            return;
        }
        let me = worker as usize;
        self.begun[me].store(1, Ordering::SeqCst);
        for _ in 0..200_000_000u64 {
            if self.begun[1 - me].load(Ordering::SeqCst) == 1 {
                return;
            }
        }
        self.failed.store(1, Ordering::SeqCst);
    }
}

#[test]
fn two_at_once(rt: HostRuntime) -> Result<(), Fail> {
    let gate = Meeting {
        begun: [AtomicU64::new(0), AtomicU64::new(0)],
        failed: AtomicU64::new(0),
        most: AtomicU64::new(0),
    };
    let inst = star(rt.alloc())?;
    let prepared = prepare(rt.alloc(), &inst, 5, 2)?;
    let ended = search(&rt, prepared, &gate);
    assert!(rt; gate.begun[0].load(Ordering::SeqCst) == 1);
    assert!(rt; gate.begun[1].load(Ordering::SeqCst) == 1);
    assert!(rt; gate.failed.load(Ordering::SeqCst) == 0);
    // A turn enters a group or closes one, of five.
    assert!(rt; gate.most.load(Ordering::SeqCst) <= 10);
    assert!(rt; ended.missed.is_none());
    let rows = ended.closed.rows();
    assert_eq!(rt; rows.len(), 5);
    assert_eq!(rt; (rows[0].low, rows[0].up), (14, 14));
    Ok(())
}

/// Holds the first turn of worker 0 until the second turn of worker 1 has begun.
#[derive(Drop)]
struct Second {
    begun: AtomicU64,
    failed: AtomicU64,
}

impl Gate for Second {
    fn turn(&self, worker: u32, turn: u64) {
        if worker == 1 && turn == 1 {
            self.begun.store(1, Ordering::SeqCst);
        }
        if worker == 0 && turn == 0 {
            for _ in 0..200_000_000u64 {
                if self.begun.load(Ordering::SeqCst) == 1 {
                    return;
                }
            }
            self.failed.store(1, Ordering::SeqCst);
        }
    }
}

/// Worker 1 looks at the failing part first, and takes the last place for it.
#[test]
fn what_a_worker_finds_stands_in_the_rows(rt: HostRuntime) -> Result<(), Fail> {
    let gate = Second {
        begun: AtomicU64::new(0),
        failed: AtomicU64::new(0),
    };
    let inst = two_halves(rt.alloc())?;
    let prepared = prepare(rt.alloc(), &inst, 2, 2)?;
    let Ended {
        closed,
        missed,
        ends: _,
        graph: _,
    } = search(&rt, prepared, &gate);
    assert!(rt; gate.failed.load(Ordering::SeqCst) == 0);
    assert!(rt; missed == Some(Group([15, 0, 0, 0, 0, 0, 0, 0])));
    let rows = closed.into_rows();
    assert_eq!(rt; rows.len(), 2);
    assert_eq!(rt; rows[1].group, Group([240, 0, 0, 0, 0, 0, 0, 0]));
    assert_eq!(rt; (rows[1].low, rows[1].up), (9, 9));
    Ok(())
}
