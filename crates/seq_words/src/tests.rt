//! Two seats at the words of a star of four faults, with room for two groups: what each call answers.
ghost use Rattle.std.specs.Prelude.{◌≡◌, IfOk};
ghost use Rattle.seq_inst.specs.Instances.{problem_of};
ghost use Rattle.seq_words.specs.Rule.{opener};
ghost use Rattle.seq_words.specs.Plays.{as_worker};
ghost use Rattle.seq_words.specs.Seats.{IsOf};
ghost use Rattle.seq_words.specs.Examples.{star as star_problem};

use crate::{
    Made, Scribe, Seat, Seen, Words, close, learn, lower_cap, make_words, publish, raise, see,
};
use seq_inst::{Group, Instance, checked_holds, root};
use std::alloc::{AllocError, Global};
use std::test::Fail;

/// Four faults and a good state of one weight; each fault is seen by a test of its own.
fn star(alloc: Global) -> Result<Instance, AllocError>
    ensures { IfOk result (λ i. problem_of i ≡ star_problem) }
{
    let weights = vec![in alloc; 1, 1, 1, 1, 1]?;
    let costs = vec![in alloc; 1, 1, 1, 1]?;
    let passes = vec![in alloc;
        Group([29, 0, 0, 0, 0, 0, 0, 0]),
        Group([27, 0, 0, 0, 0, 0, 0, 0]),
        Group([23, 0, 0, 0, 0, 0, 0, 0]),
        Group([15, 0, 0, 0, 0, 0, 0, 0]),
    ]?;
    checked_holds();
    Ok(Instance::new(weights, costs, passes))
}

/// Words for two groups, their scribe and two seats.
fn two_seats(alloc: Global, inst: &Instance) -> Result<(Words, Scribe, Seat, Seat), AllocError>
    ensures of { IfOk result (λ m. IsOf m.0 m.1 × IsOf m.0 m.2 × IsOf m.0 m.3) }
    ensures limit { IfOk result (λ m. m.0.limit ≡ 2) }
    ensures views { IfOk result (λ m. (m.1.view ≡ opener inst.now 2) × (m.2.view ≡ as_worker (opener inst.now 2))) }
{
    let made = make_words(alloc, inst, 2, 2)?;
    let Made {
        words,
        scribe,
        mut seats,
    } = made;
    let Some(second) = seats.pop() else {
        unreachable!()
    };
    let Some(first) = seats.pop() else {
        unreachable!()
    };
    Ok((words, scribe, first, second))
}

#[test]
fn two_seats_at_a_star(rt: HostRuntime) -> Result<(), Fail> {
    let alloc = rt.alloc();
    let inst = star(alloc)?;
    let all = Group([31, 0, 0, 0, 0, 0, 0, 0]);
    let passing = Group([29, 0, 0, 0, 0, 0, 0, 0]);
    assert!(rt; root(&inst) == all);
    let into = Vec::with_capacity(alloc, 2)?;
    let (words, mut scribe, first, mut second) = two_seats(alloc, &inst)?;
    publish(&words, &mut scribe, 0, &all);
    let seen = see(&words, &mut second, 1);
    assert_eq!(rt; seen, Seen::Free);
    publish(&words, &mut scribe, 1, &passing);
    let mut first = learn(&words, &mut scribe, first);
    let raised = raise(&words, &mut first, 1, 9);
    assert_eq!(rt; raised, 9);
    let capped = lower_cap(&words, &mut first, 1, 9);
    assert_eq!(rt; capped, 9);
    let seen = see(&words, &mut second, 1);
    assert_eq!(rt;
        seen,
        Seen::There {
            group: passing,
            low: 9,
            up: 9
        }
    );
    let again = raise(&words, &mut first, 1, 5);
    assert_eq!(rt; again, 9);
    let seats = vec![in alloc; first, second]?;
    let closed = close(words, scribe, seats, into);
    let rows = closed.rows();
    assert_eq!(rt; rows.len(), 2);
    assert_eq!(rt;
        (rows[0].group, rows[0].low, rows[0].up),
        (all, 0, u64::MAX)
    );
    assert_eq!(rt; (rows[1].group, rows[1].low, rows[1].up), (passing, 9, 9));
    let rows = closed.into_rows();
    assert_eq!(rt; rows.len(), 2);
    Ok(())
}
