//! The events of the core on worked rows, and the lows and values of its rows.
ghost use Rattle.std.specs.Prelude.{◌≡◌, IfOk};
ghost use Rattle.seq_inst.specs.Instances.{problem_of};
ghost use Rattle.seq_core.specs.Examples.{two_faults as two_faults_problem, star as star_problem};

use crate::{Core, Event, Illegal, Places, lows, vals};
use seq_huff::Scratch;
use seq_inst::{Answer, Group, Instance, checked_holds, part, root};
use std::alloc::{AllocError, Global};
use std::test::Fail;

/// Two faults and a good state; test 0 costs 2 and fails for class 1, test 1 costs 1 and fails for
/// class 2.
fn two_faults(alloc: Global) -> Result<Instance, AllocError>
    ensures { IfOk result (λ i. problem_of i ≡ two_faults_problem) }
{
    let weights = vec![in alloc; 6, 3, 1]?;
    let costs = vec![in alloc; 2, 1]?;
    let passes = vec![in alloc;
        Group([5, 0, 0, 0, 0, 0, 0, 0]),
        Group([3, 0, 0, 0, 0, 0, 0, 0]),
    ]?;
    checked_holds();
    Ok(Instance::new(weights, costs, passes))
}

/// Four faults and a good state of one weight; each fault is seen by a test of its own.
fn star(alloc: Global) -> Result<Instance, AllocError>
    ensures { IfOk result (λ i. problem_of i ≡ star_problem) }
{
    let weights = vec![in alloc; 1, 1, 1, 1, 1]?;
    let costs = vec![in alloc; 1, 1, 1, 1]?;
    let passes = vec![in alloc;
        Group([29, 0, 0, 0, 0, 0, 0, 0]),
        Group([27, 0, 0, 0, 0, 0, 0, 0]),
        Group([23, 0, 0, 0, 0, 0, 0, 0]),
        Group([15, 0, 0, 0, 0, 0, 0, 0]),
    ]?;
    checked_holds();
    Ok(Instance::new(weights, costs, passes))
}

#[test]
fn groups_are_found_at_their_places(rt: HostRuntime) -> Result<(), Fail> {
    let mut places = Places::new(rt.alloc(), 3)?;
    let first = Group([5, 0, 0, 0, 0, 0, 0, 0]);
    let second = Group([3, 0, 0, 0, 0, 0, 0, 1]);
    let third = Group([5, 0, 0, 0, 0, 0, 0, 1]);
    assert_eq!(rt; places.find(&first), None);
    places.add(&first, 7);
    assert_eq!(rt; places.find(&second), None);
    places.add(&second, 0);
    assert_eq!(rt; places.find(&third), None);
    places.add(&third, 9);
    assert_eq!(rt; places.find(&first), Some(7));
    assert_eq!(rt; places.find(&second), Some(0));
    assert_eq!(rt; places.find(&third), Some(9));
    Ok(())
}

#[test]
fn one_row_of_two_faults(rt: HostRuntime) -> Result<(), Fail> {
    let alloc = rt.alloc();
    let mut scratch = Scratch::new();
    let inst = two_faults(alloc)?;
    let all = root(&inst);
    let passing = part(&inst, &all, 0, Answer::Pass);
    let mut core = Core::new(alloc, &inst, 1)?;
    let entered = core.step(&mut scratch, &inst, Event::Enter { group: all });
    assert_eq!(rt; entered, Ok(()));
    let above = core.step(&mut scratch, &inst, Event::Raise { place: 0, to: 28 });
    assert_eq!(rt;
        above,
        Err(Illegal::TooHigh {
            asked: 28,
            allowed: 27
        })
    );
    let raised = core.step(&mut scratch, &inst, Event::Raise { place: 0, to: 27 });
    assert_eq!(rt; raised, Ok(()));
    let below = core.step(&mut scratch, &inst, Event::Cap { place: 0, to: 26 });
    assert_eq!(rt;
        below,
        Err(Illegal::TooLow {
            asked: 26,
            allowed: 27
        })
    );
    let capped = core.step(&mut scratch, &inst, Event::Cap { place: 0, to: 27 });
    assert_eq!(rt; capped, Ok(()));
    let again = core.step(&mut scratch, &inst, Event::Enter { group: all });
    assert_eq!(rt; again, Err(Illegal::Repeated { place: 0 }));
    let second = core.step(&mut scratch, &inst, Event::Enter { group: passing });
    assert_eq!(rt; second, Err(Illegal::Limit { rows: 1 }));
    let nowhere = core.step(&mut scratch, &inst, Event::Raise { place: 1, to: 0 });
    assert_eq!(rt; nowhere, Err(Illegal::NoPlace { rows: 1 }));
    let lows = lows(alloc, &mut scratch, &inst, core.rows())?;
    assert_eq!(rt; lows.as_slice(), [27].as_slice());
    let vals = vals(alloc, &mut scratch, &inst, core.rows())?;
    assert_eq!(rt; vals.as_slice(), [27].as_slice());
    Ok(())
}

#[test]
fn two_rows_of_a_star(rt: HostRuntime) -> Result<(), Fail> {
    let alloc = rt.alloc();
    let mut scratch = Scratch::new();
    let inst = star(alloc)?;
    let all = root(&inst);
    let passing = part(&inst, &all, 0, Answer::Pass);
    let mut core = Core::new(alloc, &inst, 2)?;
    let first = core.step(&mut scratch, &inst, Event::Enter { group: all });
    assert_eq!(rt; first, Ok(()));
    let second = core.step(&mut scratch, &inst, Event::Enter { group: passing });
    assert_eq!(rt; second, Ok(()));
    let raised = core.step(&mut scratch, &inst, Event::Raise { place: 1, to: 9 });
    assert_eq!(rt; raised, Ok(()));
    let capped = core.step(&mut scratch, &inst, Event::Cap { place: 1, to: 9 });
    assert_eq!(rt; capped, Ok(()));
    let above = core.step(&mut scratch, &inst, Event::Raise { place: 0, to: 14 });
    assert_eq!(rt;
        above,
        Err(Illegal::TooHigh {
            asked: 14,
            allowed: 13
        })
    );
    let highest = core.step(&mut scratch, &inst, Event::Raise { place: 0, to: 13 });
    assert_eq!(rt; highest, Ok(()));
    let lowest = core.step(&mut scratch, &inst, Event::Cap { place: 0, to: 14 });
    assert_eq!(rt; lowest, Ok(()));
    let rows = core.rows();
    assert_eq!(rt; rows.len(), 2);
    assert_eq!(rt; (rows[0].group, rows[0].low, rows[0].up), (all, 13, 14));
    assert_eq!(rt; (rows[1].group, rows[1].low, rows[1].up), (passing, 9, 9));
    let lows = lows(alloc, &mut scratch, &inst, rows)?;
    assert_eq!(rt; lows.as_slice(), [13, 9].as_slice());
    let vals = vals(alloc, &mut scratch, &inst, rows)?;
    assert_eq!(rt; vals.as_slice(), [14, 9].as_slice());
    Ok(())
}
