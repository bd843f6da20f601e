//! Three states of which a test tells one from the others: no fault with weight 2, A with weight 3,
//! which the test sees, and B with weight 4, which it doesn't see.
ghost use Rattle.std.specs.Prelude.{◌≡◌, [], ◌∷◌, IfOk};
ghost use Rattle.sig_matrix.specs.Valid.{IsValid};

use crate::{classes_of, instance_of, labels_of};
use sig_lines::TestLabel;
use sig_matrix::{FaultRow, Matrix};
use sig_types::{List, Text};
use std::alloc::{AllocError, Global};
use std::test::Fail;

fn fault(alloc: Global, weight: u32, label: &str, word: u64) -> Result<FaultRow, AllocError>
    ensures { IfOk result (λ fault. fault ≡ record { weight = weight; label = label.now; row = word ∷ 0 ∷ 0 ∷ 0 ∷ [] }) }
{
    Ok(FaultRow {
        weight,
        label: Text::of(alloc, label)?,
        row: [word, 0, 0, 0],
    })
}

fn unseen_fault(alloc: Global) -> Result<Matrix, AllocError>
    ensures { IfOk result (λ matrix. IsValid matrix) }
{
    let seen = fault(alloc, 3, "A.f", 1)?;
    let unseen = fault(alloc, 4, "B.f", 0)?;
    let label = Text::of(alloc, "X/t")?;
    Ok(Matrix {
        good: 2,
        faults: List::from_vec(vec![in alloc; seen, unseen]?),
        tests: List::from_vec(vec![in alloc; TestLabel { cost: 1, label }]?),
    })
}

#[test]
fn an_unseen_fault_is_with_no_fault(rt: HostRuntime) -> Result<(), Fail> {
    let alloc = rt.alloc();
    let matrix = unseen_fault(alloc)?;
    let classes = classes_of(alloc, &matrix)?;
    assert_eq!(rt; classes.class_of.as_slice(), [0, 1, 0].as_slice());
    assert_eq!(rt; classes.weights.as_slice(), [6, 3].as_slice());

    let inst = instance_of(alloc, &matrix, &classes).expect(&rt, "two classes");
    assert_eq!(rt; inst.weights.as_slice(), [6, 3].as_slice());
    assert_eq!(rt; inst.costs.as_slice(), [1].as_slice());
    assert_eq!(rt; inst.passes.len(), 1);
    assert_eq!(rt; inst.passes[0].0, [1, 0, 0, 0, 0, 0, 0, 0]);

    let labels = labels_of(alloc, &matrix, &classes, "-")?;
    assert_eq!(rt; labels.mode.as_str(), "-");
    let states = labels.states.as_slice();
    assert_eq!(rt; states.len(), 3);
    assert_eq!(rt; states[0].label.as_str(), "good");
    assert_eq!(rt; (states[1].weight, states[1].class), (3, 1));
    assert_eq!(rt; states[2].label.as_str(), "B.f");
    assert_eq!(rt; labels.tests.len(), 1);
    Ok(())
}
