//! The items of all instances: the walk writes the instances down, and their items are copied from the
//! patterns of their blocks.
ghost use Rattle.std.specs.Prelude.{◌≡◌, None, IfOk};
ghost use Rattle.sig_flat.specs.Counts.{flat_refusal};
ghost use Rattle.sig_flat.specs.Known.{IsKnown};
ghost use Rattle.sig_flat.specs.Surveys.{IsSurvey};
ghost use Rattle.sig_flat.specs.Items.{AreItemsOf};

use crate::copies::{faults_of_all, links_of_all, nodes_of_all, tests_of_all};
use crate::flat::{Fault, FlatLink, FlatTest, Node};
use crate::placing::placing_of;
use crate::survey::Survey;
use sig_types::{List, Valid};
use std::alloc::{AllocError, Global};

/// What a flat model has.
#[derive(Drop)]
pub struct Items {
    pub nodes: List<Node>,
    pub links: List<FlatLink>,
    pub faults: List<Fault>,
    pub tests: List<FlatTest>,
}

/// The items of a model that is within its limits.
pub fn items_of(alloc: Global, valid: &Valid, survey: &Survey) -> Result<Items, AllocError>
    requires known { IsKnown valid.now }
    requires survey { IsSurvey valid.now survey.now }
    requires within { flat_refusal valid.now ≡ None }
    ensures { IfOk result (AreItemsOf valid.now) }
{
    let placing = placing_of(alloc, valid, survey)?;
    let placed = placing.placed.as_slice();
    let patterns = survey.patterns.as_slice();
    let nodes = nodes_of_all(alloc, patterns, placed)?;
    let links = links_of_all(alloc, placing.links.as_slice(), placed)?;
    let faults = faults_of_all(alloc, patterns, placed)?;
    let tests = tests_of_all(alloc, patterns, placed)?;
    Ok(Items {
        nodes,
        links,
        faults,
        tests,
    })
}
