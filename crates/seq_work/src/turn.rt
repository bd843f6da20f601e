//! One turn of a worker: it goes down step by step, as the search on one thread does, until it enters a group or
//! closes one. The groups that it came through are backed up from below upwards.
ghost use Rattle.std.specs.Prelude.{◌≡◌, ◌≢◌, ◌<◌, ◌≤◌, length};
ghost use Rattle.seq_graph.specs.Known.{row_at};
ghost use Rattle.seq_words.specs.Knowledge.{Covers};
ghost use Rattle.seq_words.specs.Seats.{IsOf};
ghost use Rattle.seq_work.specs.Works.{Ready};
ghost use Rattle.seq_work.specs.Turns.{HasWorked, first_answer};

use crate::backing::back_up;
use crate::entering::take_in;
use crate::local::Local;
use crate::shared::Shared;
use seq_graph::{Step, next_step, turns_move};
use seq_inst::{Answer, Group};
use seq_table::{Entered, Naming};
use seq_words::Seat;
use std::sync::Wait;

/// Of the two parts by a test a worker of even number looks at the passing one first, and one of odd number at
/// the failing one, so that they part ways.
fn first_of(number: u32) -> Answer
    ensures { result ≡ first_answer number }
{
    if number % 2 == 0 {
        Answer::Pass
    } else {
        Answer::Fail
    }
}

/// One turn from a group on. The answer is the group that found no place, if there is one.
pub(crate) fn turn<N: Naming + Send + Sync, R: Wait>(
    rt: &R,
    shared: &Shared<N>,
    seat: &mut Seat,
    local: &mut Local,
    node: usize,
) -> Option<Group>
    requires ready { Ready shared.now.inst N.words seat.old local.old }
    requires node { node < length local.old.graph.rows.items }
    requires apart { (row_at local.old.graph.rows.items node).low ≢ (row_at local.old.graph.rows.items node).up }
    ensures of { IsOf N.words seat.new }
    ensures covers { Covers seat.new.view seat.old.view }
    ensures ready { Ready shared.now.inst N.words seat.new local.new }
    ensures worked { HasWorked shared.now.inst N.words seat.new local.old local.new result }
{
    turns_move();
    let first = first_of(local.number);
    match next_step(&shared.inst, &mut local.graph, node, first) {
        Step::Enter { group } => {
            let entered = shared.tables.enter_at(rt, &shared.words, seat, &group);
            match entered {
                Entered::Full { drawn: _ } => return Some(group),
                Entered::At { place } => {
                    take_in(&shared.words, &shared.inst, seat, local, &group, place);
                }
            }
            back_up(&shared.words, &shared.inst, seat, local, node);
            None
        }
        Step::Down { place: next } => {
            if let Some(group) = turn(rt, shared, seat, local, next) {
                return Some(group);
            }
            back_up(&shared.words, &shared.inst, seat, local, node);
            None
        }
        Step::Close => {
            back_up(&shared.words, &shared.inst, seat, local, node);
            None
        }
    }
}
