//! Many workers at once, by halves: each half works while the other does, and the caller is one of them. Nothing is
//! handed over but shares of three lists, so it takes no memory.
ghost use Rattle.std.specs.Thread.{IsSync};
ghost use Rattle.seq_work.specs.Fans.{AreReady, AreDone};

use crate::local::Local;
use crate::shared::Shared;
use crate::work::{WorkEnd, work_at};
use seq_table::Naming;
use seq_words::Seat;
use sig_edge::Gate;
use std::sync::Wait;
use std::thread::{Threads, join_mut};

/// Each seat's worker works, and how it ended stands at its place.
pub fn fan<N: Naming + Send + Sync, R: Threads + Wait + Sync, G: Gate + Sync>(
    rt: &R,
    shared: &Shared<N>,
    gate: &G,
    seats: &mut [Seat],
    locals: &mut [Local],
    ends: &mut [Option<WorkEnd>],
)
    requires { AreReady shared.now.inst N.words seats.old locals.old ends.old }
    ensures { AreDone shared.now.inst N.words seats.new locals.new ends.new }
{
    if seats.len() == 0 {
        return;
    }
    if seats.len() == 1 {
        ends[0] = Some(work_at(rt, shared, &mut seats[0], &mut locals[0], gate));
        return;
    }
    let half = seats.len() / 2;
    let (seats_a, seats_b) = seats.split_at_mut(half);
    let (locals_a, locals_b) = locals.split_at_mut(half);
    let (ends_a, ends_b) = ends.split_at_mut(half);
    join_mut(
        rt,
        &mut ||
            requires { IsSync R.row × IsSync N.row × IsSync G.row × AreReady shared.now.inst N.words seats_a.now locals_a.now ends_a.now }
            ensures { AreDone shared.entry.now.inst N.words seats_a.exit.now locals_a.exit.now ends_a.exit.now }
        { fan(rt, shared, gate, seats_a, locals_a, ends_a) },
        &mut ||
            requires { IsSync R.row × IsSync N.row × IsSync G.row × AreReady shared.now.inst N.words seats_b.now locals_b.now ends_b.now }
            ensures { AreDone shared.entry.now.inst N.words seats_b.exit.now locals_b.exit.now ends_b.exit.now }
        { fan(rt, shared, gate, seats_b, locals_b, ends_b) },
    );
}
