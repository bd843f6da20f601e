//! Laws of a walk: each turn leaves less to do, so a walk ends. Each engine goes down its graph by these.
ghost use Rattle.seq_graph.specs.Laws.{EnteringMoves, GoingDownMoves, ClosingMoves};

/// A turn that enters a group, or closes one, leaves less to do, and so does one that goes down before it:
/// there is room for one group less, or one row less is open, and no row opens again.
pub fn turns_move()
    ensures entering { EnteringMoves }
    ensures going_down { GoingDownMoves }
    ensures closing { ClosingMoves }
{}
