//! What a right outcome says of the system: the law that the program's promise rests on.
ghost use Rattle.seq_finish.specs.Laws.{OutcomesHold};

use seq_theory::entered_holds;

/// A right outcome's strategy is right and costs its cost, and the least cost lies between its low and
/// its cost; where it is optimal, the cost is the least.
pub fn outcomes_hold()
    ensures { OutcomesHold }
{
    entered_holds();
}
