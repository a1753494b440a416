// A seal and a mark over the buffers.
#![tactic(auto)]

ghost use Rattle.std.specs.Prelude.{◌≡◌, ◌<◌, ◌≤◌, length};
ghost use Rattle.memory.specs.Limits.{max_nodes};
ghost use Rattle.memory.specs.Ranges.{total_limit};
ghost use Rattle.queues.specs.Queue.{queue};
ghost use Rattle.queues.specs.Slot.{rows_in};
ghost use Rattle.queues.specs.Marks.{marks};
ghost use Rattle.queues.specs.Waiting.{Waits, Flags};
ghost use Rattle.row_moves.specs.Between.{Index, did};
ghost use Rattle.row_moves.specs.Numbers.{states_of};
ghost use Rattle.row_moves.specs.Lent.{held_of, live_in, TidyIn, SameLent};
ghost use Rattle.row_moves.specs.Held.{Shaped, Holds};
ghost use Rattle.row_moves.specs.Ready.{Totals};
ghost use Rattle.drain.specs.Drain.{mark as marked, seal as seals};

use row_moves::{HeldRows, Live};
use state::Step;

// A mark decides its node, which then waits.
pub fn mark(live: &mut Live<'_>, node: usize, value: bool) -> Step
    requires { Waits (marks live.old.sure.now live.old.never.now (queue live.old.node_queue.now live.old.rings.nodes)) × (node < max_nodes) }
    ensures marked { (did (live_in live.new) result ≡ marked (live_in live.old) node value) × (TidyIn live.old → TidyIn live.new) }
    ensures lent { SameLent live.old live.new }
{
    let ring = live.rings.nodes;
    let made = queues::decide(value, live.sure, live.never, live.node_queue, ring, node);
    live.rings.nodes = made.ring;
    made.step
}

// A seal gives every row its first state and runs each once.
pub fn seal(held: HeldRows<'_>, live: &mut Live<'_>) -> Step
    requires shaped { ((x : Index) × Holds x (held_of held)) × Shaped (held_of held)
        × Totals total_limit held.row_conditions.now held.row_weights.now held.rows.now
        × (length held.rows.now ≤ length (states_of live.old.figures.now live.old.cursors.now)) }
    requires waits { Waits (marks live.old.sure.now live.old.never.now (queue live.old.node_queue.now live.old.rings.nodes))
        × Flags (rows_in 2 live.old.row_queues.now live.old.rings.residuals) }
    ensures sealed { ((x : Index) → Holds x (held_of held.entry) → did (live_in live.new) result ≡ seals x (live_in live.old))
        × (TidyIn live.old → TidyIn live.new) }
    ensures lent { SameLent live.old live.new }
{
    seeding::first_states(held, live.figures, live.cursors);
    seeding::seed_thresholds(held, live)
}
