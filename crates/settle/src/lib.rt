// Draining over the buffers: `settle` of regions.rs with its turns. Nodes come before rows, each in the order in which they were queued.
#![tactic(auto)]

ghost use Rattle.std.specs.Prelude.{◌≡◌, not, ◌&&◌, List, ℕ, ◌<◌, eqb, length};
ghost use Rattle.memory.specs.Ranges.{figure_limit};
ghost use Rattle.queues.specs.Queue.{queue, oldest};
ghost use Rattle.queues.specs.Slot.{rows_in};
ghost use Rattle.row_moves.specs.Between.{Index, did};
ghost use Rattle.row_moves.specs.Lent.{held_of, built_of, built_by, live_in, TidyIn, SameLent};
ghost use Rattle.row_moves.specs.Held.{Shaped, LinksShaped, Holds, HoldsLinks};
ghost use Rattle.row_moves.specs.Ready.{Runnable};
ghost use Rattle.drain.specs.Drain.{take_node, take_row, turn as turns, settle as settles};
ghost use Rattle.theorem_keeps.specs.Serves.{Serves, Among, Going};

use queues::{Ring, Rings, RowQueue};
use row_moves::{Built, Live};
use state::Step;

// The node that has waited longest.
fn oldest_node(live: &Live<'_>) -> usize
    requires { live.now.rings.nodes.head < length live.now.node_queue.now }
    ensures { result ≡ oldest (queue live.now.node_queue.now live.now.rings.nodes) }
{
    rows::place(live.node_queue[live.rings.nodes.head])
}

// The row that has waited longest in the queue whose columns begin at k. A number and not a `RowQueue`: the clause promises the entry
// of any column.
pub fn oldest_row(row_queues: &[[u16; 4]], k: usize, ring: Ring) -> usize
    requires { (ring.head < length row_queues.now) × (k < 4) }
    ensures { result ≡ oldest (rows_in k row_queues.now ring).queue }
{
    let slot = row_queues[ring.head];
    rows::place(slot[k])
}

// The oldest node is taken: its guard, then, unless that contradicts, its condition.
fn take_node(built: Built<'_>, live: &mut Live<'_>) -> Step
    requires count_nonzero { ((x : Index) × (links : List ℕ) × Serves x built.bounds.now (built_by built links)) × (0 < live.old.rings.nodes.count) }
    requires going { Going (held_of built.held) built.nodes.now (live_in live.old) }
    ensures ran { ((x : Index) (links : List ℕ) → Serves x built.entry.bounds.now (built_by built.entry links)
        → did (live_in live.new) result ≡ take_node x (live_in live.old))
        × (TidyIn live.old → TidyIn live.new) }
    ensures lent { SameLent live.old live.new }
{
    let node = oldest_node(live);
    live.rings.nodes = queues::popped(live.rings.nodes, 4096);
    let told = bound_moves::guard_at(built, live, node);
    if told.contradicts() {
        return told;
    }
    let after = conditions::threshold_condition(built, live, node);
    told.join(after)
}

// The oldest row that waits to hand on its bounds is taken, and hands them on.
fn take_row(built: Built<'_>, live: &mut Live<'_>) -> Step
    requires shaped { Shaped (held_of built.held) × LinksShaped (held_of built.held) built.links.now
        × (0 < live.old.rings.rows.count) × Among (length built.held.rows.now) (rows_in 0 live.old.row_queues.now live.old.rings.rows) }
    requires runnable { Runnable (held_of built.held) figure_limit (live_in live.old) }
    ensures ran { ((x : Index) → Holds x (held_of built.entry.held) → HoldsLinks x (held_of built.entry.held) built.entry.links.now
        → did (live_in live.new) result ≡ take_row x (live_in live.old))
        × (TidyIn live.old → TidyIn live.new) }
    ensures lent { SameLent live.old live.new }
{
    let ring = live.rings.rows;
    let row_queues = &mut *live.row_queues;
    let row = oldest_row(row_queues, RowQueue::Bounds.first_column(), ring);
    live.rings.rows = queues::next_row(row_queues, RowQueue::Bounds, ring);
    bound_moves::threshold_prefixes(built, live, row)
}

// Rows wait until no node does.
fn turn(built: Built<'_>, live: &mut Live<'_>) -> Step
    requires count_nonzero { ((x : Index) × Serves x built.bounds.now (built_of built))
        × (live.old.rings.nodes.count ≡ 0 → 0 < live.old.rings.rows.count) }
    requires going { Going (held_of built.held) built.nodes.now (live_in live.old) }
    ensures ran { ((x : Index) → Serves x built.entry.bounds.now (built_of built.entry)
        → did (live_in live.new) result ≡ turns x (live_in live.old))
        × (TidyIn live.old → TidyIn live.new) }
    ensures lent { SameLent live.old live.new }
{
    let none = live.rings.nodes.count == 0;
    if none {
        return take_row(built, live);
    }
    take_node(built, live)
}

// A node waits, or a row.
fn waits(rings: Rings) -> bool
    ensures { result ≡ not (eqb rings.nodes.count 0 && eqb rings.rows.count 0) }
{
    rings.nodes.count != 0 || rings.rows.count != 0
}

// Turns until nothing waits or one contradicts.
pub fn settle(built: Built<'_>, live: &mut Live<'_>) -> Step
    requires serves { (x : Index) × Serves x built.bounds.now (built_of built) }
    requires going { Going (held_of built.held) built.nodes.now (live_in live.old) }
    ensures ran { ((x : Index) → Serves x built.entry.bounds.now (built_of built.entry)
        → did (live_in live.new) result ≡ settles x (live_in live.old))
        × (TidyIn live.old → TidyIn live.new) }
    ensures lent { SameLent live.old live.new }
{
    let mut so_far = Step::Unchanged;
    let mut busy = waits(live.rings);
    // Until nothing waits: what is drained queues more.
    while busy {
        let step = turn(built, live);
        if step.contradicts() {
            return step;
        }
        so_far = so_far.join(step);
        busy = waits(live.rings);
    }
    so_far
}
