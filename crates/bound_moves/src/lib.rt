// What a row is told and hands on, over the buffers: `threshold_guard` of propagate.rs, `threshold_prefixes` of prefixes.rs.
// The definitions and their laws are those of `between`.
#![tactic(auto)]

ghost use Rattle.std.specs.Prelude.{◌≡◌, ◌<◌, length, get_or};
ghost use Rattle.std.specs.Int.Signed.{mag};
ghost use Rattle.base.specs.Columns.{column};
ghost use Rattle.numeric.specs.Threshold.{Threshold};
ghost use Rattle.state.specs.State.{limit, no_state};
ghost use Rattle.queues.specs.declared.Ring.{Ring};
ghost use Rattle.queues.specs.Queue.{queue};
ghost use Rattle.queues.specs.Slot.{rows_in};
ghost use Rattle.queues.specs.Shape.{Held};
ghost use Rattle.rows.specs.Rows.{row_number};
ghost use Rattle.links.specs.Links.{neighbours};
ghost use Rattle.row_moves.specs.Between.{Index, did, with_state, with_dirty, with_bound, linked_queued, run_with, threshold_guard, guard_of, threshold_prefixes};
ghost use Rattle.row_moves.specs.Handing.{told_step, handed_on};
ghost use Rattle.row_moves.specs.Numbers.{states_of};
ghost use Rattle.row_moves.specs.Lent.{held_of, live_in, TidyIn, SameLent};
ghost use Rattle.memory.specs.Ranges.{figure_limit};
ghost use Rattle.row_moves.specs.Held.{held_row, Rising, Shaped, LinksShaped, GuardsShaped, Holds, HoldsLinks, CountsLinks, HoldsGuards};
ghost use Rattle.row_moves.specs.Ready.{Fit, Runnable};
ghost use Rattle.tightening.specs.Told.{moved_state};

use queues::{Ring, RowQueue};
use row_moves::{Built, HeldRows, Live};
use state::{State, Step};

// A row whose bounds moved waits to hand them on, if it has neighbours.
fn queue_linked(row_queues: &mut [[u16; 4]], ring: Ring, row: usize, links: usize) -> Ring
    requires { Held 1024 (queue (column 0 row_queues.old) ring) × (row < 1024) }
    ensures { (rows_in 0 row_queues.new result ≡ linked_queued links (rows_in 0 row_queues.old ring) row)
        × ((other : Ring) → rows_in 2 row_queues.new other ≡ rows_in 2 row_queues.old other) }
{
    if links == 0 {
        return ring;
    }
    queues::queue_row(row_queues, RowQueue::Bounds, ring, row)
}

// A row whose bounds moved to this state: it waits to hand them on, and is run from there.
fn run_bounded(
    held: HeldRows<'_>,
    live: &mut Live<'_>,
    row: usize,
    state: State,
    links: usize,
) -> Step
    requires shaped { Shaped (held_of held) × (row < length held.rows.now) × Fit (held_of held) figure_limit row state }
    requires runnable { Runnable (held_of held) figure_limit (live_in live.old) }
    ensures ran { (did (live_in live.new) result ≡ run_with (held_row (held_of held.entry) row) (with_bound (live_in live.old) row state links) row)
        × (TidyIn live.old → TidyIn live.new) }
    ensures lent { SameLent live.old live.new }
{
    let waiting = live.rings.rows;
    live.rings.rows = queue_linked(live.row_queues, waiting, row, links);
    live.run_from(held, row, state)
}

// `threshold_guard`: a drained guard tells its row its bound.
fn threshold_guard(
    held: HeldRows<'_>,
    live: &mut Live<'_>,
    row: usize,
    node: usize,
    bound: i64,
    links: usize,
) -> Step
    requires shaped { Shaped (held_of held) × (row < length held.rows.now) × (node < 4096) × (mag bound < figure_limit) }
    requires runnable { Runnable (held_of held) figure_limit (live_in live.old) }
    ensures ran { ((x : Index) (t : Threshold) → Holds x (held_of held.entry)
        → length (neighbours row x.links) ≡ links → row_number x.rows t.terms ≡ row → t.node ≡ node → t.bound ≡ bound
        → did (live_in live.new) result ≡ threshold_guard x (live_in live.old) t)
        × (TidyIn live.old → TidyIn live.new) }
    ensures lent { SameLent live.old live.new }
{
    let state = live.state(row);
    let sure = &mut *live.sure;
    let value = words::bit(sure, node);
    let told = tightening::guard_state(state, value, bound);
    if let Some(moved) = told {
        return run_bounded(held, live, row, moved, links);
    }
    Step::Unchanged
}

// The guard of a node that is a threshold tells its row its bound; of any other node there is nothing to tell.
pub fn guard_at(built: Built<'_>, live: &mut Live<'_>, node: usize) -> Step
    requires shaped { Shaped (held_of built.held) × GuardsShaped (held_of built.held) built.nodes.now built.bounds.now
        × (node < length built.nodes.now) × (node < 4096) × Rising 2 built.held.rows.now }
    requires runnable { Runnable (held_of built.held) figure_limit (live_in live.old) }
    ensures ran { ((x : Index) → Holds x (held_of built.entry.held) → HoldsGuards x built.entry.nodes.now built.entry.bounds.now
        → CountsLinks x built.entry.held.rows.now → did (live_in live.new) result ≡ guard_of x (live_in live.old) x.thresholds node)
        × (TidyIn live.old → TidyIn live.new) }
    ensures lent { SameLent live.old live.new }
{
    let held = built.held;
    let Some(t) = rows::threshold_of(built.nodes, node).checked_sub(1) else {
        return Step::Unchanged;
    };
    let row = rows::row_of_node(built.nodes, node);
    let links = rows::links_count(held.rows, row);
    threshold_guard(held, live, row, node, built.bounds[t], links)
}

// What a row answers that was told something new: at least that it changed.
fn tell(step: Step) -> Step
    ensures { result ≡ told_step step }
{
    if step.contradicts() {
        return Step::Contradiction;
    }
    Step::Changed
}

// A row that rests with its new bounds: they are stored, and it waits to hand them on.
fn note(live: &mut Live<'_>, row: usize, state: State)
    requires { (row < length (states_of live.old.figures.now live.old.cursors.now)) × Held 1024 (queue (column 0 live.old.row_queues.now) live.old.rings.rows) × (row < 1024) }
    ensures noted { (live_in live.new ≡ with_dirty (with_state (live_in live.old) row state) row) × (TidyIn live.old → TidyIn live.new) }
    ensures lent { SameLent live.old live.new }
{
    row_moves::store(live.figures, live.cursors, row, state);
    let waiting = live.rings.rows;
    live.rings.rows = queues::queue_row(live.row_queues, RowQueue::Bounds, waiting, row);
}

// One neighbour of a row: a bound that is new to it is stored, it waits to hand it on, and is run. The numbers are those of the
// terms of the two rows.
fn hand_on(
    held: HeldRows<'_>,
    live: &mut Live<'_>,
    source: State,
    many: usize,
    row: usize,
    own: usize,
) -> Step
    requires shaped { Shaped (held_of held) × (row < length held.rows.now) × (mag source.lower < figure_limit) × (mag (limit source.upper) < figure_limit) }
    requires runnable { Runnable (held_of held) figure_limit (live_in live.old) }
    ensures ran { (did (live_in live.new) result ≡ handed_on (held_row (held_of held.entry) row) (live_in live.old) row
        (moved_state source (get_or (states_of live.old.figures.now live.old.cursors.now) row no_state) many own))
        × (TidyIn live.old → TidyIn live.new) }
    ensures lent { SameLent live.old live.new }
{
    let state = live.state(row);
    let moved = tightening::moved_state(source, state, many, own);
    if let Some(next) = moved {
        if live.rests(held, row, next) {
            note(live, row, next);
            return Step::Changed;
        }
        let step = run_bounded(held, live, row, next, 1);
        return tell(step);
    }
    Step::Unchanged
}

// `threshold_prefixes`: a row hands its bounds on to its neighbours, in order, up to a contradiction.
pub fn threshold_prefixes(built: Built<'_>, live: &mut Live<'_>, row: usize) -> Step
    requires shaped { Shaped (held_of built.held) × LinksShaped (held_of built.held) built.links.now × (row < length built.held.rows.now) }
    requires runnable { Runnable (held_of built.held) figure_limit (live_in live.old) }
    ensures ran { ((x : Index) → Holds x (held_of built.entry.held) → HoldsLinks x (held_of built.entry.held) built.entry.links.now
        → did (live_in live.new) result ≡ threshold_prefixes x (live_in live.old) row)
        × (TidyIn live.old → TidyIn live.new) }
    ensures lent { SameLent live.old live.new }
{
    let held = built.held;
    let source = live.state(row);
    let many = rows::terms_count(held.rows, row);
    let start = rows::links_start(held.rows, row);
    let end = rows::links_end(held.rows, row);
    let mut so_far = Step::Unchanged;
    for &link in &built.links[start..end] {
        let other = rows::place(link);
        let own = rows::terms_count(held.rows, other);
        let step = hand_on(held, live, source, many, other, own);
        if step.contradicts() {
            return step;
        }
        so_far = so_far.join(step);
    }
    so_far
}
