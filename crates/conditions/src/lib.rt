// A drained condition: every row in which it stands takes its weight and is run (`threshold_condition` of propagate.rs).
#![tactic(auto)]

ghost use Rattle.std.specs.Prelude.{◌≡◌, ◌-◌, ◌<◌, length, get_or};
ghost use Rattle.state.specs.State.{no_state, drained};
ghost use Rattle.row_moves.specs.Between.{Index, did, with_state, run_with, threshold_condition};
ghost use Rattle.row_moves.specs.Numbers.{states_of};
ghost use Rattle.row_moves.specs.Lent.{held_of, live_in, TidyIn, SameLent};
ghost use Rattle.memory.specs.Ranges.{figure_limit, room_limit, weight_limit, drain_limit};
ghost use Rattle.row_moves.specs.Held.{held_row, Shaped, EdgesShaped, Holds, HoldsEdges};
ghost use Rattle.row_moves.specs.Ready.{ReadyLive};

use row_moves::{Built, HeldRows, Live};
use state::Step;

// One row of a drained condition: the weight is drained, and the row run.
fn drain_edge(held: HeldRows<'_>, live: &mut Live<'_>, row: usize, weight: u64, value: bool) -> Step
    requires shaped { Shaped (held_of held) × (row < length held.rows.now) × (weight < weight_limit) }
    requires ready_live { ReadyLive (held_of held) (figure_limit - drain_limit) (live_in live.old) }
    ensures ran { (did (live_in live.new) result ≡ run_with (held_row (held_of held.entry) row) (with_state (live_in live.old) row
        (drained value weight (get_or (states_of live.old.figures.now live.old.cursors.now) row no_state))) row)
        × (TidyIn live.old → TidyIn live.new) }
    ensures lent { SameLent live.old live.new }
{
    let state = live.state(row);
    let next = state.drained(value, weight);
    row_moves::store_sums(live.figures, row, next.known, next.possible);
    live.run(held, row)
}

// `threshold_condition`: a drained node tells the rows in which it stands, in order, up to a contradiction. An edge is a row and its weight.
pub fn threshold_condition(built: Built<'_>, live: &mut Live<'_>, node: usize) -> Step
    requires shaped { Shaped (held_of built.held) × EdgesShaped (held_of built.held) built.nodes.now built.edges.now
        × (node < length built.nodes.now) × (node < 4096) }
    requires ready_live { ReadyLive (held_of built.held) room_limit (live_in live.old) }
    ensures ran { ((x : Index) → Holds x (held_of built.entry.held) → HoldsEdges x built.entry.nodes.now built.entry.edges.now
        → did (live_in live.new) result ≡ threshold_condition x (live_in live.old) node)
        × (TidyIn live.old → TidyIn live.new) }
    ensures lent { SameLent live.old live.new }
{
    let sure = &mut *live.sure;
    let value = words::bit(sure, node);
    let start = rows::edges_start(built.nodes, node);
    let end = rows::edges_end(built.nodes, node);
    let mut so_far = Step::Unchanged;
    for &[row, weight] in &built.edges[start..end] {
        let step = drain_edge(built.held, live, row as usize, weight, value);
        let contradicts = step.contradicts();
        let stops = contradicts;
        if stops {
            return step;
        }
        so_far = so_far.join(step);
    }
    so_far
}
