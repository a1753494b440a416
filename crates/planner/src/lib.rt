// THE PUBLIC CALL: a whole file over every lent buffer, the row states among them as records.
#![tactic(auto)]

ghost use Rattle.std.specs.Prelude.{◌≡◌};
ghost use Rattle.memory.specs.Buffers.{raw_lists, raw, held_rows, built, kept, work};
ghost use Rattle.files.specs.Contents.{out};
ghost use Rattle.files.specs.Planner.{left, plan};

use files::Given;
use state::State;

// Runs the file, then shows every row state; if a buffer is too short, or the input too long, nothing is touched. The buffers are lent one by
// one, as C hands them over.
pub fn run(
    input: &[u8],
    raw_conditions: &mut [u16],
    raw_weights: &mut [u64],
    thresholds: &mut [[u16; 2]],
    bounds: &mut [i64],
    row_conditions: &mut [u16],
    row_weights: &mut [u64],
    rows: &mut [[u16; 3]],
    guard_bounds: &mut [i64],
    guard_nodes: &mut [u16],
    nodes: &mut [[u16; 3]],
    edges: &mut [[u64; 2]],
    links: &mut [u16],
    states: &mut [State],
    figures: &mut [[i64; 4]],
    cursors: &mut [[usize; 5]],
    sure: &mut [u64],
    never: &mut [u64],
    search: &mut [u64],
    gcds: &mut [u64],
    node_queue: &mut [u16],
    row_queues: &mut [[u16; 4]],
    answers: &mut [[u16; 2]],
) -> Given
    ensures { left (out result (work (raw (raw_lists raw_conditions.new raw_weights.new thresholds.new) bounds.new)
        (built (held_rows row_conditions.new row_weights.new rows.new guard_bounds.new guard_nodes.new) nodes.new edges.new links.new)
        (kept figures.new cursors.new sure.new never.new search.new gcds.new node_queue.new row_queues.new answers.new))) states.new
        ≡ plan input.now states.old (work (raw (raw_lists raw_conditions.old raw_weights.old thresholds.old) bounds.old)
        (built (held_rows row_conditions.old row_weights.old rows.old guard_bounds.old guard_nodes.old) nodes.old edges.old links.old)
        (kept figures.old cursors.old sure.old never.old search.old gcds.old node_queue.old row_queues.old answers.old)) }
{
    if states.len() < 1024 {
        return call::too_short();
    }
    let given = call::run(
        input,
        raw_conditions,
        raw_weights,
        thresholds,
        bounds,
        row_conditions,
        row_weights,
        rows,
        guard_bounds,
        guard_nodes,
        nodes,
        edges,
        links,
        figures,
        cursors,
        sure,
        never,
        search,
        gcds,
        node_queue,
        row_queues,
        answers,
    );
    if given.refused == 10 {
        return given;
    }
    states::show_states(states, figures, cursors);
    given
}
