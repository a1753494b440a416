// The call: reads the job, builds what its seal needs, seals and serves, over every lent buffer.
#![tactic(auto)]

ghost use Rattle.std.specs.Prelude.{◌≡◌};
ghost use Rattle.memory.specs.Buffers.{raw_lists, raw, held_rows, built, kept, work};
ghost use Rattle.files.specs.Contents.{out, whole, nothing};

use files::Given;
use state::Step;

// Refusal 10: nothing is read, and nothing touched.
pub fn too_short() -> Given
    ensures { result ≡ nothing }
{
    Given {
        refused: 10,
        at: 0,
        sealed: false,
        nodes: 0,
        rows: 0,
        last: Step::Unchanged,
        answered: 0,
    }
}

// THE CALL: the three phases over every lent buffer; if one is too short, or the input too long, nothing is touched.
pub fn run(
    input: &[u8],
    raw_conditions: &mut [u16],
    raw_weights: &mut [u64],
    thresholds: &mut [[u16; 2]],
    bounds: &mut [i64],
    row_conditions: &mut [u16],
    row_weights: &mut [u64],
    rows: &mut [[u16; 3]],
    guard_bounds: &mut [i64],
    guard_nodes: &mut [u16],
    nodes: &mut [[u16; 3]],
    edges: &mut [[u64; 2]],
    links: &mut [u16],
    figures: &mut [[i64; 4]],
    cursors: &mut [[usize; 5]],
    sure: &mut [u64],
    never: &mut [u64],
    search: &mut [u64],
    gcds: &mut [u64],
    node_queue: &mut [u16],
    row_queues: &mut [[u16; 4]],
    answers: &mut [[u16; 2]],
) -> Given
    ensures { out result (work (raw (raw_lists raw_conditions.new raw_weights.new thresholds.new) bounds.new)
        (built (held_rows row_conditions.new row_weights.new rows.new guard_bounds.new guard_nodes.new) nodes.new edges.new links.new)
        (kept figures.new cursors.new sure.new never.new search.new gcds.new node_queue.new row_queues.new answers.new))
        ≡ whole input.now (work (raw (raw_lists raw_conditions.old raw_weights.old thresholds.old) bounds.old)
        (built (held_rows row_conditions.old row_weights.old rows.old guard_bounds.old guard_nodes.old) nodes.old edges.old links.old)
        (kept figures.old cursors.old sure.old never.old search.old gcds.old node_queue.old row_queues.old answers.old)) }
{
    if memory::short(
        raw_conditions.len(),
        raw_weights.len(),
        thresholds.len(),
        bounds.len(),
        row_conditions.len(),
        row_weights.len(),
        rows.len(),
        guard_bounds.len(),
        guard_nodes.len(),
        nodes.len(),
        edges.len(),
        links.len(),
        figures.len(),
        cursors.len(),
        sure.len(),
        never.len(),
        search.len(),
        gcds.len(),
        node_queue.len(),
        row_queues.len(),
        answers.len(),
        input.len(),
    ) {
        return too_short();
    }
    let job = reading::read(input, raw_conditions, raw_weights, thresholds, bounds);
    let count = build::build(
        job,
        raw_conditions,
        raw_weights,
        thresholds,
        bounds,
        row_conditions,
        row_weights,
        rows,
        guard_bounds,
        guard_nodes,
        nodes,
        edges,
        links,
    );
    let end = serve_phase::serve(
        input,
        row_conditions,
        row_weights,
        rows,
        guard_bounds,
        guard_nodes,
        nodes,
        bounds,
        edges,
        links,
        figures,
        cursors,
        sure,
        never,
        node_queue,
        row_queues,
        gcds,
        search,
        answers,
        job,
        count,
    );
    let standing = end.standing;
    let last = end.last;
    Given {
        refused: end.refused,
        at: end.at,
        sealed: standing.sealed,
        nodes: standing.nodes,
        rows: count,
        last: last,
        answered: standing.answers,
    }
}
