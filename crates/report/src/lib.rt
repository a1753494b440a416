// The plan of an input, over buffers of its own: the public call, then the listing.
#![tactic(auto)]

ghost use Rattle.memory.specs.Buffers.{raw_lists, raw, held_rows, built, kept, work};
ghost use Rattle.report.specs.Plan.{Plans};
ghost use Rattle.report.specs.Ready.{Ready};

use files::Given;
use state::State;

// What the call gave back, and how many bytes its listing has.
#[derive(Clone, Copy)]
pub struct Planned {
    pub given: Given,
    pub length: usize,
}

// The plan over lent buffers of numbers, one by one as the public call takes them; the row states are its own.
fn plan_in(
    input: &[u8],
    out: &mut [u8],
    raw_conditions: &mut [u16],
    raw_weights: &mut [u64],
    thresholds: &mut [[u16; 2]],
    bounds: &mut [i64],
    row_conditions: &mut [u16],
    row_weights: &mut [u64],
    rows: &mut [[u16; 3]],
    guard_bounds: &mut [i64],
    guard_nodes: &mut [u16],
    nodes: &mut [[u16; 3]],
    edges: &mut [[u64; 2]],
    links: &mut [u16],
    figures: &mut [[i64; 4]],
    cursors: &mut [[usize; 5]],
    sure: &mut [u64],
    never: &mut [u64],
    search: &mut [u64],
    gcds: &mut [u64],
    node_queue: &mut [u16],
    row_queues: &mut [[u16; 4]],
    answers: &mut [[u16; 2]],
) -> Planned
    requires { Ready input.now out.old (work (raw (raw_lists raw_conditions.old raw_weights.old thresholds.old) bounds.old)
        (built (held_rows row_conditions.old row_weights.old rows.old guard_bounds.old guard_nodes.old) nodes.old edges.old links.old)
        (kept figures.old cursors.old sure.old never.old search.old gcds.old node_queue.old row_queues.old answers.old)) }
    ensures { Plans input.now out.old out.new result }
{
    let mut states = [State::first(0, 0); 1024];
    let given = planner::run(
        input,
        raw_conditions,
        raw_weights,
        thresholds,
        bounds,
        row_conditions,
        row_weights,
        rows,
        guard_bounds,
        guard_nodes,
        nodes,
        edges,
        links,
        &mut states,
        figures,
        cursors,
        sure,
        never,
        search,
        gcds,
        node_queue,
        row_queues,
        answers,
    );
    let length = listing::list(out, given, answers, &states, sure, never);
    Planned { given, length }
}

// THE PLAN of an input: its listing, from the start of the buffer. If that is too short nothing is touched.
pub fn plan(input: &[u8], out: &mut [u8]) -> Planned
    ensures { Plans input.now out.old out.new result }
{
    let short = out.len() < 262144;
    if short {
        return Planned {
            given: call::too_short(),
            length: 0,
        };
    }
    let mut raw_conditions = [0u16; 4096];
    let mut raw_weights = [0u64; 4096];
    let mut thresholds = [[0u16; 2]; 1024];
    let mut bounds = [0i64; 1024];
    let mut row_conditions = [0u16; 4096];
    let mut row_weights = [0u64; 4096];
    let mut rows = [[0u16; 3]; 1024];
    let mut guard_bounds = [0i64; 1024];
    let mut guard_nodes = [0u16; 1024];
    let mut nodes = [[0u16; 3]; 4096];
    let mut edges = [[0u64; 2]; 4096];
    let mut links = [0u16; 2048];
    let mut figures = [[0i64; 4]; 1024];
    let mut cursors = [[0usize; 5]; 1024];
    let mut sure = [0u64; 64];
    let mut never = [0u64; 64];
    let mut search = [0u64; 4096];
    let mut gcds = [0u64; 1025];
    let mut node_queue = [0u16; 4096];
    let mut row_queues = [[0u16; 4]; 1024];
    let mut answers = [[0u16; 2]; 64];
    plan_in(
        input,
        out,
        &mut raw_conditions,
        &mut raw_weights,
        &mut thresholds,
        &mut bounds,
        &mut row_conditions,
        &mut row_weights,
        &mut rows,
        &mut guard_bounds,
        &mut guard_nodes,
        &mut nodes,
        &mut edges,
        &mut links,
        &mut figures,
        &mut cursors,
        &mut sure,
        &mut never,
        &mut search,
        &mut gcds,
        &mut node_queue,
        &mut row_queues,
        &mut answers,
    )
}
