// The library for programs in other languages: the call and its listing, which library_c exports for C. Neither requires anything of its caller.
#![tactic(auto)]

ghost use Rattle.std.specs.Prelude.{◌≡◌};
ghost use Rattle.memory.specs.Buffers.{raw_lists, raw, held_rows, built, kept, work};
ghost use Rattle.files.specs.Contents.{whole};
ghost use Rattle.library.specs.Library.{numbers_in, export, exported, Lists};

use files::Given;

// What the call gives back, in numbers, so that every value of every byte is one: the refusal (0 for none) and its offset; the last step; 1
// if the job is sealed, its nodes and rows, and how many answers there are.
#[repr(C)]
#[derive(Clone, Copy)]
pub struct Numbers {
    pub refused: u8,
    pub last: u8,
    pub sealed: u8,
    pub at: usize,
    pub nodes: usize,
    pub rows: usize,
    pub answered: usize,
}

impl From<Given> for Numbers {
    ghost from_gives = { λ given numbers. numbers ≡ numbers_in given };

    fn from(given: Given) -> Numbers {
        Numbers {
            refused: given.refused,
            last: u8::from(given.last),
            sealed: u8::from(given.sealed),
            at: given.at,
            nodes: given.nodes,
            rows: given.rows,
            answered: given.answered,
        }
    }
}

// THE CALL, for C: each slice is a pointer and a number of elements.
pub fn planner_run(
    input: &[u8],
    raw_conditions: &mut [u16],
    raw_weights: &mut [u64],
    thresholds: &mut [[u16; 2]],
    bounds: &mut [i64],
    row_conditions: &mut [u16],
    row_weights: &mut [u64],
    rows: &mut [[u16; 3]],
    guard_bounds: &mut [i64],
    guard_nodes: &mut [u16],
    nodes: &mut [[u16; 3]],
    edges: &mut [[u64; 2]],
    links: &mut [u16],
    figures: &mut [[i64; 4]],
    cursors: &mut [[usize; 5]],
    sure: &mut [u64],
    never: &mut [u64],
    search: &mut [u64],
    gcds: &mut [u64],
    node_queue: &mut [u16],
    row_queues: &mut [[u16; 4]],
    answers: &mut [[u16; 2]],
) -> Numbers
    ensures { export result (work (raw (raw_lists raw_conditions.new raw_weights.new thresholds.new) bounds.new)
        (built (held_rows row_conditions.new row_weights.new rows.new guard_bounds.new guard_nodes.new) nodes.new edges.new links.new)
        (kept figures.new cursors.new sure.new never.new search.new gcds.new node_queue.new row_queues.new answers.new))
        ≡ exported (whole input.now (work (raw (raw_lists raw_conditions.old raw_weights.old thresholds.old) bounds.old)
        (built (held_rows row_conditions.old row_weights.old rows.old guard_bounds.old guard_nodes.old) nodes.old edges.old links.old)
        (kept figures.old cursors.old sure.old never.old search.old gcds.old node_queue.old row_queues.old answers.old))) }
{
    let given = call::run(
        input,
        raw_conditions,
        raw_weights,
        thresholds,
        bounds,
        row_conditions,
        row_weights,
        rows,
        guard_bounds,
        guard_nodes,
        nodes,
        edges,
        links,
        figures,
        cursors,
        sure,
        never,
        search,
        gcds,
        node_queue,
        row_queues,
        answers,
    );
    Numbers::from(given)
}

// ---- the listing

// THE LISTING of an input's file, for C: how many bytes of `out` it has; 0, and nothing written, if `out` is too short.
pub fn planner_list(input: &[u8], out: &mut [u8]) -> usize
    ensures { Lists input.now out.old out.new result }
{
    report::plan(input, out).length
}
