// The lent buffers: clearing them, a function for each group of docs/BUFFERS.md, and the test of their lengths.
#![tactic(auto)]

ghost use Rattle.std.specs.Prelude.{◌≡◌, not, [], ◌∷◌};
ghost use Rattle.memory.specs.Buffers.{raw_lists, raw, held_rows, built, kept, fits_by, clear_raw, clear_built, clear_kept};

// The buffers of a group are parameters one by one, as the C interface lends them (`planner_run`).

// Clears the job as the records gave it.
pub fn clear_raw(
    raw_conditions: &mut [u16],
    raw_weights: &mut [u64],
    thresholds: &mut [[u16; 2]],
    bounds: &mut [i64],
)
    ensures { raw (raw_lists raw_conditions.new raw_weights.new thresholds.new) bounds.new
        ≡ clear_raw (raw (raw_lists raw_conditions.old raw_weights.old thresholds.old) bounds.old) }
{
    raw_conditions.fill(0);
    raw_weights.fill(0);
    thresholds.fill([0; 2]);
    bounds.fill(0);
}

// Clears what the seal builds.
pub fn clear_built(
    row_conditions: &mut [u16],
    row_weights: &mut [u64],
    rows: &mut [[u16; 3]],
    guard_bounds: &mut [i64],
    guard_nodes: &mut [u16],
    nodes: &mut [[u16; 3]],
    edges: &mut [[u64; 2]],
    links: &mut [u16],
)
    ensures { built (held_rows row_conditions.new row_weights.new rows.new guard_bounds.new guard_nodes.new) nodes.new edges.new links.new
        ≡ clear_built (built (held_rows row_conditions.old row_weights.old rows.old guard_bounds.old guard_nodes.old) nodes.old edges.old links.old) }
{
    row_conditions.fill(0);
    row_weights.fill(0);
    rows.fill([0; 3]);
    guard_bounds.fill(0);
    guard_nodes.fill(0);
    nodes.fill([0; 3]);
    edges.fill([0; 2]);
    links.fill(0);
}

// Clears what marks, settles and sifts change.
pub fn clear_kept(
    figures: &mut [[i64; 4]],
    cursors: &mut [[usize; 5]],
    sure: &mut [u64],
    never: &mut [u64],
    search: &mut [u64],
    gcds: &mut [u64],
    node_queue: &mut [u16],
    row_queues: &mut [[u16; 4]],
    answers: &mut [[u16; 2]],
)
    ensures { kept figures.new cursors.new sure.new never.new search.new gcds.new node_queue.new row_queues.new answers.new
        ≡ clear_kept (kept figures.old cursors.old sure.old never.old search.old gcds.old node_queue.old row_queues.old answers.old) }
{
    figures.fill([0; 4]);
    cursors.fill([0; 5]);
    sure.fill(0);
    never.fill(0);
    search.fill(0);
    gcds.fill(0);
    node_queue.fill(0);
    row_queues.fill([0; 4]);
    answers.fill([0; 2]);
}

// Whether one of these lengths is too short for its buffer, or the input too long.
// One number for each buffer, since each is lent by itself; the clause, `fits_by`, has the lengths in this order.
pub fn short(
    raw_conditions: usize,
    raw_weights: usize,
    thresholds: usize,
    bounds: usize,
    row_conditions: usize,
    row_weights: usize,
    rows: usize,
    guard_bounds: usize,
    guard_nodes: usize,
    nodes: usize,
    edges: usize,
    links: usize,
    figures: usize,
    cursors: usize,
    sure: usize,
    never: usize,
    search: usize,
    gcds: usize,
    node_queue: usize,
    row_queues: usize,
    answers: usize,
    input: usize,
) -> bool
    ensures { result ≡ not (fits_by (raw_conditions ∷ raw_weights ∷ thresholds ∷ bounds ∷ row_conditions ∷ row_weights ∷ rows ∷ guard_bounds ∷ guard_nodes ∷ nodes ∷ edges ∷ links ∷ figures ∷ cursors ∷ sure ∷ never ∷ search ∷ gcds ∷ node_queue ∷ row_queues ∷ answers ∷ []) input) }
{
    let enough = (raw_conditions >= 4096)
        & (raw_weights >= 4096)
        & (thresholds >= 1024)
        & (bounds >= 1024)
        & (row_conditions >= 4096)
        & (row_weights >= 4096)
        & (rows >= 1024)
        & (guard_bounds >= 1024)
        & (guard_nodes >= 1024)
        & (nodes >= 4096)
        & (edges >= 4096)
        & (links >= 2048)
        & (figures >= 1024)
        & (cursors >= 1024)
        & (sure >= 64)
        & (never >= 64)
        & (search >= 4096)
        & (gcds >= 1025)
        & (node_queue >= 4096)
        & (row_queues >= 1024)
        & (answers >= 64);
    let fits = enough & (input <= 65536);
    !fits
}
