// The last phase of the call, over its own group of buffers, which it clears: the seal and the records after it.
#![tactic(auto)]

ghost use Rattle.std.specs.Prelude.{◌≡◌, true, ◌<◌, ◌≤◌, length, List, ℕ};
ghost use Rattle.memory.specs.Buffers.{Kept as KeptBuffers, held_rows, built, kept, longest_input};
ghost use Rattle.row_moves.specs.Lent.{built_of};
ghost use Rattle.files.specs.File.{File, standing as standing_of};
ghost use Rattle.records.specs.declared.Record.TheVariants.{Seal};
ghost use Rattle.checks.specs.Next.{Taken, next_at};
ghost use Rattle.serve.specs.Serve.{Lies, Seals, Reaches, read_at, fourfold};
ghost use Rattle.serve_phase.specs.Phase.{KeptRoom, Blank, Stops, Sealable, Begins, ending, LeavesOn};

use files::JobRead;
use queues::{Ring, Rings};
use records::Standing;
use row_moves::{Built, HeldRows};
use serve::{Kept, Reached};
use state::Step;

// The seal and the records behind it, over buffers that come one by one: what a cut of a slice becomes is known where a call takes the cut, and
// not where a struct does.
fn seal_cut(
    input: &[u8],
    built: Built<'_>,
    figures: &mut [[i64; 4]],
    cursors: &mut [[usize; 5]],
    sure: &mut [u64],
    never: &mut [u64],
    search: &mut [u64],
    gcds: &mut [u64],
    node_queue: &mut [u16],
    row_queues: &mut [[u16; 4]],
    answers: &mut [[u16; 2]],
    at: usize,
    standing: Standing,
    rings: Rings,
) -> Reached
    requires { ((f : File) × (base : List (List ℕ)) × Seals built.bounds.now (built_of built) f
        × Lies base f (kept figures.old cursors.old sure.old never.old search.old gcds.old node_queue.old row_queues.old answers.old) rings × (standing ≡ standing_of f))
        × (at < length input.now) × (next_at standing input.now at ≡ Taken Seal) × (length input.now ≤ longest_input) }
    ensures reaches { (f : File) (base : List (List ℕ)) → Seals built.entry.bounds.now (built_of built.entry) f
        → Lies base f (kept figures.old cursors.old sure.old never.old search.old gcds.old node_queue.old row_queues.old answers.old) rings
        → standing ≡ standing_of f
        → Reaches built.entry.bounds.now (built_of built.entry) base
        (kept figures.new cursors.new sure.new never.new search.new gcds.new node_queue.new row_queues.new answers.new) result
        (read_at (length input.now) input.now at f) }
    ensures fours { fourfold row_queues.new ≡ row_queues.new }
{
    let mut lent = Kept {
        figures,
        cursors,
        sure,
        never,
        search,
        gcds,
        node_queue,
        row_queues,
        answers,
    };
    serve::seal_and_serve(input, built, &mut lent, at, standing, rings)
}

// The seal and the records behind it, over each buffer cut to its listed length, rows and nodes to their number and bounds to that of the
// thresholds.
fn lend(
    input: &[u8],
    built: Built<'_>,
    figures: &mut [[i64; 4]],
    cursors: &mut [[usize; 5]],
    sure: &mut [u64],
    never: &mut [u64],
    search: &mut [u64],
    gcds: &mut [u64],
    node_queue: &mut [u16],
    row_queues: &mut [[u16; 4]],
    answers: &mut [[u16; 2]],
    at: usize,
    standing: Standing,
    row_count: usize,
    rings: Rings,
) -> Reached
    requires { ((f : File) × (k : KeptBuffers) × Sealable built.bounds.now (built_of built) f row_count
        × Begins k f (kept figures.old cursors.old sure.old never.old search.old gcds.old node_queue.old row_queues.old answers.old) rings × (standing ≡ standing_of f))
        × (at < length input.now) × (next_at standing input.now at ≡ Taken Seal) × (length input.now ≤ longest_input) }
    ensures { (f : File) (k : KeptBuffers) → Sealable built.entry.bounds.now (built_of built.entry) f row_count
        → Begins k f (kept figures.old cursors.old sure.old never.old search.old gcds.old node_queue.old row_queues.old answers.old) rings
        → standing ≡ standing_of f
        → LeavesOn k (kept figures.new cursors.new sure.new never.new search.new gcds.new node_queue.new row_queues.new answers.new) result
        (read_at (length input.now) input.now at f) }
{
    let held = built.held;
    let cut = Built {
        held: HeldRows {
            row_conditions: &held.row_conditions[..4096],
            row_weights: &held.row_weights[..4096],
            rows: &held.rows[..row_count],
            guard_bounds: &held.guard_bounds[..1024],
            guard_nodes: &held.guard_nodes[..1024],
        },
        nodes: &built.nodes[..standing.nodes],
        bounds: &built.bounds[..standing.thresholds],
        edges: &built.edges[..4096],
        links: built.links,
    };
    seal_cut(
        input,
        cut,
        &mut figures[..1024],
        &mut cursors[..1024],
        &mut sure[..64],
        &mut never[..64],
        &mut search[..4096],
        &mut gcds[..1025],
        &mut node_queue[..4096],
        &mut row_queues[..1024],
        answers,
        at,
        standing,
        rings,
    )
}

// THE PHASE: clears its buffers; if the job's records stopped at its seal, seals and serves. The call lends each buffer by itself, as C does.
pub fn serve<'a>(
    input: &[u8],
    row_conditions: &'a [u16],
    row_weights: &'a [u64],
    rows: &'a [[u16; 3]],
    guard_bounds: &'a [i64],
    guard_nodes: &'a [u16],
    nodes: &'a [[u16; 3]],
    bounds: &'a [i64],
    edges: &'a [[u64; 2]],
    links: &'a [u16],
    figures: &mut [[i64; 4]],
    cursors: &mut [[usize; 5]],
    sure: &mut [u64],
    never: &mut [u64],
    node_queue: &mut [u16],
    row_queues: &mut [[u16; 4]],
    gcds: &mut [u64],
    search: &mut [u64],
    answers: &mut [[u16; 2]],
    read: JobRead,
    row_count: usize,
) -> Reached
    requires { KeptRoom (kept figures.old cursors.old sure.old never.old search.old gcds.old node_queue.old row_queues.old answers.old) × (length input.now ≤ longest_input)
        × (read.sealing ≡ true → ((f : File) × Stops bounds.now (built (held_rows row_conditions.now row_weights.now rows.now guard_bounds.now guard_nodes.now) nodes.now edges.now links.now)
        f row_count × Blank f × (read.standing ≡ standing_of f)) × (read.at < length input.now) × (next_at read.standing input.now read.at ≡ Taken Seal)) }
    ensures { (f : File) → Blank f → read.standing ≡ standing_of f → (read.sealing ≡ true → Stops bounds.now (built (held_rows row_conditions.now row_weights.now
        rows.now guard_bounds.now guard_nodes.now) nodes.now edges.now links.now)
        f row_count) → LeavesOn (kept figures.old cursors.old sure.old never.old search.old gcds.old node_queue.old row_queues.old
        answers.old) (kept figures.new cursors.new sure.new never.new search.new gcds.new node_queue.new row_queues.new
        answers.new) result (ending input.now f read) }
{
    memory::clear_kept(
        figures, cursors, sure, never, search, gcds, node_queue, row_queues, answers,
    );
    let at = read.at;
    let standing = read.standing;
    let none = Ring { head: 0, count: 0 };
    let rings = Rings {
        nodes: none,
        rows: none,
        residuals: none,
    };
    let sealing = read.sealing;
    if sealing {
        let built = Built {
            held: HeldRows {
                row_conditions,
                row_weights,
                rows,
                guard_bounds,
                guard_nodes,
            },
            nodes,
            bounds,
            edges,
            links,
        };
        return lend(
            input, built, figures, cursors, sure, never, search, gcds, node_queue, row_queues,
            answers, at, standing, row_count, rings,
        );
    }
    Reached {
        at,
        refused: read.refusal,
        standing,
        last: Step::Unchanged,
        rings,
    }
}
