// What the seal builds of the raw buffers: rows, guards, edges, links.
#![tactic(auto)]

ghost use Rattle.std.specs.Prelude.{◌≡◌, ◌≤◌, length};
ghost use Rattle.rows.specs.Rows.{rows_of};
ghost use Rattle.memory.specs.Limits.{max_thresholds, max_links};
ghost use Rattle.memory.specs.Buffers.{held_rows, built};
ghost use Rattle.job.specs.JobBuffers.{built_of};
ghost use Rattle.prepare.specs.Prepare.{unlinked_of};
ghost use Rattle.job.specs.Gathered.{Gathered, job_in};
ghost use Rattle.build.specs.Built.{Roomy, Spare, Builds};
ghost use Rattle.job.specs.Rooms.{BuiltRoom};
ghost use Rattle.prepare.specs.Lent.{unlinked_in, SameRows};
ghost use Rattle.build.specs.Lent.{GatheredIn, job_lent, built_in};

use files::JobRead;
use prepare::NewRows;
use records::Standing;
use thresholds::RawLists;

// The rows of the job with their guards, and the edges of its nodes. How many rows there are.
fn build_rows(
    standing: Standing,
    lists: RawLists<'_>,
    bounds: &[i64],
    built: &mut NewRows<'_>,
    nodes: &mut [[u16; 3]],
    edges: &mut [[u64; 2]],
    scratch: &mut [u64],
) -> usize
    requires { GatheredIn standing lists bounds.now × Roomy (unlinked_in built.old nodes.old edges.old) × Spare scratch.old }
    ensures laid { (result ≡ length (rows_of (job_lent standing lists.entry bounds.now))) × (result ≤ max_thresholds)
        × (unlinked_in built.new nodes.new edges.new ≡ unlinked_of (job_lent standing lists.entry bounds.now) (unlinked_in built.old nodes.old edges.old))
        × (scratch.new ≡ scratch.old) }
    ensures lent { SameRows built.old built.new }
{
    let terms = standing.raw_terms;
    let count = standing.thresholds;
    let many = standing.nodes;
    let gathered = RawLists {
        raw_conditions: &lists.raw_conditions[..terms],
        raw_weights: &lists.raw_weights[..terms],
        thresholds: &lists.thresholds[..count],
    };
    let so = prepare::prepare(
        gathered,
        &bounds[..count],
        built,
        &mut nodes[..many],
        edges,
        scratch,
    );
    so.rows
}

// Everything that the seal builds of the job: rows, guards, edges and links, in buffers that were cleared. How many rows there are.
pub fn build_job(
    standing: Standing,
    lists: RawLists<'_>,
    bounds: &[i64],
    built: &mut NewRows<'_>,
    nodes: &mut [[u16; 3]],
    edges: &mut [[u64; 2]],
    links: &mut [u16],
) -> usize
    requires { GatheredIn standing lists bounds.now × Roomy (built_in built.old nodes.old edges.old links.old) × (2048 ≤ length links.old) }
    ensures laid { (result ≡ length (rows_of (job_lent standing lists.entry bounds.now)))
        × (built_in built.new nodes.new edges.new links.new
        ≡ built_of (job_lent standing lists.entry bounds.now) (built_in built.old nodes.old edges.old links.old)) }
    ensures lent { SameRows built.old built.new }
{
    let mut scratch = [0u64; 3072];
    let count = build_rows(standing, lists, bounds, built, nodes, edges, &mut scratch);
    let row_conditions = &mut *built.row_conditions;
    let row_weights = &mut *built.row_weights;
    prefixes::prepare(&mut built.rows[..count], links, row_conditions, row_weights);
    count
}

// The second phase, over the raw lists and the rows as structs.
fn build_in(
    read: JobRead,
    lists: RawLists<'_>,
    bounds: &[i64],
    built: &mut NewRows<'_>,
    nodes: &mut [[u16; 3]],
    edges: &mut [[u64; 2]],
    links: &mut [u16],
) -> usize
    requires { GatheredIn read.standing lists bounds.now × BuiltRoom (built_in built.old nodes.old edges.old links.old)
        × (max_links ≤ length links.old) }
    ensures sealed { Builds (job_lent read.standing lists.entry bounds.now) read.sealing
        (built_in built.old nodes.old edges.old links.old) (built_in built.new nodes.new edges.new links.new) result }
    ensures lent { SameRows built.old built.new }
{
    memory::clear_built(
        built.row_conditions,
        built.row_weights,
        built.rows,
        built.guard_bounds,
        built.guard_nodes,
        nodes,
        edges,
        links,
    );
    let standing = read.standing;
    let sealing = read.sealing;
    if sealing {
        build_job(standing, lists, bounds, built, nodes, edges, links)
    } else {
        0
    }
}

// THE SECOND PHASE: clears its buffers; if reading stopped at a seal, builds what it needs. How many rows there are then, else 0. The call lends each
// buffer by itself, as C does.
pub fn build<'a>(
    read: JobRead,
    raw_conditions: &'a [u16],
    raw_weights: &'a [u64],
    thresholds: &'a [[u16; 2]],
    bounds: &[i64],
    row_conditions: &mut [u16],
    row_weights: &mut [u64],
    rows: &mut [[u16; 3]],
    guard_bounds: &mut [i64],
    guard_nodes: &mut [u16],
    nodes: &mut [[u16; 3]],
    edges: &mut [[u64; 2]],
    links: &mut [u16],
) -> usize
    requires { Gathered read.standing raw_conditions.now raw_weights.now thresholds.now bounds.now
        × BuiltRoom (built (held_rows row_conditions.old row_weights.old rows.old guard_bounds.old guard_nodes.old) nodes.old edges.old links.old)
        × (max_links ≤ length links.old) }
    ensures { Builds (job_in read.standing raw_conditions.now raw_weights.now thresholds.now bounds.now) read.sealing
        (built (held_rows row_conditions.old row_weights.old rows.old guard_bounds.old guard_nodes.old) nodes.old edges.old links.old)
        (built (held_rows row_conditions.new row_weights.new rows.new guard_bounds.new guard_nodes.new) nodes.new edges.new links.new) result }
{
    let lists = RawLists {
        raw_conditions,
        raw_weights,
        thresholds,
    };
    let mut built = NewRows {
        row_conditions,
        row_weights,
        rows,
        guard_bounds,
        guard_nodes,
    };
    build_in(read, lists, bounds, &mut built, nodes, edges, links)
}
