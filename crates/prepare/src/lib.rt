// `prepare` of thresholds.rs: from the raw lists of a job to its rows, their guards and the edges of every node.
#![tactic(auto)]

ghost use Rattle.std.specs.Prelude.{◌≡◌, ◌≤◌, length, take};
ghost use Rattle.base.specs.Laid.{over};
ghost use Rattle.sort.specs.Sorted.{sorted};
ghost use Rattle.sort.specs.Runs.{cleared};
ghost use Rattle.rows.specs.Guards.{Bounds, guard_keys, NodesIn};
ghost use Rattle.job.specs.Incidents.{held_items};
ghost use Rattle.thresholds.specs.Lent.{lists_of};
ghost use Rattle.prepare.specs.Prepare.{Sound, Ample, Prepared, Placeable, Rowed, Dealable, Guarded, Indexable, Edged};
ghost use Rattle.placing.specs.Place.{Ready, Blank};
ghost use Rattle.prepare.specs.Lent.{unlinked_in, SameRows};

use incidents::{index_edges, index_guards, order_guards};
use placing::Extent;
use thresholds::RawLists;

// The rows that are built, and their guards.
#[derive(Drop)]
pub struct NewRows<'a> {
    pub row_conditions: &'a mut [u16],
    pub row_weights: &'a mut [u64],
    pub rows: &'a mut [[u16; 3]],
    pub guard_bounds: &'a mut [i64],
    pub guard_nodes: &'a mut [u16],
}

// All thresholds placed, and marks and heads cleared again.
fn place_all(
    lists: RawLists<'_>,
    row_conditions: &mut [u16],
    row_weights: &mut [u64],
    rows: &mut [[u16; 3]],
    nodes: &mut [[u16; 3]],
    scratch: &mut [u64],
    heads: &mut [u16],
) -> Extent
    requires { (Ready (lists_of lists) row_conditions.old row_weights.old rows.old scratch.old)
        × (NodesIn lists.thresholds.now nodes.old) × (Blank row_conditions.old) × (Blank row_weights.old) × (Blank scratch.old)
        × (Blank heads.old) × (1024 ≤ length heads.old) }
    ensures { (Rowed (lists_of lists.entry) result
        row_conditions.old row_weights.old rows.old nodes.old
        row_conditions.new row_weights.new rows.new nodes.new)
        × (scratch.new ≡ scratch.old) × (heads.new ≡ heads.old) }
{
    let so = placing::place_rows(
        lists,
        row_conditions,
        row_weights,
        rows,
        nodes,
        scratch,
        heads,
    );
    let count = so.rows;
    scratch[..count].fill(0);
    heads.fill(0);
    so
}

// The same in whole buffers: the marks stand behind the first 1,024 words, which stay. The guards' nodes hold the heads meanwhile.
fn place_in(
    lists: RawLists<'_>,
    built: &mut NewRows<'_>,
    nodes: &mut [[u16; 3]],
    scratch: &mut [u64],
) -> Extent
    requires { Placeable (lists_of lists) built.old.row_conditions.now built.old.row_weights.now built.old.rows.now nodes.old scratch.old built.old.guard_nodes.now }
    ensures placed { (Rowed (lists_of lists.entry) result
        built.old.row_conditions.now built.old.row_weights.now built.old.rows.now nodes.old
        built.new.row_conditions.now built.new.row_weights.now built.new.rows.now nodes.new)
        × (scratch.new ≡ scratch.old) × (built.new.guard_nodes.now ≡ built.old.guard_nodes.now)
        × (built.new.guard_bounds.now ≡ built.old.guard_bounds.now) }
    ensures lent { SameRows built.old built.new }
{
    let total = lists.raw_conditions.len();
    place_all(
        lists,
        &mut built.row_conditions[..total],
        &mut built.row_weights[..total],
        built.rows,
        nodes,
        &mut scratch[1024..],
        built.guard_nodes,
    )
}

// Thresholds in the order of their bounds, in the first words of the scratch. Sorting uses the weights, which are still zero, and clears them again.
fn order_keys(bounds: &[i64], row_weights: &mut [u64], scratch: &mut [u64])
    requires { (length bounds.now ≤ 1024) × (Bounds bounds.now) × (length bounds.now ≤ length row_weights.old) × (length bounds.now ≤ length scratch.old)
        × (Blank row_weights.old) }
    ensures { (row_weights.new ≡ row_weights.old) × (scratch.new ≡ over (sorted (guard_keys 0 bounds.now)) scratch.old) }
{
    let count = bounds.len();
    order_guards(bounds, &mut scratch[..count], &mut row_weights[..count]);
}

// The guards of the first `count` rows, by the keys in the first words of the scratch, which are cleared.
fn guards_in(
    thresholds: &[[u16; 2]],
    bounds: &[i64],
    nodes: &[[u16; 3]],
    count: usize,
    built: &mut NewRows<'_>,
    scratch: &mut [u64],
)
    requires { (count ≤ length built.old.rows.now) × (length bounds.now ≤ length built.old.guard_bounds.now)
        × (length bounds.now ≤ length built.old.guard_nodes.now) × (length bounds.now ≤ length scratch.old)
        × (Dealable thresholds.now bounds.now nodes.now (take (length bounds.now) scratch.old) (take count built.old.rows.now)) }
    ensures dealt { (Guarded thresholds.now bounds.now nodes.now (take (length bounds.now) scratch.old) count
        built.old.rows.now built.old.guard_bounds.now built.old.guard_nodes.now
        built.new.rows.now built.new.guard_bounds.now built.new.guard_nodes.now)
        × (scratch.new ≡ cleared (length bounds.now) scratch.old) × (length built.new.rows.now ≡ length built.old.rows.now)
        × (built.new.row_conditions.now ≡ built.old.row_conditions.now) × (built.new.row_weights.now ≡ built.old.row_weights.now) }
    ensures lent { SameRows built.old built.new }
{
    let keys = bounds.len();
    index_guards(
        thresholds,
        bounds,
        nodes,
        &scratch[..keys],
        &mut built.rows[..count],
        &mut built.guard_bounds[..keys],
        &mut built.guard_nodes[..keys],
    );
    scratch[..keys].fill(0);
}

// The edges of every node, from the rows so far and their terms. The buffers come one by one, since a struct of `&mut` slices doesn't lend a field
// to be read while another is filled.
fn edges_in(
    row_conditions: &[u16],
    row_weights: &[u64],
    rows: &[[u16; 3]],
    so: Extent,
    nodes: &mut [[u16; 3]],
    edges: &mut [[u64; 2]],
)
    requires { (so.end ≤ length row_conditions.now) × (so.end ≤ length row_weights.now) × (so.rows ≤ length rows.now)
        × (Indexable (take so.end row_conditions.now) (take so.end row_weights.now) (take so.rows rows.now) nodes.old edges.old) }
    ensures { Edged (held_items (take so.end row_conditions.now) (take so.end row_weights.now) (take so.rows rows.now))
        nodes.old edges.old nodes.new edges.new }
{
    let Extent { rows: count, end } = so;
    index_edges(
        &row_conditions[..end],
        &row_weights[..end],
        &rows[..count],
        nodes,
        edges,
    );
}

// `prepare` of thresholds.rs: rows, guards and edges of the job that the raw buffers hold.
pub fn prepare(
    lists: RawLists<'_>,
    bounds: &[i64],
    built: &mut NewRows<'_>,
    nodes: &mut [[u16; 3]],
    edges: &mut [[u64; 2]],
    scratch: &mut [u64],
) -> Extent
    requires { Sound (lists_of lists) bounds.now (length nodes.old)
        × Ample (length lists.raw_conditions.now) (length lists.thresholds.now) (unlinked_in built.old nodes.old edges.old) scratch.old }
    ensures prepared { Prepared (lists_of lists.entry) bounds.now result (unlinked_in built.old nodes.old edges.old)
        (unlinked_in built.new nodes.new edges.new)
        × (scratch.new ≡ scratch.old) }
    ensures lent { SameRows built.old built.new }
{
    order_keys(bounds, built.row_weights, scratch);
    let so = place_in(lists, built, nodes, scratch);
    guards_in(lists.thresholds, bounds, nodes, so.rows, built, scratch);
    let row_conditions = &mut *built.row_conditions;
    let row_weights = &mut *built.row_weights;
    let rows = &mut *built.rows;
    edges_in(row_conditions, row_weights, rows, so, nodes, edges);
    so
}
