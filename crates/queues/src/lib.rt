// Nodes and rows that wait their turn: `sure`, `never`, `queue_row` and `next_row` of regions.rs.
#![tactic(auto)]

ghost use Rattle.std.specs.Prelude.{◌≡◌, ◌+◌, ◌-◌, ◌<◌, ◌≤◌, ◌%◌, ◌^◌, length, get_or};
ghost use Rattle.base.specs.Columns.{column};
ghost use Rattle.queues.specs.declared.Ring.{Ring};
ghost use Rattle.queues.specs.Queue.{queue, push as pushed, behind as behindAll, longer_ring, popped_ring, queue_row, next_row};
ghost use Rattle.queues.specs.Slot.{rows_in, first_column, put as puts};
ghost use Rattle.queues.specs.Shape.{Held};
ghost use Rattle.queues.specs.Marks.{marks, decided, waiting, decide as decides};

use state::Step;

// A queue in a lent slice: the entries that wait begin at `head` and wrap at the slice's end. The slice stands beside it and not in it:
// its memory is the caller's, and the two queues of rows share one.
#[derive(Clone, Copy)]
pub struct Ring {
    pub head: usize,
    pub count: usize,
}

// The queues of nodes that wait to be drained, of rows that wait to hand on their bounds, and of rows that wait for a residual.
#[derive(Clone, Copy)]
pub struct Rings {
    pub nodes: Ring,
    pub rows: Ring,
    pub residuals: Ring,
}

// The two queues of rows, which share a buffer of slots: of rows that wait to hand on their bounds, and of rows that wait for a residual.
#[derive(Clone, Copy)]
pub enum RowQueue {
    Bounds,
    Residuals,
}

impl RowQueue {
    // The column of its entries; the flags stand in the next.
    pub fn first_column(self) -> usize
        ensures { result ≡ first_column self }
    {
        match self {
            RowQueue::Bounds => 0,
            RowQueue::Residuals => 2,
        }
    }
}

// A queue that a call gave back, its two numbers taken one by one. Nothing calls it now: a ring is copied whole, which is no slower today.
pub fn taken(ring: Ring) -> Ring
    ensures { result ≡ ring }
{
    let head = ring.head;
    let count = ring.count;
    Ring { head, count }
}

// What deciding a node did, and the queue of nodes after it.
#[derive(Clone, Copy)]
pub struct Decision {
    pub step: Step,
    pub ring: Ring,
}

// A place behind the last is that much behind the first.
fn wrapped(at: usize, places: usize) -> usize
    requires { at < places + places }
    ensures { (result ≡ at % places) × (result < places) }
{
    if at < places { at } else { at - places }
}

// The place behind all that wait.
fn behind(ring: Ring, places: usize) -> usize
    requires { (ring.head < places) × (ring.count ≤ places) × (places < 2 ^ 63) }
    ensures { (result ≡ behindAll places ring) × (result < places) }
{
    wrapped(ring.head + ring.count, places)
}

// x waits behind all others.
fn push(items: &mut [u16], ring: Ring, places: usize, x: u16) -> Ring
    requires { Held places (queue items.old ring) }
    ensures { queue items.new result ≡ pushed places (queue items.old ring) x }
{
    let at = behind(ring, places);
    items[at] = x;
    longer(ring)
}

// One more waits.
fn longer(ring: Ring) -> Ring
    requires { ring.count < 2 ^ 63 }
    ensures { result ≡ longer_ring ring }
{
    Ring {
        count: ring.count + 1,
        ..ring
    }
}

// The oldest entry, which stands at `head`, waits no longer.
pub fn popped(ring: Ring, places: usize) -> Ring
    requires { (ring.head < places) × (0 < ring.count) }
    ensures { result ≡ popped_ring places ring }
{
    Ring {
        head: wrapped(ring.head + 1, places),
        count: ring.count - 1,
    }
}

// One number of a slot is written. The slot is written whole, so that all its numbers are known whatever stood there.
fn put(row_queues: &mut [[u16; 4]], at: usize, j: usize, x: u16)
    requires { (at < length row_queues.old) × (j < 4) }
    ensures { row_queues.new ≡ puts row_queues.old at j x }
{
    let old = row_queues[at];
    let mut slot = [old[0], old[1], old[2], old[3]];
    slot[j] = x;
    row_queues[at] = slot;
}

// A row waits behind all others of its queue. One that waits already is not queued again.
pub fn queue_row(row_queues: &mut [[u16; 4]], which: RowQueue, ring: Ring, row: usize) -> Ring
    requires { Held 1024 (queue (column (first_column which) row_queues.old) ring) × (row < 1024) }
    ensures { (rows_in (first_column which) row_queues.new result ≡ queue_row (rows_in (first_column which) row_queues.old ring) row)
        × ((other : Ring) → rows_in (2 - first_column which) row_queues.new other ≡ rows_in (2 - first_column which) row_queues.old other) }
{
    let k = which.first_column();
    let slot = row_queues[row];
    let waits = slot[k + 1] == 1;
    if waits {
        return ring;
    }
    put(row_queues, row, k + 1, 1);
    let at = behind(ring, 1024);
    put(row_queues, at, k, row as u16);
    longer(ring)
}

// The oldest row is taken: its flag falls.
pub fn next_row(row_queues: &mut [[u16; 4]], which: RowQueue, ring: Ring) -> Ring
    requires { Held 1024 (queue (column (first_column which) row_queues.old) ring) × (0 < ring.count) × (get_or (column (first_column which) row_queues.old) ring.head 0 < length row_queues.old) }
    ensures { (rows_in (first_column which) row_queues.new result ≡ next_row (rows_in (first_column which) row_queues.old ring))
        × ((other : Ring) → rows_in (2 - first_column which) row_queues.new other ≡ rows_in (2 - first_column which) row_queues.old other) }
{
    let k = which.first_column();
    let slot = row_queues[ring.head];
    let row = usize::from(slot[k]);
    put(row_queues, row, k + 1, 0);
    popped(ring, 1024)
}

// Only a node that is new waits.
fn wait(node_queue: &mut [u16], ring: Ring, step: Step, n: usize) -> Ring
    requires { Held 4096 (queue node_queue.old ring) × (n < 4096) }
    ensures { queue node_queue.new result ≡ waiting step (queue node_queue.old ring) n }
{
    if step == Step::Changed {
        push(node_queue, ring, 4096, n as u16)
    } else {
        ring
    }
}

// `sure` of the Rust for true, `never` for false: the node goes into its mask, and waits if that is new.
pub fn decide(
    value: bool,
    sure: &mut [u64],
    never: &mut [u64],
    node_queue: &mut [u16],
    ring: Ring,
    n: usize,
) -> Decision
    requires { Held 4096 (queue node_queue.old ring) × (n < 4096) × (64 ≤ length sure.old) × (64 ≤ length never.old) }
    ensures { decided (marks sure.new never.new (queue node_queue.new result.ring)) result.step ≡ decides value (marks sure.old never.old (queue node_queue.old ring)) n }
{
    let step = if value {
        words::learn(sure, never, n)
    } else {
        words::learn(never, sure, n)
    };
    let ring = wait(node_queue, ring, step, n);
    Decision { step, ring }
}
