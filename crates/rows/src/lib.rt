// Rows as values and in buffers, and what is read of them and of nodes: where a row's terms, guards and neighbours lie, its weights' sum,
// a node's threshold and where its edges lie.
#![tactic(auto)]

ghost use Rattle.std.specs.Prelude.{◌≡◌, ◌+◌, ◌-◌, ◌^◌, ◌≤◌, ◌<◌, length};
ghost use Rattle.row.specs.Terms.{total};
ghost use Rattle.base.specs.Parts.{end_by, start_by};
ghost use Rattle.base.specs.Deal.{begins, sum_to};
ghost use Rattle.base.specs.Columns.{column, with_column, Wide};
ghost use Rattle.rows.specs.Guards.{node_at};
ghost use Rattle.rows.specs.Rows.{has_nonunit};
ghost use Rattle.rows.specs.Lent.{terms_of};

// The terms of one row, the heaviest first. They are two buffers since C lends them so.
#[derive(Clone, Copy)]
pub struct Terms<'a> {
    pub conditions: &'a [u16],
    pub weights: &'a [u64],
}

impl Terms<'_> {
    // Some merged weight of the row is above 1; the first is the heaviest.
    pub fn has_nonunit(self) -> bool
        requires { length self.weights.now ≡ length self.conditions.now }
        ensures { result ≡ has_nonunit (terms_of self.entry) }
    {
        !self.weights.is_empty() && self.weights[0] > 1
    }

    // The sum of the row's weights.
    pub fn total(self) -> u64
        requires { (length self.weights.now ≡ length self.conditions.now) × (total (terms_of self) < 2 ^ 64) }
        ensures { result ≡ total (terms_of self.entry) }
    {
        self.weights.iter().sum()
    }
}

// A number of 16 bits as a place in a slice.
pub fn place(x: u16) -> usize
    ensures { (result ≡ x) × (result < 65536) }
{
    usize::from(x)
}

// Counts in a column become the places where the items begin.
pub fn sum_column(rows: &mut [[u16; 3]], j: usize)
    requires { (j < 3) × (Wide j rows.old) × (sum_to (column j rows.old) (length rows.old) < 65536) }
    ensures { rows.new ≡ with_column j rows.old (begins 0 (column j rows.old)) }
{
    let mut sum = 0;
    for row in rows.iter_mut() {
        let count = row[j];
        row[j] = sum;
        sum += count;
    }
}

// A row has three columns: where its terms, its guards and its neighbours end. So has a node: its threshold, that threshold's row, and where
// its edges end. A threshold has two: its node, and where its raw list ends. Callers name the column by the function that they call, which is
// plainer than a number or a constant in its place.

// By column j, where the stretch of an entry begins: where that of the entry before it ends.
fn start_by<const N: usize>(table: &[[u16; N]], j: usize, n: usize) -> usize
    requires { (n ≤ length table.now) × (j < N) }
    ensures { (result ≡ start_by j table.now n) × (result < 65536) }
{
    if n == 0 {
        return 0;
    }
    end_by(table, j, n - 1)
}

// By column j, where the stretch of an entry ends.
fn end_by<const N: usize>(table: &[[u16; N]], j: usize, n: usize) -> usize
    requires { (n < length table.now) × (j < N) }
    ensures { (result ≡ end_by j table.now n) × (result < 65536) }
{
    usize::from(table[n][j])
}

// By column j, how long the stretch of an entry is.
fn count_by(table: &[[u16; 3]], j: usize, n: usize) -> usize
    requires { (n < length table.now) × (j < 3) × (start_by j table.now n ≤ end_by j table.now n) }
    ensures { result ≡ end_by j table.now n - start_by j table.now n }
{
    end_by(table, j, n) - start_by(table, j, n)
}

// Where the raw list of a threshold starts.
pub fn start_of(thresholds: &[[u16; 2]], t: usize) -> usize
    requires { t ≤ length thresholds.now }
    ensures { result ≡ start_by 1 thresholds.now t }
{
    start_by(thresholds, 1, t)
}

// Where the raw list of a threshold ends.
pub fn end_of(thresholds: &[[u16; 2]], t: usize) -> usize
    requires { t < length thresholds.now }
    ensures { result ≡ end_by 1 thresholds.now t }
{
    end_by(thresholds, 1, t)
}

// Where the terms of a row begin.
pub fn terms_start(rows: &[[u16; 3]], row: usize) -> usize
    requires { row ≤ length rows.now }
    ensures { (result ≡ start_by 0 rows.now row) × (result < 65536) }
{
    start_by(rows, 0, row)
}

// Where the terms of a row end.
pub fn terms_end(rows: &[[u16; 3]], row: usize) -> usize
    requires { row < length rows.now }
    ensures { (result ≡ end_by 0 rows.now row) × (result < 65536) }
{
    end_by(rows, 0, row)
}

// How many terms a row has.
pub fn terms_count(rows: &[[u16; 3]], row: usize) -> usize
    requires { (row < length rows.now) × (start_by 0 rows.now row ≤ end_by 0 rows.now row) }
    ensures { result ≡ end_by 0 rows.now row - start_by 0 rows.now row }
{
    count_by(rows, 0, row)
}

// Where the guards of a row begin.
pub fn guards_start(rows: &[[u16; 3]], row: usize) -> usize
    requires { row ≤ length rows.now }
    ensures { (result ≡ start_by 1 rows.now row) × (result < 65536) }
{
    start_by(rows, 1, row)
}

// Where the guards of a row end.
pub fn guards_end(rows: &[[u16; 3]], row: usize) -> usize
    requires { row < length rows.now }
    ensures { (result ≡ end_by 1 rows.now row) × (result < 65536) }
{
    end_by(rows, 1, row)
}

// How many guards a row has.
pub fn guards_count(rows: &[[u16; 3]], row: usize) -> usize
    requires { (row < length rows.now) × (start_by 1 rows.now row ≤ end_by 1 rows.now row) }
    ensures { result ≡ end_by 1 rows.now row - start_by 1 rows.now row }
{
    count_by(rows, 1, row)
}

// Where the neighbours of a row begin.
pub fn links_start(rows: &[[u16; 3]], row: usize) -> usize
    requires { row ≤ length rows.now }
    ensures { (result ≡ start_by 2 rows.now row) × (result < 65536) }
{
    start_by(rows, 2, row)
}

// Where the neighbours of a row end.
pub fn links_end(rows: &[[u16; 3]], row: usize) -> usize
    requires { row < length rows.now }
    ensures { (result ≡ end_by 2 rows.now row) × (result < 65536) }
{
    end_by(rows, 2, row)
}

// How many neighbours a row has.
pub fn links_count(rows: &[[u16; 3]], row: usize) -> usize
    requires { (row < length rows.now) × (start_by 2 rows.now row ≤ end_by 2 rows.now row) }
    ensures { result ≡ end_by 2 rows.now row - start_by 2 rows.now row }
{
    count_by(rows, 2, row)
}

// The number of a node's threshold, counted from 1; 0 for none, as the nodes' buffer holds it and the theorems on nodes read it (`end_by 0`).
pub fn threshold_of(nodes: &[[u16; 3]], node: usize) -> usize
    requires { node < length nodes.now }
    ensures { (result ≡ end_by 0 nodes.now node) × (result < 65536) }
{
    end_by(nodes, 0, node)
}

// The row of a node's threshold.
pub fn row_of_node(nodes: &[[u16; 3]], node: usize) -> usize
    requires { node < length nodes.now }
    ensures { (result ≡ end_by 1 nodes.now node) × (result < 65536) }
{
    end_by(nodes, 1, node)
}

// Where the edges of a node begin.
pub fn edges_start(nodes: &[[u16; 3]], node: usize) -> usize
    requires { node ≤ length nodes.now }
    ensures { (result ≡ start_by 2 nodes.now node) × (result < 65536) }
{
    start_by(nodes, 2, node)
}

// Where the edges of a node end.
pub fn edges_end(nodes: &[[u16; 3]], node: usize) -> usize
    requires { node < length nodes.now }
    ensures { (result ≡ end_by 2 nodes.now node) × (result < 65536) }
{
    end_by(nodes, 2, node)
}

// The node of a threshold.
pub fn node_of(thresholds: &[[u16; 2]], t: usize) -> usize
    requires { t < length thresholds.now }
    ensures { (result ≡ node_at thresholds.now t) × (result < 65536) }
{
    end_by(thresholds, 0, t)
}
