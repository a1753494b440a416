// Rows placed one threshold after the other: each finds a row with its raw list, or makes one.
#![tactic(auto)]

ghost use Rattle.std.specs.Prelude.{◌≡◌, ◌+◌, ◌-◌, ◌/◌, ◌%◌, ◌<◌, ◌≤◌, length, take, set, get_or};
ghost use Rattle.base.specs.Laid.{over};
ghost use Rattle.rows.specs.Guards.{node_at, NodesIn};
ghost use Rattle.thresholds.specs.Lent.{lists_of};
ghost use Rattle.thresholds.specs.Raw.{prints, fingerprint};
ghost use Rattle.rows.specs.Lists.{list_at};
ghost use Rattle.thresholds.specs.Tree.{link_in, class_of, Came, Finds, linked_marks, linked_heads};
ghost use Rattle.job.specs.Shared.{row_to, row_entry, node_entry, nodes_to};
ghost use Rattle.placing.specs.Place.{Placing, Ready, Blank, row_ends, nodes_next, rows_next};
ghost use Rattle.placing.specs.Lent.{PlacingIn, ReadyIn, SameLengths, SamePlaces};

use rows::{end_of, node_of, start_of};
use thresholds::{RawLists, SHORTS, class_of, with_link};

// How many rows there are, and where their terms end.
#[derive(Clone, Copy)]
pub struct Extent {
    pub rows: usize,
    pub end: usize,
}

// What placing fills: the terms of the rows, the end of each, and the nodes of the thresholds; and what it works with: the scratch, whose first
// words become the marks of the rows, and the first row of each class of raw lists.
#[derive(Drop)]
struct Places<'a> {
    row_conditions: &'a mut [u16],
    row_weights: &'a mut [u64],
    rows: &'a mut [[u16; 3]],
    nodes: &'a mut [[u16; 3]],
    scratch: &'a mut [u64],
    heads: &'a mut [u16],
}

// The node of threshold t names the threshold, counted from 1, and its row.
fn enter_node(thresholds: &[[u16; 2]], t: usize, row: usize, nodes: &mut [[u16; 3]])
    requires { (t < length thresholds.now) × (t < 1024) × (row < 65536) × (node_at thresholds.now t < length nodes.old) }
    ensures { nodes.new ≡ set nodes.old (node_at thresholds.now t) (node_entry t row) }
{
    let node = node_of(thresholds, t);
    let entry = [(t + 1) as u16, row as u16, 0];
    nodes[node] = entry;
}

// The row is put at the link where the search for its list ended: at the head of its class, or at a side of another row's mark. A link is one
// number, 0 or 3 times the other row, counted from 1, and its side, as the theorems on the tree of rows speak of it (`Came`, `linked_marks`).
fn link_row(print: u64, link: usize, row: usize, heads: &mut [u16], marks: &mut [u64])
    requires { (print < prints) × (row < 1024) × (1024 ≤ length heads.old)
        × (0 < link → (link / 3 - 1 < length marks.old) × (0 < link / 3) × (link_in (link % 3) (get_or marks.old (link / 3 - 1) 0) ≡ 0)) }
    ensures { (heads.new ≡ linked_heads link (class_of print) (row + 1) heads.old)
        × (marks.new ≡ linked_marks link (row + 1) marks.old) }
{
    if link == 0 {
        let class = class_of(print);
        heads[class] = (row + 1) as u16;
        return;
    }
    let at = link / 3 - 1;
    marks[at] = with_link(marks[at], link % 3, row + 1);
}

impl Places<'_> {
    // The raw list of threshold t makes the next row: its terms behind the others, their end, and the mark by which the list is found again.
    fn add_row(
        &mut self,
        lists: RawLists<'_>,
        t: usize,
        print: u64,
        link: usize,
        so: Extent,
    ) -> Extent
        requires { (ReadyIn (lists_of lists) self.old)
            × (t < length lists.thresholds.now) × (print ≡ fingerprint (list_at (lists_of lists) t))
            × (PlacingIn (lists_of lists) t so self.old)
            × (row_to (lists_of lists) t ≡ so.rows)
            × (Came (lists_of lists) (take so.rows self.old.scratch.now) self.old.heads.now (list_at (lists_of lists) t) link 0) }
        ensures placed { (PlacingIn (lists_of lists.entry) (t + 1) result self.new)
            × (self.new.rows.now ≡ set self.old.rows.now so.rows (row_entry result.end))
            × (self.new.nodes.now ≡ self.old.nodes.now) }
        ensures lengths { SameLengths self.old self.new }
        ensures lent { SamePlaces self.old self.new }
    {
        let row = so.rows;
        let at = so.end;
        let a = start_of(lists.thresholds, t);
        let e = end_of(lists.thresholds, t);
        let end = lists.build_at(
            a,
            e,
            at,
            self.row_conditions,
            self.row_weights,
            self.scratch,
        );
        let entry = [end as u16, 0, 0];
        self.rows[row] = entry;
        link_row(print, link, row, self.heads, self.scratch);
        self.scratch[row] = print % SHORTS * 1024 + t as u64;
        Extent { rows: row + 1, end }
    }

    // The row so far that has the raw list of threshold t; else the link at which a row with this list belongs.
    fn find_row(
        &self,
        lists: RawLists<'_>,
        t: usize,
        print: u64,
        so: Extent,
    ) -> Result<usize, usize>
        requires { (ReadyIn (lists_of lists) self.now)
            × (t < length lists.thresholds.now) × (print ≡ fingerprint (list_at (lists_of lists) t))
            × (PlacingIn (lists_of lists) t so self.now) }
        ensures { Finds (lists_of lists.entry) (take so.rows self.now.scratch.now) self.now.heads.now (list_at (lists_of lists.entry) t) result }
    {
        let count = so.rows;
        lists.find_row(&self.scratch[..count], self.heads, print, t)
    }

    // Threshold t joins the row of its raw list, or makes the next row.
    fn place_one(&mut self, lists: RawLists<'_>, t: usize, so: Extent) -> Extent
        requires { (ReadyIn (lists_of lists) self.old)
            × (t < length lists.thresholds.now) × (node_at lists.thresholds.now t < length self.old.nodes.now)
            × (PlacingIn (lists_of lists) t so self.old) }
        ensures placed { (PlacingIn (lists_of lists.entry) (t + 1) result self.new)
            × (self.new.rows.now ≡ rows_next (lists_of lists.entry) t self.old.rows.now)
            × (self.new.nodes.now ≡ nodes_next (lists_of lists.entry) t self.old.nodes.now) }
        ensures lengths { SameLengths self.old self.new }
        ensures lent { SamePlaces self.old self.new }
    {
        let count = so.rows;
        let print = lists.print_of(t);
        let found = self.find_row(lists, t, print, so);
        match found {
            Ok(row) => {
                enter_node(lists.thresholds, t, row, self.nodes);
                so
            }
            Err(link) => {
                enter_node(lists.thresholds, t, count, self.nodes);
                self.add_row(lists, t, print, link, so)
            }
        }
    }

    // All thresholds, in their order.
    fn place_rows(&mut self, lists: RawLists<'_>) -> Extent
        requires { (ReadyIn (lists_of lists) self.old)
            × (NodesIn lists.thresholds.now self.old.nodes.now) × (Blank self.old.row_conditions.now) × (Blank self.old.row_weights.now)
            × (Blank self.old.scratch.now) × (Blank self.old.heads.now) × (1024 ≤ length self.old.heads.now) }
        ensures placed { (PlacingIn (lists_of lists.entry) (length lists.entry.thresholds.now) result self.new)
            × (self.new.rows.now ≡ over (row_ends (lists_of lists.entry) (length lists.entry.thresholds.now)) self.old.rows.now)
            × (self.new.nodes.now ≡ nodes_to (lists_of lists.entry) self.old.nodes.now (length lists.entry.thresholds.now)) }
        ensures lengths { SameLengths self.old self.new }
        ensures lent { SamePlaces self.old self.new }
    {
        let mut so = Extent { rows: 0, end: 0 };
        for t in 0..lists.thresholds.len() {
            so = self.place_one(lists, t, so);
        }
        so
    }
}

// All thresholds, in their order. The marks of the rows stay in the scratch, the first row of each class in the heads. The buffers come one by one:
// what a cut of a slice becomes is known where a call takes the cut, and not where a struct does.
pub fn place_rows(
    lists: RawLists<'_>,
    row_conditions: &mut [u16],
    row_weights: &mut [u64],
    rows: &mut [[u16; 3]],
    nodes: &mut [[u16; 3]],
    scratch: &mut [u64],
    heads: &mut [u16],
) -> Extent
    requires { (Ready (lists_of lists) row_conditions.old row_weights.old rows.old scratch.old)
        × (NodesIn lists.thresholds.now nodes.old) × (Blank row_conditions.old) × (Blank row_weights.old) × (Blank scratch.old)
        × (Blank heads.old) × (1024 ≤ length heads.old) }
    ensures { (Placing (lists_of lists.entry) (length lists.entry.thresholds.now) result
        row_conditions.new row_weights.new scratch.new heads.new)
        × (rows.new ≡ over (row_ends (lists_of lists.entry) (length lists.entry.thresholds.now)) rows.old)
        × (nodes.new ≡ nodes_to (lists_of lists.entry) nodes.old (length lists.entry.thresholds.now)) }
{
    let mut places = Places {
        row_conditions,
        row_weights,
        rows,
        nodes,
        scratch,
        heads,
    };
    places.place_rows(lists)
}
