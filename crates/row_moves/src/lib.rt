// A row at its place in the buffers: its state loaded, the row run, its state stored (`threshold_row` of propagate.rs, over the buffers).
#![tactic(auto)]

ghost use Rattle.std.specs.Prelude.{◌≡◌, cond, true, ℕ, ◌<◌, ◌≤◌, length, get_or, set, List, []};
ghost use Rattle.base.specs.Columns.{column};
ghost use Rattle.numeric.specs.Threshold.{Term};
ghost use Rattle.state.specs.State.{limit, limited, no_state, figures_of, cursors_of};
ghost use Rattle.queues.specs.declared.Ring.{Ring};
ghost use Rattle.queues.specs.Queue.{Queue, queue};
ghost use Rattle.queues.specs.Slot.{rows_in};
ghost use Rattle.queues.specs.Shape.{Held};
ghost use Rattle.queues.specs.Marks.{marks};
ghost use Rattle.queues.specs.Waiting.{Waits};
ghost use Rattle.rows.specs.Rows.{Guard, row_of};
ghost use Rattle.rows.specs.Lent.{terms_of};
ghost use Rattle.row_moves.specs.Between.{did, with_state, residual_queued, run_with};
ghost use Rattle.row_moves.specs.Stored.{sum_words, cursor_words};
ghost use Rattle.row_moves.specs.Numbers.{row_state, states_of, Runs};
ghost use Rattle.row_moves.specs.Lent.{held_of, held_by, live_in, TidyIn, SameLent};
ghost use Rattle.memory.specs.Ranges.{figure_limit};
ghost use Rattle.row_moves.specs.Held.{held_row, stretch_by, Inside, Shaped};
ghost use Rattle.row_moves.specs.Ready.{Fit, Ready, ReadyLive};
ghost use Rattle.row_runs.specs.Shape.{TermSlices, GuardSlices};
ghost use Rattle.row_runs.specs.Lent.{row_in};
ghost use Rattle.resting.specs.Rest.{Rests};

use queues::{Ring, Rings, RowQueue};
use row_runs::{Guards, Row};
use rows::Terms;
use state::{State, Step};

// The rows as a seal built them, which nothing changes after: all terms one behind the other, for each row where its terms, its guards and its
// neighbours end, and all guards.
#[derive(Clone, Copy)]
pub struct HeldRows<'a> {
    pub row_conditions: &'a [u16],
    pub row_weights: &'a [u64],
    pub rows: &'a [[u16; 3]],
    pub guard_bounds: &'a [i64],
    pub guard_nodes: &'a [u16],
}

impl<'a> HeldRows<'a> {
    // A row's own terms.
    pub fn terms(self, row: usize) -> Terms<'a>
        requires { Inside 0 self.rows.now (length self.row_conditions.now) × (length self.row_weights.now ≡ length self.row_conditions.now)
            × (row < length self.rows.now) }
        ensures { (result.conditions.now ≡ stretch_by 0 self.entry.rows.now row self.entry.row_conditions.now)
            × (result.weights.now ≡ stretch_by 0 self.entry.rows.now row self.entry.row_weights.now) }
    {
        let a = rows::terms_start(self.rows, row);
        let e = rows::terms_end(self.rows, row);
        Terms {
            conditions: &self.row_conditions[a..e],
            weights: &self.row_weights[a..e],
        }
    }

    // A row's own guards.
    fn guards(self, row: usize) -> Guards<'a>
        requires { Inside 1 self.rows.now (length self.guard_bounds.now) × (length self.guard_nodes.now ≡ length self.guard_bounds.now)
            × (row < length self.rows.now) }
        ensures { (result.bounds.now ≡ stretch_by 1 self.entry.rows.now row self.entry.guard_bounds.now)
            × (result.nodes.now ≡ stretch_by 1 self.entry.rows.now row self.entry.guard_nodes.now) }
    {
        let b = rows::guards_start(self.rows, row);
        let f = rows::guards_end(self.rows, row);
        Guards {
            bounds: &self.guard_bounds[b..f],
            nodes: &self.guard_nodes[b..f],
        }
    }

    // Whether one look at a row with this state tells that its run would change nothing. The masks are only read, and no node of a guard is.
    pub fn rests(self, row: usize, state: State, sure: &[u64], never: &[u64]) -> bool
        requires { ((ns : List ℕ) × Shaped (held_by self ns) × Fit (held_by self ns) figure_limit row state)
            × (row < length self.rows.now) × (64 ≤ length sure.now) × (64 ≤ length never.now) }
        ensures { result ≡ true → (ns : List ℕ) (q : Queue) → Shaped (held_by self.entry ns)
            → Rests (held_row (held_by self.entry ns) row) state (marks sure.now never.now q) }
    {
        let b = rows::guards_start(self.rows, row);
        let f = rows::guards_end(self.rows, row);
        let terms = self.terms(row);
        resting::rests(terms, &self.guard_bounds[b..f], state, sure, never)
    }
}

// All that a seal built, and the bounds of the thresholds.
#[derive(Clone, Copy)]
pub struct Built<'a> {
    pub held: HeldRows<'a>,
    pub nodes: &'a [[u16; 3]],
    pub bounds: &'a [i64],
    pub edges: &'a [[u64; 2]],
    pub links: &'a [u16],
}

// What draining changes: the rows' states, the decided nodes, the queues and where these stand.
#[derive(Drop)]
pub struct Live<'a> {
    pub figures: &'a mut [[i64; 4]],
    pub cursors: &'a mut [[usize; 5]],
    pub sure: &'a mut [u64],
    pub never: &'a mut [u64],
    pub node_queue: &'a mut [u16],
    pub row_queues: &'a mut [[u16; 4]],
    pub rings: Rings,
}

// A row state from its figures and cursors.
fn make(figures: [i64; 4], cursors: [usize; 5]) -> State
    ensures { result ≡ row_state figures cursors }
{
    let limit = figures[3];
    let limited = cursors[4] == 1;
    let upper = if limited { Some(limit) } else { None };
    State {
        known: figures[0],
        possible: figures[1],
        lower: figures[2],
        upper,
        sure_guard: cursors[0],
        never_guard: cursors[1],
        true_term: cursors[2],
        false_term: cursors[3],
    }
}

// The state of a row, read from the buffers.
pub fn load(figures: &[[i64; 4]], cursors: &[[usize; 5]], row: usize) -> State
    requires { row < length (states_of figures.now cursors.now) }
    ensures { result ≡ get_or (states_of figures.now cursors.now) row no_state }
{
    let f = figures[row];
    let c = cursors[row];
    make(f, c)
}

// The state of a row, written to the buffers: the limit, 0 where there is none, and whether there is one.
pub fn store(figures: &mut [[i64; 4]], cursors: &mut [[usize; 5]], row: usize, state: State)
    requires { row < length (states_of figures.old cursors.old) }
    ensures { (figures.new ≡ set figures.old row (figures_of state)) × (cursors.new ≡ set cursors.old row (cursors_of state)) }
{
    let limit = state.upper.unwrap_or(0);
    let flag = usize::from(state.upper.is_some());
    figures[row] = [state.known, state.possible, state.lower, limit];
    cursors[row] = [
        state.sure_guard,
        state.never_guard,
        state.true_term,
        state.false_term,
        flag,
    ];
}

// The sums of a row, written to the buffer; its other words stay.
pub fn store_sums(figures: &mut [[i64; 4]], row: usize, known: i64, possible: i64)
    requires { row < length figures.old }
    ensures { figures.new ≡ set figures.old row (sum_words (get_or figures.old row []) known possible) }
{
    let old = figures[row];
    figures[row] = [known, possible, old[2], old[3]];
}

// The cursors of a row, written to the buffer; its flag stays.
fn store_cursors(cursors: &mut [[usize; 5]], row: usize, state: State)
    requires { row < length cursors.old }
    ensures { cursors.new ≡ set cursors.old row (cursor_words (get_or cursors.old row []) state) }
{
    let old = cursors[row];
    let State {
        sure_guard,
        never_guard,
        true_term,
        false_term,
        ..
    } = state;
    cursors[row] = [sure_guard, never_guard, true_term, false_term, old[4]];
}

// A row that wants a residual waits for it.
fn queue_residual(
    terms: Terms<'_>,
    row_queues: &mut [[u16; 4]],
    ring: Ring,
    state: State,
    row: usize,
) -> Ring
    requires { (length terms.conditions.now ≡ length terms.weights.now) × Held 1024 (queue (column 2 row_queues.old) ring) × (row < 1024) }
    ensures { ((raw : List Term) (gs : List Guard) → rows_in 2 row_queues.new result
        ≡ residual_queued (row_of raw (terms_of terms.entry) gs) state (rows_in 2 row_queues.old ring) row)
        × ((other : Ring) → rows_in 0 row_queues.new other ≡ rows_in 0 row_queues.old other) }
{
    if row_runs::wants_residual(terms, state) {
        return queues::queue_row(row_queues, RowQueue::Residuals, ring, row);
    }
    ring
}

impl Live<'_> {
    // The state of a row.
    pub fn state(&self, row: usize) -> State
        requires { row < length (states_of self.now.figures.now self.now.cursors.now) }
        ensures { result ≡ get_or (states_of self.now.figures.now self.now.cursors.now) row no_state }
    {
        load(self.figures, self.cursors, row)
    }

    // One row, read from the buffers, run once and written back. The queue of rows that wait to hand on their bounds is not looked at, wherever
    // it stands.
    fn run_row(&mut self, own: Row<'_>, row: usize) -> Step
        requires row_in_bounds { (row < length (states_of self.old.figures.now self.old.cursors.now)) × TermSlices own.terms.conditions.now own.terms.weights.now × GuardSlices own.guards.bounds.now own.guards.nodes.now }
        requires runs { Runs (get_or (states_of self.old.figures.now self.old.cursors.now) row no_state) own.guards.bounds.now
            × Waits (marks self.old.sure.now self.old.never.now (queue self.old.node_queue.now self.old.rings.nodes)) }
        requires held { Held 1024 (queue (column 2 self.old.row_queues.now) self.old.rings.residuals) × (row < 1024) }
        ensures ran { (did (live_in self.new) result
            ≡ run_with (row_in [] own.entry) (live_in self.old) row)
            × (TidyIn self.old → TidyIn self.new) }
        ensures lent { SameLent self.old self.new }
    {
        let state = self.state(row);
        let Rings {
            nodes,
            residuals,
            ..
        } = self.rings;
        let left = queue_residual(own.terms, self.row_queues, residuals, state, row);
        let ran = propagate::threshold_row(
            own,
            state,
            self.sure,
            self.never,
            self.node_queue,
            nodes,
        );
        store_cursors(self.cursors, row, ran.state);
        self.rings.nodes = ran.ring;
        self.rings.residuals = left;
        ran.step
    }

    // A row run with its own stretches of the terms and the guards.
    fn run_cut(&mut self, held: HeldRows<'_>, row: usize) -> Step
        requires shaped { Shaped (held_of held) × (row < length held.rows.now) }
        requires ready_live { ReadyLive (held_of held) figure_limit (live_in self.old) }
        ensures ran { (did (live_in self.new) result ≡ run_with (held_row (held_of held.entry) row) (live_in self.old) row) × (TidyIn self.old → TidyIn self.new) }
        ensures lent { SameLent self.old self.new }
    {
        let own = Row {
            terms: held.terms(row),
            guards: held.guards(row),
        };
        self.run_row(own, row)
    }

    // `HeldRows::rests`, by the masks of `self`.
    pub fn rests(&self, held: HeldRows<'_>, row: usize, state: State) -> bool
        requires { ((ns : List ℕ) × Shaped (held_by held ns) × Fit (held_by held ns) figure_limit row state)
            × (row < length held.rows.now) × (64 ≤ length self.now.sure.now) × (64 ≤ length self.now.never.now) }
        ensures { result ≡ true → (ns : List ℕ) (q : Queue) → Shaped (held_by held.entry ns)
            → Rests (held_row (held_by held.entry ns) row) state (marks self.now.sure.now self.now.never.now q) }
    {
        held.rests(row, state, self.sure, self.never)
    }

    // A row run. One that rests is not run.
    pub fn run(&mut self, held: HeldRows<'_>, row: usize) -> Step
        requires shaped { Shaped (held_of held) × (row < length held.rows.now) }
        requires ready_live { ReadyLive (held_of held) figure_limit (live_in self.old) }
        ensures ran { (did (live_in self.new) result ≡ run_with (held_row (held_of held.entry) row) (live_in self.old) row) × (TidyIn self.old → TidyIn self.new) }
        ensures lent { SameLent self.old self.new }
    {
        let state = self.state(row);
        if self.rests(held, row, state) {
            return Step::Unchanged;
        }
        self.run_cut(held, row)
    }

    // A state is stored, and its row run.
    pub fn run_from(&mut self, held: HeldRows<'_>, row: usize, state: State) -> Step
        requires shaped { Shaped (held_of held) × (row < length held.rows.now) × Fit (held_of held) figure_limit row state }
        requires ready_live { ReadyLive (held_of held) figure_limit (live_in self.old) }
        ensures ran { (did (live_in self.new) result ≡ run_with (held_row (held_of held.entry) row) (with_state (live_in self.old) row state) row)
            × (TidyIn self.old → TidyIn self.new) }
        ensures lent { SameLent self.old self.new }
    {
        store(self.figures, self.cursors, row, state);
        self.run_cut(held, row)
    }
}
