// Sifting over the buffers: `sift` of regions.rs. Rows that wait for it are tried between settlings.
#![tactic(auto)]

ghost use Rattle.std.specs.Prelude.{◌≡◌, ◌≤◌, length};
ghost use Rattle.memory.specs.Limits.{list_terms};
ghost use Rattle.rows.specs.Lent.{terms_of};
ghost use Rattle.state.specs.Shape.{Figures};
ghost use Rattle.queues.specs.Queue.{queue};
ghost use Rattle.queues.specs.Marks.{marks};
ghost use Rattle.queues.specs.Waiting.{Waits};
ghost use Rattle.row_runs.specs.Shape.{TermSlices};
ghost use Rattle.row_moves.specs.Between.{Index};
ghost use Rattle.row_moves.specs.Lent.{held_of, built_of, live_in, TidyIn, SameLent};
ghost use Rattle.row_moves.specs.Held.{Holds};
ghost use Rattle.drain.specs.Sift.{sifted, try_row, sift as sifts};
ghost use Rattle.theorem_keeps.specs.Serves.{Serves, Going};
ghost use Rattle.theorem_keeps.specs.Tries.{Scratch, Short, Tries, tried, round, once};

use queues::RowQueue;
use row_moves::{Built, HeldRows, Live};
use rows::Terms;
use state::{State, Step};

// What a sifting came to, or a row that was tried: the answer, and the visits of the last search.
#[derive(Clone, Copy)]
pub struct Sifted {
    pub step: Step,
    pub visits: usize,
}

// A drained row, by its terms and its state: divisibility, and if that leaves all as it was, a search.
fn try_terms(
    terms: Terms<'_>,
    state: State,
    live: &mut Live<'_>,
    gcds: &mut [u64],
    search: &mut [u64],
    visits: usize,
) -> Sifted
    requires { TermSlices terms.conditions.now terms.weights.now × (length terms.weights.now ≤ list_terms) × Figures state
        × Waits (marks live.old.sure.now live.old.never.now (queue live.old.node_queue.now live.old.rings.nodes)) × Scratch gcds.old search.old }
    ensures tried { sifted (live_in live.new) gcds.new result.step result.visits ≡ tried (terms_of terms.entry) state (live_in live.old) gcds.old visits }
    ensures kept { (TidyIn live.old → TidyIn live.new) × (search.new ≡ search.old) }
    ensures lent { SameLent live.old live.new }
{
    let ring = live.rings.nodes;
    let forced = residual::threshold_residual(
        terms,
        state,
        live.sure,
        live.never,
        live.node_queue,
        ring,
        gcds,
    );
    live.rings.nodes = forced.ring;
    let step = forced.step;
    let number = u8::from(step);
    let changed = number != 0;
    if changed {
        return Sifted { step, visits };
    }
    let sure = &mut *live.sure;
    let never = &mut *live.never;
    let found = possible_sums::threshold_possible_sums(terms, state, sure, never, search);
    Sifted {
        step: found.step(),
        visits: found.visits(visits),
    }
}

// The oldest row that waits for it is tried.
fn try_row(
    held: HeldRows<'_>,
    live: &mut Live<'_>,
    gcds: &mut [u64],
    search: &mut [u64],
    visits: usize,
) -> Sifted
    requires { Tries (held_of held) (live_in live.old) gcds.old search.old }
    ensures tried { (x : Index) → Holds x (held_of held.entry)
        → sifted (live_in live.new) gcds.new result.step result.visits ≡ try_row x (live_in live.old) gcds.old visits }
    ensures kept { (TidyIn live.old → TidyIn live.new) × (search.new ≡ search.old) }
    ensures lent { SameLent live.old live.new }
{
    let residuals = live.rings.residuals;
    let row_queues = &mut *live.row_queues;
    let row = settle::oldest_row(row_queues, RowQueue::Residuals.first_column(), residuals);
    live.rings.residuals = queues::next_row(row_queues, RowQueue::Residuals, residuals);
    let state = live.state(row);
    try_terms(held.terms(row), state, live, gcds, search, visits)
}

// What a round came to, and whether there is another: a field and no pair of variants, as in the definition `once`, where a round that
// contradicts can have another behind it.
#[derive(Clone, Copy)]
pub struct Round {
    pub step: Step,
    pub visits: usize,
    pub more: bool,
}

// One round: settle, then try a row if one waits.
fn sift_once(
    built: Built<'_>,
    live: &mut Live<'_>,
    gcds: &mut [u64],
    search: &mut [u64],
    visits: usize,
) -> Round
    requires short { ((x : Index) × Serves x built.bounds.now (built_of built)) × Short built.held.rows.now × Scratch gcds.old search.old }
    requires going { Going (held_of built.held) built.nodes.now (live_in live.old) }
    ensures sifted { (x : Index) → Serves x built.entry.bounds.now (built_of built.entry)
        → round (sifted (live_in live.new) gcds.new result.step result.visits) result.more ≡ once x (live_in live.old) gcds.old visits }
    ensures kept { (TidyIn live.old → TidyIn live.new) × (search.new ≡ search.old) }
    ensures lent { SameLent live.old live.new }
{
    let step = settle::settle(built, live);
    if step.contradicts() {
        return Round {
            step,
            visits,
            more: false,
        };
    }
    let count = live.rings.residuals.count;
    if count == 0 {
        return Round {
            step,
            visits,
            more: false,
        };
    }
    let tried = try_row(built.held, live, gcds, search, visits);
    Round {
        step: step.join(tried.step),
        visits: tried.visits,
        more: true,
    }
}

// Rounds until no row waits or one contradicts.
pub fn sift(built: Built<'_>, live: &mut Live<'_>, gcds: &mut [u64], search: &mut [u64]) -> Sifted
    requires short { ((x : Index) × Serves x built.bounds.now (built_of built)) × Short built.held.rows.now × Scratch gcds.old search.old }
    requires going { Going (held_of built.held) built.nodes.now (live_in live.old) }
    ensures sifted { (x : Index) → Serves x built.entry.bounds.now (built_of built.entry)
        → sifted (live_in live.new) gcds.new result.step result.visits ≡ sifts x (live_in live.old) gcds.old }
    ensures kept { (TidyIn live.old → TidyIn live.new) × (search.new ≡ search.old) }
    ensures lent { SameLent live.old live.new }
{
    let mut so_far = Sifted {
        step: Step::Unchanged,
        visits: 0,
    };
    let mut more = true;
    // Until a round says that it is the last.
    while more {
        let round = sift_once(built, live, gcds, search, so_far.visits);
        let Round { step, visits, .. } = round;
        if step.contradicts() {
            return Sifted { step, visits };
        }
        so_far = Sifted {
            step: so_far.step.join(step),
            visits,
        };
        more = round.more;
    }
    so_far
}
