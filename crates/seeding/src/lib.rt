// What a seal does to rows: their first states, and each run once in order (`seed_thresholds` of propagate.rs).
#![tactic(auto)]

ghost use Rattle.std.specs.Prelude.{◌≡◌, ℕ, ◌-◌, ◌<◌, ◌≤◌, length, List, ℤ};
ghost use Rattle.memory.specs.Buffers.{held_rows};
ghost use Rattle.numeric.specs.Slices.{terms};
ghost use Rattle.row.specs.Terms.{total};
ghost use Rattle.row_moves.specs.Between.{Index, did, first_states, seed_from};
ghost use Rattle.row_moves.specs.Numbers.{states_of, Tidy};
ghost use Rattle.row_moves.specs.Lent.{held_of, live_in, TidyIn, SameLent};
ghost use Rattle.memory.specs.Ranges.{figure_limit, room_limit};
ghost use Rattle.row_moves.specs.Held.{stretch_by, Inside, Rising, Shaped, Holds};
ghost use Rattle.row_moves.specs.Ready.{ReadyLive, first_at, Totals};

use row_moves::{HeldRows, Live};
use state::{State, Step};

// The first state of a row: nothing is drained and nothing required.
fn first_at(held: HeldRows<'_>, row: usize) -> State
    requires { Inside 0 held.rows.now (length held.row_conditions.now) × (length held.row_weights.now ≡ length held.row_conditions.now)
        × Rising 1 held.rows.now × (row < length held.rows.now)
        × (total (terms (stretch_by 0 held.rows.now row held.row_conditions.now) (stretch_by 0 held.rows.now row held.row_weights.now)) < room_limit) }
    ensures { result ≡ first_at held.entry.row_conditions.now held.entry.row_weights.now held.entry.rows.now row }
{
    let total = held.terms(row).total();
    let guards = rows::guards_count(held.rows, row);
    State::first(total, guards)
}

// The first states of all rows.
pub fn first_states(held: HeldRows<'_>, figures: &mut [[i64; 4]], cursors: &mut [[usize; 5]])
    requires { Inside 0 held.rows.now (length held.row_conditions.now) × (length held.row_weights.now ≡ length held.row_conditions.now)
        × Rising 1 held.rows.now × (length held.rows.now ≤ 1024)
        × Totals (room_limit) held.row_conditions.now held.row_weights.now held.rows.now × (length held.rows.now ≤ length (states_of figures.old cursors.old)) }
    ensures { ((x : Index) (bs : List ℤ) (ns : List ℕ)
        → Shaped (held_rows held.entry.row_conditions.now held.entry.row_weights.now held.entry.rows.now bs ns)
        → Holds x (held_rows held.entry.row_conditions.now held.entry.row_weights.now held.entry.rows.now bs ns)
        → states_of figures.new cursors.new ≡ first_states 0 x.rows (states_of figures.old cursors.old))
        × (Tidy figures.old cursors.old → Tidy figures.new cursors.new) }
{
    for at in 0..held.rows.len() {
        let state = first_at(held, at);
        row_moves::store(figures, cursors, at, state);
    }
}

// `seed_thresholds`: each row is run once, in order, up to a contradiction.
pub fn seed_thresholds(held: HeldRows<'_>, live: &mut Live<'_>) -> Step
    requires shaped { Shaped (held_of held) }
    requires ready_live { ReadyLive (held_of held) figure_limit (live_in live.old) }
    ensures ran { ((x : Index) → Holds x (held_of held.entry)
        → did (live_in live.new) result ≡ seed_from x 0 x.rows (live_in live.old) Step.Unchanged)
        × (TidyIn live.old → TidyIn live.new) }
    ensures lent { SameLent live.old live.new }
{
    let mut so_far = Step::Unchanged;
    for row in 0..held.rows.len() {
        let step = live.run(held, row);
        if step.contradicts() {
            return step;
        }
        so_far = so_far.join(step);
    }
    so_far
}
