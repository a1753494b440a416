// Whether a row's run would change nothing, by one look at each of its cursors.
#![tactic(auto)]

ghost use Rattle.std.specs.Prelude.{◌≡◌, true, false, ℕ, ◌-◌, ◌<◌, ◌≤◌, length, drop, List, []};
ghost use Rattle.state.specs.Shape.{Figures};
ghost use Rattle.queues.specs.Queue.{Queue};
ghost use Rattle.queues.specs.Marks.{marks, decided};
ghost use Rattle.rows.specs.Rows.{row_of};
ghost use Rattle.rows.specs.Lent.{terms_of};
ghost use Rattle.state.specs.declared.Step.TheVariants.{Unchanged};
ghost use Rattle.row_runs.specs.Scan.{scanned};
ghost use Rattle.row_runs.specs.Turns.{light};
ghost use Rattle.row_runs.specs.Shape.{TermSlices};
ghost use Rattle.row_runs.specs.Guards.{guards};
ghost use Rattle.resting.specs.Rest.{Rests, UpRests, DownRests, TrueRests};
ghost use Rattle.row_runs.specs.Row.{forced};

use row_runs::Cutoff;
use rows::Terms;
use state::State;

// The next guard from below waits, or none is left.
fn up_rests(bounds: &[i64], state: State) -> bool
    ensures { result ≡ true → UpRests bounds.now state }
{
    let at = state.sure_guard;
    at >= bounds.len() || row_runs::sure_waits(state, bounds[at])
}

// The next guard from above waits, or none is left.
fn down_rests(bounds: &[i64], state: State) -> bool
    requires { state.never_guard ≤ length bounds.now }
    ensures { result ≡ true → DownRests bounds.now state }
{
    let at = state.never_guard;
    at == 0 || row_runs::never_waits(state, bounds[at - 1])
}

// The term at the cursor waits, or none is left.
fn term_rests(terms: Terms<'_>, at: usize, cutoff: Cutoff, sure: &[u64], never: &[u64]) -> bool
    requires { TermSlices terms.conditions.now terms.weights.now × (64 ≤ length sure.now) × (64 ≤ length never.now) }
    ensures { result ≡ true → (q : Queue) → forced cutoff.value (light cutoff) (drop at (terms_of terms.entry)) (marks sure.now never.now q)
        ≡ scanned 0 (marks sure.now never.now q) Unchanged }
{
    at >= terms.weights.len()
        || (!words::decided(sure, never, terms.conditions[at]) && cutoff.waits(terms.weights[at]))
}

// No term must be sure that is not yet.
fn true_rests(terms: Terms<'_>, state: State, sure: &[u64], never: &[u64]) -> bool
    requires { TermSlices terms.conditions.now terms.weights.now × Figures state × (64 ≤ length sure.now) × (64 ≤ length never.now) }
    ensures { result ≡ true → (q : Queue) → TrueRests (terms_of terms.entry) state (marks sure.now never.now q) }
{
    if state.known >= state.lower {
        return true;
    }
    let cutoff = Cutoff {
        value: true,
        weight: state.possible - state.lower,
    };
    term_rests(terms, state.true_term, cutoff, sure, never)
}

// No scan of a row with no upper would pass a place.
fn scans_rest(terms: Terms<'_>, bounds: &[i64], state: State, sure: &[u64], never: &[u64]) -> bool
    requires { TermSlices terms.conditions.now terms.weights.now × Figures state × (state.never_guard ≤ length bounds.now) × (64 ≤ length sure.now) × (64 ≤ length never.now) }
    ensures { result ≡ true → UpRests bounds.now state × DownRests bounds.now state
        × ((q : Queue) → TrueRests (terms_of terms.entry) state (marks sure.now never.now q)) }
{
    up_rests(bounds, state) && down_rests(bounds, state) && true_rests(terms, state, sure, never)
}

// Whether one look at each cursor tells that the row's run would change nothing; of a row with an upper that is not asked.
pub fn rests(terms: Terms<'_>, bounds: &[i64], state: State, sure: &[u64], never: &[u64]) -> bool
    requires { TermSlices terms.conditions.now terms.weights.now × Figures state × (state.never_guard ≤ length bounds.now) × (64 ≤ length sure.now) × (64 ≤ length never.now) }
    ensures { result ≡ true → (ns : List ℕ) (q : Queue) → length bounds.now ≡ length ns
        → Rests (row_of [] (terms_of terms.entry) (guards bounds.now ns)) state (marks sure.now never.now q) }
{
    if state.upper.is_some() || state.possible < state.lower {
        return false;
    }
    scans_rest(terms, bounds, state, sure, never)
}
