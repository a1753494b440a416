// One row run once, as a value: scans of guards and terms, their laws; and the tests that its code makes of a state.
#![tactic(auto)]

ghost use Rattle.std.specs.Prelude.{◌≡◌, false, ◌-◌, ◌<◌, ◌^◌, length, List};
ghost use Rattle.std.specs.Int.Signed.{lt_z};
ghost use Rattle.numeric.specs.Threshold.{Term};
ghost use Rattle.state.specs.State.{reached};
ghost use Rattle.rows.specs.Rows.{Guard, row_of};
ghost use Rattle.rows.specs.Lent.{terms_of};
ghost use Rattle.row_runs.specs.Turns.{light};
ghost use Rattle.row_runs.specs.Row.{reachable, wants_residual};

use rows::Terms;
use state::State;

// The guards of one row, by rising bounds. They are two buffers since C lends them so.
#[derive(Clone, Copy)]
pub struct Guards<'a> {
    pub bounds: &'a [i64],
    pub nodes: &'a [u16],
}

// One row's own terms and guards.
#[derive(Clone, Copy)]
pub struct Row<'a> {
    pub terms: Terms<'a>,
    pub guards: Guards<'a>,
}

// The bound is above what is reached.
pub fn sure_waits(state: State, bound: i64) -> bool
    ensures { result ≡ lt_z (reached state) bound }
{
    state.reached() < bound
}

// The bound can still be reached: it is possible, and the limit is above it.
pub fn never_waits(state: State, bound: i64) -> bool
    ensures { result ≡ reachable state bound }
{
    state.possible >= bound && !state.upper_at_most(bound)
}

// A weight of this much waits: up to it where sure terms are sought, below it where never ones are. `value` is a field and no
// pair of variants, since it is also what the scan forces its terms to.
#[derive(Clone, Copy)]
pub struct Cutoff {
    pub value: bool,
    pub weight: i64,
}

impl Cutoff {
    pub fn waits(self, weight: u64) -> bool
        requires { weight < 2 ^ 63 }
        ensures { result ≡ light self weight }
    {
        let own = weight as i64;
        if self.value {
            own <= self.weight
        } else {
            own < self.weight
        }
    }
}

// A row in no conflict with a weight above 1 waits for a residual when both its limits cut.
#[tactic(auto, unfolding(crate::specs::Row::wants_residual))]
pub fn wants_residual(terms: Terms<'_>, state: State) -> bool
    requires { length terms.conditions.now ≡ length terms.weights.now }
    ensures { (raw : List Term) (gs : List Guard) → result ≡ wants_residual (row_of raw (terms_of terms.entry) gs) state }
{
    !state.conflict() && terms.has_nonunit() && state.has_residual_interval()
}
