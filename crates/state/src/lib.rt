// What a row knows: `State` of thresholds.rs and `Step` of regions.rs.
#![tactic(auto)]

ghost use Rattle.std.specs.Prelude.{◌≡◌, not, ◌<◌, ◌^◌, Some};
ghost use Rattle.std.specs.Int.Signed.{le_z};
ghost use Rattle.state.specs.Step.{joined, step_number, contradicts};
ghost use Rattle.state.specs.State.{reached, conflict, has_residual_interval, upper_at_most, with_lower, with_upper, with_guards, with_terms, drained, first_state};
ghost use Rattle.state.specs.Shape.{Drains};

// What a record or a step of it did, the strongest last.
#[derive(Clone, Copy, Debug, PartialEq, Eq, PartialOrd, Ord)]
pub enum Step {
    Unchanged,
    Changed,
    Contradiction,
}

// A row's figures, from drained nodes only, and the four cursors of its scans. `upper` is the exclusive upper limit of the row's sum,
// if there is one.
#[derive(Clone, Copy)]
pub struct State {
    pub known: i64,
    pub possible: i64,
    pub lower: i64,
    pub upper: Option<i64>,
    pub sure_guard: usize,
    pub never_guard: usize,
    pub true_term: usize,
    pub false_term: usize,
}

impl Step {
    // The stronger of two answers.
    pub fn join(self, other: Step) -> Step
        ensures { result ≡ joined self other }
    {
        self.max(other)
    }

    pub fn contradicts(self) -> bool
        ensures { result ≡ contradicts self }
    {
        self == Step::Contradiction
    }
}

// The answers by strength, as the listing writes them.
impl From<Step> for u8 {
    ghost from_gives = { λ step number. number ≡ step_number step };

    fn from(step: Step) -> u8 {
        match step {
            Step::Unchanged => 0,
            Step::Changed => 1,
            Step::Contradiction => 2,
        }
    }
}

impl State {
    // `Row::state`: nothing is drained and nothing required.
    pub fn first(total: u64, guards: usize) -> State
        requires { total < 2 ^ 62 }
        ensures { result ≡ first_state total guards }
    {
        State {
            known: 0,
            possible: total as i64,
            lower: 0,
            upper: None,
            sure_guard: 0,
            never_guard: guards,
            true_term: 0,
            false_term: 0,
        }
    }

    // What is reached already, known or required.
    pub fn reached(self) -> i64
        ensures { result ≡ reached self }
    {
        self.known.max(self.lower)
    }

    // There is an upper limit, and it is at most `bound`.
    pub fn upper_at_most(self, bound: i64) -> bool
        ensures { result ≡ upper_at_most self.upper bound }
    {
        self.upper.is_some_and(|limit| limit <= bound)
    }

    // No sum is left between the limits.
    pub fn conflict(self) -> bool
        ensures { result ≡ conflict self }
    {
        self.lower > self.possible || self.upper_at_most(self.reached())
    }

    // Both limits cut into what is possible, so that sums between them may be missing.
    pub fn has_residual_interval(self) -> bool
        ensures { result ≡ has_residual_interval self }
    {
        self.lower > self.known && self.upper_at_most(self.possible)
    }

    // The bound is above what is required already.
    pub fn needs_lower(self, bound: i64) -> bool
        ensures { result ≡ not (le_z bound self.lower) }
    {
        self.lower < bound
    }

    pub fn with_guards(self, sure_guard: usize, never_guard: usize) -> State
        ensures { result ≡ with_guards self sure_guard never_guard }
    {
        State {
            sure_guard,
            never_guard,
            ..self
        }
    }

    pub fn with_terms(self, true_term: usize, false_term: usize) -> State
        ensures { result ≡ with_terms self true_term false_term }
    {
        State {
            true_term,
            false_term,
            ..self
        }
    }

    // A drained term: a sure one is known, a never one is no longer possible.
    pub fn drained(self, value: bool, weight: u64) -> State
        requires { Drains self weight }
        ensures { result ≡ drained value weight self }
    {
        if value {
            State {
                known: self.known + weight as i64,
                ..self
            }
        } else {
            State {
                possible: self.possible - weight as i64,
                ..self
            }
        }
    }
}

// `threshold_guard` raises lower: the state is lent and altered.
pub fn raise_lower(state: &mut State, bound: i64)
    ensures { state.new ≡ with_lower state.old bound }
{
    state.lower = bound;
}

// `threshold_guard` lowers upper: the state is lent and altered.
pub fn lower_upper(state: &mut State, bound: i64)
    ensures { state.new ≡ with_upper state.old (Some bound) }
{
    state.upper = Some(bound);
}
