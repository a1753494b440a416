// The interval that a row's undecided sums must meet, and its check by divisors, as values; the tests that its code makes.
#![tactic(auto)]

ghost use Rattle.std.specs.Prelude.{◌≡◌, ◌+◌, ◌-◌, ◌^◌, ◌<◌, false, ◌&&◌, eqb, leb};
ghost use Rattle.base.specs.Signed.{natural as naturalOf};
ghost use Rattle.state.specs.State.{limit};
ghost use Rattle.misses.specs.Misses.{misses};
ghost use Rattle.intervals.specs.Shape.{Window};
ghost use Rattle.intervals.specs.Residual.{interval, stops_at, too_wide, both_fit, off_misses, on_misses};

use state::State;

// The figures of a row with a residual interval, none of them negative. `upper` is the last sum allowed, `width` the number
// of sums allowed.
#[derive(Clone, Copy)]
pub struct Interval {
    pub known: u64,
    pub possible: u64,
    pub lower: u64,
    pub upper: u64,
    pub width: u64,
}

fn limit_of(upper: Option<i64>) -> u64
    ensures { result ≡ naturalOf (limit upper) }
{
    base::natural(upper.unwrap_or(0))
}

// The interval of a state's figures.
pub fn interval_of(state: State) -> Interval
    ensures { result ≡ interval state }
{
    let upper = state.upper;
    let limit = limit_of(upper);
    let lower = base::natural(state.lower);
    Interval {
        known: base::natural(state.known),
        possible: base::natural(state.possible),
        lower,
        upper: limit.saturating_sub(1),
        width: limit.saturating_sub(lower),
    }
}

// The first undecided weight is no wider than the interval: then some multiple of any of its divisors lies there.
fn first_fits(i: Interval, divisor: u64, weight: u64) -> bool
    ensures { result ≡ (eqb divisor 0 && leb weight i.width) }
{
    divisor == 0 && weight <= i.width
}

// With this weight a sum is allowed for sure, whatever the weights above it.
pub fn stops(i: Interval, divisor: u64, weight: u64, next: u64) -> bool
    requires { Window i }
    ensures { result ≡ stops_at i divisor weight next }
{
    let upper = i.possible.min(i.upper);
    first_fits(i, divisor, weight)
        || next == 1
        || (next != divisor && !misses::misses(i.known, i.lower, upper, next))
}

// No weight fits yet, and this one does not.
pub fn too_wide(i: Interval, fitting: bool, weight: u64) -> bool
    ensures { result ≡ too_wide i fitting weight }
{
    !fitting && weight > i.width
}

// Beside a weight that fits, another one or the gcd of the others fits. No gcd, 0, is no witness.
pub fn both_fit(i: Interval, weight: u64, next: u64) -> bool
    ensures { result ≡ both_fit i weight next }
{
    weight <= i.width || (next != 0 && next <= i.width)
}

// No sum is allowed where a term of this weight is left out.
pub fn off_misses(i: Interval, weight: u64, divisor: u64) -> bool
    ensures { result ≡ off_misses i weight divisor }
{
    let maximum = i.possible.saturating_sub(weight);
    misses::branch_misses(i.known, maximum, i.lower, i.upper, divisor)
}

// No sum is allowed where it is taken.
pub fn on_misses(i: Interval, weight: u64, divisor: u64) -> bool
    requires { i.known + weight < 2 ^ 64 }
    ensures { result ≡ on_misses i weight divisor }
{
    misses::branch_misses(i.known + weight, i.possible, i.lower, i.upper, divisor)
}
