// Residual divisibility of a drained row: residual.rs.
#![tactic(auto)]

ghost use Rattle.std.specs.Prelude.{◌≡◌, ◌+◌, ◌-◌, ◌^◌, ◌<◌, ◌≤◌, false, reverse, length};
ghost use Rattle.numeric.specs.Threshold.{term};
ghost use Rattle.numeric.specs.Slices.{Below, Shape};
ghost use Rattle.state.specs.Step.{joined};
ghost use Rattle.words.specs.Mask.{in_either};
ghost use Rattle.rows.specs.Lent.{terms_of};
ghost use Rattle.queues.specs.Queue.{queue};
ghost use Rattle.queues.specs.Shape.{Held};
ghost use Rattle.state.specs.declared.Step.TheVariants.{Unchanged};
ghost use Rattle.queues.specs.Waiting.{Waits};
ghost use Rattle.queues.specs.Marks.{marks, decided as decidedOf};
ghost use Rattle.divisors.specs.Gcd.{gcd};
ghost use Rattle.misses.specs.Misses.{misses};
ghost use Rattle.intervals.specs.Shape.{Window};
ghost use Rattle.intervals.specs.Residual.{
  check_from,
  residual_check,
  fits_from,
  suffixes,
  placed,
  over,
  force_term,
  force_from,
  nothing_forced,
  residual,
  threshold_residual,
};

use intervals::Interval;
use queues::{Decision, Ring};
use rows::Terms;
use state::{State, Step};

// The gcd of the undecided weights among the last 0, 1, 2 .. terms, from the start of the buffer on.
fn prepare_suffix(terms: Terms<'_>, sure: &[u64], never: &[u64], gcds: &mut [u64])
    requires shape { Shape terms.conditions.now terms.weights.now sure.now never.now }
    requires weights_in_bounds { length terms.weights.now < length gcds.old }
    ensures { gcds.new
        ≡ over (suffixes (in_either sure.now never.now) (terms_of terms.entry)) gcds.old }
{
    let count = terms.weights.len();
    let mut suffix: u64 = 0;
    for left in (0..count).rev() {
        gcds[count - left - 1] = suffix;
        let skip = words::decided(sure, never, terms.conditions[left]);
        suffix = misses::reduce(skip, suffix, terms.weights[left]);
    }
    gcds[count] = suffix;
}

// Terms from the light end: does the lattice of all undecided weights miss the interval? A gcd that allows a sum ends the
// scan, since every later gcd divides it and allows that sum too.
fn check_from(terms: Terms<'_>, i: Interval, sure: &[u64], never: &[u64]) -> Step
    requires shape { Shape terms.conditions.now terms.weights.now sure.now never.now }
    requires window { Window i }
    ensures { result
        ≡ check_from i (in_either sure.now never.now) (reverse (terms_of terms.entry)) 0 }
{
    let mut divisor: u64 = 0;
    for remaining in (0..terms.weights.len()).rev() {
        if words::decided(sure, never, terms.conditions[remaining]) {
            continue;
        }
        let weight = terms.weights[remaining];
        let next = misses::gcd(divisor, weight);
        if intervals::stops(i, divisor, weight, next) {
            return Step::Unchanged;
        }
        divisor = next;
    }
    let upper = i.possible.min(i.upper);
    // A divisor was tested when it last changed.
    if divisor != 0 || misses::misses(i.known, i.lower, upper, 0) {
        return Step::Contradiction;
    }
    Step::Unchanged
}

// What divisibility shows of the whole row: that no sum is allowed, or nothing.
#[tactic(auto, unfolding(intervals::specs::Residual::residual_check))]
fn threshold_residual_check(terms: Terms<'_>, state: State, sure: &[u64], never: &[u64]) -> Step
    requires { Shape terms.conditions.now terms.weights.now sure.now never.now }
    ensures { result
        ≡ residual_check (terms_of terms.entry) state (in_either sure.now never.now) }
{
    if !terms.has_nonunit() || !state.has_residual_interval() {
        return Step::Unchanged;
    }
    let reached = state.reached();
    if state.upper_at_most(reached) || state.possible < reached {
        return Step::Contradiction;
    }
    check_from(terms, intervals::interval_of(state), sure, never)
}

// Terms from the light end: one undecided weight fits, and so does another or the gcd of the others. Then every gcd of all
// weights but one fits, and nothing is forced.
fn fits_from(terms: Terms<'_>, i: Interval, sure: &[u64], never: &[u64]) -> bool
    requires { Shape terms.conditions.now terms.weights.now sure.now never.now }
    ensures { result
        ≡ fits_from i (in_either sure.now never.now) (reverse (terms_of terms.entry)) false 0 }
{
    let mut fitting = false;
    let mut complement: u64 = 0;
    for unread in (0..terms.weights.len()).rev() {
        let weight = terms.weights[unread];
        if intervals::too_wide(i, fitting, weight) {
            return false;
        }
        if words::decided(sure, never, terms.conditions[unread]) {
            continue;
        }
        if fitting {
            complement = misses::gcd(complement, weight);
            if intervals::both_fit(i, weight, complement) {
                return true;
            }
        } else {
            fitting = true;
        }
    }
    false
}

// What one undecided term is forced to, by the gcd of the other undecided weights. A gcd of 1 shows no more than the bounds.
fn force_term(
    i: Interval,
    node: u16,
    weight: u64,
    divisor: u64,
    sure: &mut [u64],
    never: &mut [u64],
    node_queue: &mut [u16],
    ring: Ring,
) -> Decision
    requires weight_bound { i.known + weight < 2 ^ 64 }
    requires held { Held 4096 (queue node_queue.old ring) × (node < 4096) × (64 ≤ length sure.old) × (64 ≤ length never.old) }
    ensures { decidedOf (marks sure.new never.new (queue node_queue.new result.ring)) result.step
        ≡ force_term i (marks sure.old never.old (queue node_queue.old ring)) (term node weight) divisor }
{
    let same = Decision {
        step: Step::Unchanged,
        ring,
    };
    if divisor == 1 {
        return same;
    }
    let off = intervals::off_misses(i, weight, divisor);
    let on = intervals::on_misses(i, weight, divisor);
    if off {
        if on {
            return Decision {
                step: Step::Contradiction,
                ring,
            };
        }
        return queues::decide(true, sure, never, node_queue, ring, usize::from(node));
    }
    if on {
        return queues::decide(false, sure, never, node_queue, ring, usize::from(node));
    }
    same
}

// The stronger of two answers, with the later queue.
fn joined_decision(before: Decision, after: Decision) -> Decision
    ensures { (result.step ≡ joined before.step after.step) × (result.ring ≡ after.ring) }
{
    Decision {
        step: before.step.join(after.step),
        ring: after.ring,
    }
}

// Terms from the heavy end, each by the gcd of the undecided weights before it and behind it. Conditions of a row are distinct,
// so that a decision made here is none of a later term's; its weight stays among those before.
fn force_from(
    terms: Terms<'_>,
    gcds: &[u64],
    i: Interval,
    sure: &mut [u64],
    never: &mut [u64],
    node_queue: &mut [u16],
    ring: Ring,
) -> Decision
    requires shape { Shape terms.conditions.now terms.weights.now sure.old never.old }
    requires weights_in_bounds { (length terms.weights.now < length gcds.now) × (i.known < 2 ^ 63) × Below (2 ^ 63) terms.weights.now × Waits (marks sure.old never.old (queue node_queue.old ring)) }
    ensures { decidedOf (marks sure.new never.new (queue node_queue.new result.ring)) result.step ≡ force_from i (placed gcds.now) (terms_of terms.entry) 0 (marks sure.old never.old (queue node_queue.old ring)) Unchanged }
{
    let mut prefix: u64 = 0;
    let mut so_far = Decision {
        step: Step::Unchanged,
        ring,
    };
    for position in 0..terms.weights.len() {
        let node = terms.conditions[position];
        if words::decided(sure, never, node) {
            continue;
        }
        let weight = terms.weights[position];
        let divisor = misses::gcd(prefix, gcds[terms.weights.len() - position - 1]);
        let forced = force_term(
            i,
            node,
            weight,
            divisor,
            sure,
            never,
            node_queue,
            so_far.ring,
        );
        so_far = joined_decision(so_far, forced);
        if forced.step.contradicts() {
            return so_far;
        }
        prefix = misses::gcd(prefix, weight);
    }
    so_far
}

// Nothing can be forced: no residual interval, or every gcd of all weights but one fits it.
fn nothing_forced(terms: Terms<'_>, state: State, sure: &[u64], never: &[u64]) -> bool
    requires { Shape terms.conditions.now terms.weights.now sure.now never.now }
    ensures { result
        ≡ nothing_forced (terms_of terms.entry) state (in_either sure.now never.now) }
{
    !terms.has_nonunit()
        || !state.has_residual_interval()
        || fits_from(terms, intervals::interval_of(state), sure, never)
}

// What divisibility shows of a drained row: that no sum is allowed, or which of its terms are forced. `gcds` holds the suffixes
// after it where terms were looked at one by one.
pub fn threshold_residual(
    terms: Terms<'_>,
    state: State,
    sure: &mut [u64],
    never: &mut [u64],
    node_queue: &mut [u16],
    ring: Ring,
    gcds: &mut [u64],
) -> Decision
    requires shape { Shape terms.conditions.now terms.weights.now sure.old never.old }
    requires weights_in_bounds { (length terms.weights.now < length gcds.old) × Below (2 ^ 63) terms.weights.now × Waits (marks sure.old never.old (queue node_queue.old ring)) }
    ensures { residual (marks sure.new never.new (queue node_queue.new result.ring)) result.step gcds.new ≡ threshold_residual (terms_of terms.entry) state (marks sure.old never.old (queue node_queue.old ring)) gcds.old }
{
    let checked = threshold_residual_check(terms, state, sure, never);
    if checked.contradicts() {
        return Decision {
            step: Step::Contradiction,
            ring,
        };
    }
    if nothing_forced(terms, state, sure, never) {
        return Decision {
            step: Step::Unchanged,
            ring,
        };
    }
    prepare_suffix(terms, sure, never, gcds);
    force_from(
        terms,
        gcds,
        intervals::interval_of(state),
        sure,
        never,
        node_queue,
        ring,
    )
}
