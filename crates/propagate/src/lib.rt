// One row run once: propagate.rs on the state of a row, its guards and its terms.
#![tactic(auto)]

ghost use Rattle.std.specs.Prelude.{◌≡◌, true, false, not, ◌&&◌, ◌+◌, ◌-◌, ◌<◌, ◌≤◌, ◌^◌, length, drop, List};
ghost use Rattle.numeric.specs.Threshold.{Term};
ghost use Rattle.state.specs.State.{limit, with_terms};
ghost use Rattle.state.specs.Shape.{Figures};
ghost use Rattle.queues.specs.Queue.{queue};
ghost use Rattle.queues.specs.Marks.{Marks, marks, is_decided, decided, decide};
ghost use Rattle.queues.specs.Waiting.{Waits};
ghost use Rattle.rows.specs.Lent.{terms_of};
ghost use Rattle.state.specs.declared.Step.TheVariants.{Unchanged};
ghost use Rattle.row_runs.specs.Scan.{scanned, force};
ghost use Rattle.row_runs.specs.Turns.{turn as turn_of, turned, light};
ghost use Rattle.row_runs.specs.Shape.{TermSlices, GuardSlices};
ghost use Rattle.row_runs.specs.Lent.{guards_of, row_in};
ghost use Rattle.propagate.specs.Turn.{scan_of, ends};
ghost use Rattle.row_runs.specs.Row.{ran as ranOf, sure_guards, never_guards, threshold_guards, forced, true_terms, false_terms, row_terms, threshold_row};

use queues::{Decision, Ring};
use row_runs::{Cutoff, Guards, Row};
use rows::Terms;
use state::{State, Step};
use std::ops::ControlFlow;

// A scan of a row's guards or terms so far: the places passed, the strongest answer, the queue of nodes.
#[derive(Clone, Copy)]
pub struct Scan {
    pub passed: usize,
    pub step: Step,
    pub ring: Ring,
}

// A row's state after some of its scans, their answer and the queue of nodes.
#[derive(Clone, Copy)]
pub struct Ran {
    pub state: State,
    pub step: Step,
    pub ring: Ring,
}

// One place more is passed, with what it decided; a contradiction ends the scan.
fn passed_turn(scan: Scan, made: Decision) -> ControlFlow<Scan, Scan>
    requires { scan.passed + 1 < 2 ^ 64 }
    ensures { ((m n : Marks) → turn_of (scanned (scan_of result).passed m (scan_of result).step) (ends result) ≡ turned false (decided m made.step) (scanned scan.passed n scan.step))
        × ((scan_of result).ring ≡ made.ring) }
{
    let passed = scan.passed + 1;
    let ring = made.ring;
    if made.step.contradicts() {
        let step = Step::Contradiction;
        return ControlFlow::Break(Scan { passed, step, ring });
    }
    let step = scan.step.join(made.step);
    ControlFlow::Continue(Scan { passed, step, ring })
}

// A guard that waits ends the scan; any other is passed, and its node decided. The masks, the queue of nodes and its heads come one by one,
// as the caller's struct of lent buffers has them: a struct of these four would be made and taken apart at each run of a row.
fn guard_turn(
    value: bool,
    waits: bool,
    node: u16,
    sure: &mut [u64],
    never: &mut [u64],
    node_queue: &mut [u16],
    scan: Scan,
) -> ControlFlow<Scan, Scan>
    requires { Waits (marks sure.old never.old (queue node_queue.old scan.ring)) × (node < 4096) × (scan.passed + 1 < 2 ^ 64) }
    ensures { turn_of (scanned (scan_of result).passed (marks sure.new never.new (queue node_queue.new (scan_of result).ring)) (scan_of result).step) (ends result)
        ≡ turned waits (decide value (marks sure.old never.old (queue node_queue.old scan.ring)) node)
        (scanned scan.passed (marks sure.old never.old (queue node_queue.old scan.ring)) scan.step) }
{
    if waits {
        return ControlFlow::Break(scan);
    }
    let made = queues::decide(value, sure, never, node_queue, scan.ring, usize::from(node));
    passed_turn(scan, made)
}

// A term that is decided is passed as it is; any other waits, or is forced.
fn term_turn(
    value: bool,
    waits: bool,
    node: u16,
    sure: &mut [u64],
    never: &mut [u64],
    node_queue: &mut [u16],
    scan: Scan,
) -> ControlFlow<Scan, Scan>
    requires { Waits (marks sure.old never.old (queue node_queue.old scan.ring)) × (node < 4096) × (scan.passed + 1 < 2 ^ 64) }
    ensures { turn_of (scanned (scan_of result).passed (marks sure.new never.new (queue node_queue.new (scan_of result).ring)) (scan_of result).step) (ends result)
        ≡ turned (not (is_decided (marks sure.old never.old (queue node_queue.old scan.ring)) node) && waits)
        (force value (marks sure.old never.old (queue node_queue.old scan.ring)) node)
        (scanned scan.passed (marks sure.old never.old (queue node_queue.old scan.ring)) scan.step) }
{
    if words::decided(sure, never, node) {
        let made = Decision {
            step: Step::Unchanged,
            ring: scan.ring,
        };
        return passed_turn(scan, made);
    }
    guard_turn(value, waits, node, sure, never, node_queue, scan)
}

// Guards from the cursor up: those whose bound is reached are sure.
fn sure_guards(
    guards: Guards<'_>,
    state: State,
    sure: &mut [u64],
    never: &mut [u64],
    node_queue: &mut [u16],
    ring: Ring,
) -> Scan
    requires { GuardSlices guards.bounds.now guards.nodes.now × Waits (marks sure.old never.old (queue node_queue.old ring)) }
    ensures { scanned result.passed (marks sure.new never.new (queue node_queue.new result.ring)) result.step
        ≡ sure_guards (guards_of guards.entry) state (marks sure.old never.old (queue node_queue.old ring)) }
{
    let mut so_far = Scan {
        passed: 0,
        step: Step::Unchanged,
        ring,
    };
    for at in state.sure_guard..guards.bounds.len() {
        let node = guards.nodes[at];
        let waits = row_runs::sure_waits(state, guards.bounds[at]);
        match guard_turn(true, waits, node, sure, never, node_queue, so_far) {
            ControlFlow::Break(last) => return last,
            ControlFlow::Continue(next) => so_far = next,
        }
    }
    so_far
}

// Guards from the cursor down: those whose bound cannot be reached are never.
fn never_guards(
    guards: Guards<'_>,
    state: State,
    sure: &mut [u64],
    never: &mut [u64],
    node_queue: &mut [u16],
    ring: Ring,
    before: Step,
) -> Scan
    requires { GuardSlices guards.bounds.now guards.nodes.now × (state.never_guard ≤ length guards.bounds.now) × Waits (marks sure.old never.old (queue node_queue.old ring)) }
    ensures { scanned result.passed (marks sure.new never.new (queue node_queue.new result.ring)) result.step
        ≡ never_guards (guards_of guards.entry) state (marks sure.old never.old (queue node_queue.old ring)) before }
{
    let mut so_far = Scan {
        passed: 0,
        step: before,
        ring,
    };
    for at in (0..state.never_guard).rev() {
        let node = guards.nodes[at];
        let waits = row_runs::never_waits(state, guards.bounds[at]);
        match guard_turn(false, waits, node, sure, never, node_queue, so_far) {
            ControlFlow::Break(last) => return last,
            ControlFlow::Continue(next) => so_far = next,
        }
    }
    so_far
}

// `threshold_guards`: what is reached makes guards sure, what cannot be reached makes them never.
fn threshold_guards(
    guards: Guards<'_>,
    state: State,
    sure: &mut [u64],
    never: &mut [u64],
    node_queue: &mut [u16],
    ring: Ring,
) -> Ran
    requires { GuardSlices guards.bounds.now guards.nodes.now × (state.never_guard ≤ length guards.bounds.now) × Waits (marks sure.old never.old (queue node_queue.old ring)) }
    ensures { ranOf result.state (marks sure.new never.new (queue node_queue.new result.ring)) result.step
        ≡ threshold_guards (guards_of guards.entry) state (marks sure.old never.old (queue node_queue.old ring)) }
{
    let low = state.never_guard;
    let first = sure_guards(guards, state, sure, never, node_queue, ring);
    let up = state.sure_guard + first.passed;
    if first.step.contradicts() {
        return Ran {
            state: state.with_guards(up, low),
            step: Step::Contradiction,
            ring: first.ring,
        };
    }
    let second = never_guards(
        guards, state, sure, never, node_queue, first.ring, first.step,
    );
    Ran {
        state: state.with_guards(up, low - second.passed),
        step: second.step,
        ring: second.ring,
    }
}

// Terms from the cursor on, the heaviest first: decided ones are passed, and those that the cutoff forces.
fn forced_terms(
    terms: Terms<'_>,
    from: usize,
    cutoff: Cutoff,
    sure: &mut [u64],
    never: &mut [u64],
    node_queue: &mut [u16],
    ring: Ring,
) -> Scan
    requires { TermSlices terms.conditions.now terms.weights.now × Waits (marks sure.old never.old (queue node_queue.old ring)) }
    ensures { scanned result.passed (marks sure.new never.new (queue node_queue.new result.ring)) result.step
        ≡ forced cutoff.value (light cutoff) (drop from (terms_of terms.entry)) (marks sure.old never.old (queue node_queue.old ring)) }
{
    let mut so_far = Scan {
        passed: 0,
        step: Step::Unchanged,
        ring,
    };
    for at in from..terms.weights.len() {
        let node = terms.conditions[at];
        let waits = cutoff.waits(terms.weights[at]);
        match term_turn(cutoff.value, waits, node, sure, never, node_queue, so_far) {
            ControlFlow::Break(last) => return last,
            ControlFlow::Continue(next) => so_far = next,
        }
    }
    so_far
}

// `threshold_terms` for true: a term heavier than possible - lower is needed. The places passed, behind the cursor.
fn true_terms(
    terms: Terms<'_>,
    state: State,
    sure: &mut [u64],
    never: &mut [u64],
    node_queue: &mut [u16],
    ring: Ring,
) -> Scan
    requires { TermSlices terms.conditions.now terms.weights.now × Figures state × Waits (marks sure.old never.old (queue node_queue.old ring)) }
    ensures { (ranOf (with_terms state (state.true_term + result.passed) state.false_term) (marks sure.new never.new (queue node_queue.new result.ring)) result.step
        ≡ true_terms (terms_of terms.entry) state (marks sure.old never.old (queue node_queue.old ring)))
        × (result.passed ≤ length terms.entry.weights.now - state.true_term) }
{
    if state.known >= state.lower {
        return Scan {
            passed: 0,
            step: Step::Unchanged,
            ring,
        };
    }
    let cutoff = Cutoff {
        value: true,
        weight: state.possible - state.lower,
    };
    forced_terms(
        terms,
        state.true_term,
        cutoff,
        sure,
        never,
        node_queue,
        ring,
    )
}

// `threshold_terms` for false: a term of at least upper - known is too heavy. The places passed, behind the cursor.
fn false_terms(
    terms: Terms<'_>,
    state: State,
    sure: &mut [u64],
    never: &mut [u64],
    node_queue: &mut [u16],
    ring: Ring,
) -> Scan
    requires { TermSlices terms.conditions.now terms.weights.now × Figures state × Waits (marks sure.old never.old (queue node_queue.old ring)) }
    ensures { (ranOf (with_terms state state.true_term (state.false_term + result.passed)) (marks sure.new never.new (queue node_queue.new result.ring)) result.step
        ≡ false_terms (terms_of terms.entry) state (marks sure.old never.old (queue node_queue.old ring)))
        × (result.passed ≤ length terms.entry.weights.now - state.false_term) }
{
    let known = state.known;
    let upper = state.upper;
    match upper {
        None => Scan {
            passed: 0,
            step: Step::Unchanged,
            ring,
        },
        Some(limit) => {
            let cutoff = Cutoff {
                value: false,
                weight: limit - known,
            };
            forced_terms(
                terms,
                state.false_term,
                cutoff,
                sure,
                never,
                node_queue,
                ring,
            )
        }
    }
}

// `threshold_terms`: after the guards the terms, those that must be sure, then those that must not.
fn threshold_terms(
    terms: Terms<'_>,
    before: Ran,
    sure: &mut [u64],
    never: &mut [u64],
    node_queue: &mut [u16],
) -> Ran
    requires { TermSlices terms.conditions.now terms.weights.now × Figures before.state × Waits (marks sure.old never.old (queue node_queue.old before.ring)) }
    ensures { ranOf result.state (marks sure.new never.new (queue node_queue.new result.ring)) result.step
        ≡ row_terms (terms_of terms.entry)
        (ranOf before.state (marks sure.old never.old (queue node_queue.old before.ring)) before.step) }
{
    let start = before.state;
    let first = true_terms(terms, start, sure, never, node_queue, before.ring);
    let state = start.with_terms(start.true_term + first.passed, start.false_term);
    if first.step.contradicts() {
        return Ran {
            state,
            step: first.step,
            ring: first.ring,
        };
    }
    let second = false_terms(terms, state, sure, never, node_queue, first.ring);
    Ran {
        state: state.with_terms(state.true_term, state.false_term + second.passed),
        step: before.step.join(first.step).join(second.step),
        ring: second.ring,
    }
}

// `threshold_row`: a row in conflict contradicts; any other scans its guards, then its terms.
pub fn threshold_row(
    row: Row<'_>,
    state: State,
    sure: &mut [u64],
    never: &mut [u64],
    node_queue: &mut [u16],
    ring: Ring,
) -> Ran
    requires { TermSlices row.terms.conditions.now row.terms.weights.now × GuardSlices row.guards.bounds.now row.guards.nodes.now × Figures state × (state.never_guard ≤ length row.guards.bounds.now) × Waits (marks sure.old never.old (queue node_queue.old ring)) }
    ensures { (raw : List Term) → ranOf result.state (marks sure.new never.new (queue node_queue.new result.ring)) result.step
        ≡ threshold_row (row_in raw row.entry) state (marks sure.old never.old (queue node_queue.old ring)) }
{
    if state.conflict() {
        return Ran {
            state,
            step: Step::Contradiction,
            ring,
        };
    }
    let first = threshold_guards(row.guards, state, sure, never, node_queue, ring);
    if first.step.contradicts() {
        return first;
    }
    threshold_terms(row.terms, first, sure, never, node_queue)
}
