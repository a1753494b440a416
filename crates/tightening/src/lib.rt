// What a row's bounds take from a guard or from a neighbour: the row's new state, where there is anything new.
#![tactic(auto)]

ghost use Rattle.std.specs.Prelude.{◌≡◌, cond, true, false, ◌-◌, ◌<◌, Some};
ghost use Rattle.state.specs.State.{limit, with_lower, with_upper};
ghost use Rattle.tightening.specs.Told.{told, tightened, guard_state, moved_lower, moved_upper, moved_state};

use state::State;

// One state is lent and altered: its lower becomes the bound, or its upper.
fn tighten(mut state: State, value: bool, bound: i64) -> State
    ensures { result ≡ cond value (with_lower state bound) (with_upper state (Some bound)) }
{
    if value {
        state::raise_lower(&mut state, bound);
    } else {
        state::lower_upper(&mut state, bound);
    }
    state
}

// `threshold_guard` on its row's state: a sure guard raises lower to its bound, a never one lowers upper.
pub fn guard_state(state: State, value: bool, bound: i64) -> Option<State>
    ensures { result ≡ told (guard_state state value bound) }
{
    let reached = if value {
        !state.needs_lower(bound)
    } else {
        state.upper_at_most(bound)
    };
    if reached {
        return None;
    }
    let moved = tighten(state, value, bound);
    Some(moved)
}

// The longer of two rows with equal first terms has at least the shorter's lower.
fn moved_lower(source: State, state: State, from: usize, to: usize) -> Option<State>
    ensures { result ≡ told (moved_lower source state from to) }
{
    if from <= to && state.needs_lower(source.lower) {
        return Some(tighten(state, true, source.lower));
    }
    None
}

// The shorter has at most the longer's upper. `raised` is what `state` took of the longer's lower.
fn moved_upper(
    source: State,
    state: State,
    raised: Option<State>,
    from: usize,
    to: usize,
) -> Option<State>
    ensures { result ≡ told (moved_upper source (tightened state raised) from to) }
{
    if from < to {
        return raised;
    }
    let Some(limit) = source.upper else {
        return raised;
    };
    let before = raised.unwrap_or(state);
    if before.upper_at_most(limit) {
        return raised;
    }
    let lowered = tighten(before, false, limit);
    Some(lowered)
}

// `threshold_prefixes` on one neighbour's state; `from` and `to` are the terms of the two rows.
pub fn moved_state(source: State, state: State, from: usize, to: usize) -> Option<State>
    ensures { result ≡ told (moved_state source state from to) }
{
    let raised = moved_lower(source, state, from, to);
    moved_upper(source, state, raised, from, to)
}
