// Row states as a lent slice of records: every state written out of the rows of numbers that the core keeps.
#![tactic(auto)]

ghost use Rattle.std.specs.Prelude.{◌≡◌, ◌≤◌, length, get_or, take};
ghost use Rattle.memory.specs.Limits.{max_thresholds};
ghost use Rattle.state.specs.State.{no_state};
ghost use Rattle.row_moves.specs.Numbers.{states_of};
ghost use Rattle.states.specs.States.{shown};

use state::State;

// The state of a row as the listed places of the rows of numbers hold it; behind them there is none.
fn row_state(figures: &[[i64; 4]], cursors: &[[usize; 5]], row: usize) -> State
    requires { max_thresholds ≤ length (states_of figures.now cursors.now) }
    ensures { result ≡ get_or (take max_thresholds (states_of figures.now cursors.now)) row no_state }
{
    let listed = row < 1024;
    if listed {
        return row_moves::load(figures, cursors, row);
    }
    State::first(0, 0)
}

// Every state, from the rows of numbers to the lent records.
pub fn show_states(states: &mut [State], figures: &[[i64; 4]], cursors: &[[usize; 5]])
    requires { (max_thresholds ≤ length states.old) × (max_thresholds ≤ length (states_of figures.now cursors.now)) }
    ensures { states.new ≡ shown (states_of figures.now cursors.now) states.old }
{
    for (row, state) in states.iter_mut().enumerate() {
        *state = row_state(figures, cursors, row);
    }
}
