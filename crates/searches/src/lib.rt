// A sum search as a value: when it is planned, each visit, what it answers; choices that land in its window.
#![tactic(auto)]

ghost use Rattle.std.specs.Prelude.{◌≡◌, ◌+◌, ◌-◌, ◌/◌, ◌<◌, ◌≤◌, length};
ghost use Rattle.state.specs.Shape.{Figures};
ghost use Rattle.rows.specs.Lent.{terms_of};
ghost use Rattle.searches.specs.Search.{plan, search_step, search_visits};

use rows::Terms;
use state::{State, Step};

// The window of a search, in sums of undecided weights; the words that hold it; the visits that it may use.
#[derive(Clone, Copy)]
pub struct Window {
    pub lower: usize,
    pub maximum: usize,
    pub words: usize,
    pub visits: usize,
}

// How a search ended, with the visits that it used.
#[derive(Clone, Copy)]
pub enum Search {
    // Nothing was planned.
    Skipped,
    // Some sum lies in the window.
    Fits(usize),
    // No sum does.
    Nothing(usize),
    // The next visit would have passed the allowance.
    Cut(usize),
}

impl Search {
    // Only a search that ended with no sum in the window contradicts.
    pub fn step(self) -> Step
        ensures { result ≡ search_step self }
    {
        match self {
            Search::Nothing(_) => Step::Contradiction,
            Search::Skipped | Search::Fits(_) | Search::Cut(_) => Step::Unchanged,
        }
    }

    // The visits that this search used, those of the last one before where none was planned.
    pub fn visits(self, before: usize) -> usize
        ensures { result ≡ search_visits before self }
    {
        match self {
            Search::Skipped => before,
            Search::Fits(n) | Search::Nothing(n) | Search::Cut(n) => n,
        }
    }
}

impl Window {
    // Only a row with a weight above 1 and both limits inside what is possible is searched, and only where the words of the
    // window are few against its terms.
    pub fn for_row(terms: Terms<'_>, state: State) -> Option<Window>
        requires { (length terms.conditions.now ≡ length terms.weights.now) × (length terms.weights.now ≤ 1024) × Figures state }
        ensures { result ≡ plan (terms_of terms.entry) state }
    {
        if !terms.has_nonunit() {
            return None;
        }
        if !state.has_residual_interval() {
            return None;
        }
        let upper = state.upper;
        let Some(limit) = upper else {
            return None;
        };
        let known = state.known;
        if limit <= known {
            return None;
        }
        let lower = base::natural(state.lower - known) as usize;
        let maximum = base::natural(limit - known - 1) as usize;
        let words = maximum / 64 + 1;
        // The reference build has 32 bytes for a term, and a visit for each 8 of them.
        let visits = 4 * terms.weights.len();
        if words + 5 > visits {
            return None;
        }
        Some(Window {
            lower,
            maximum,
            words,
            visits,
        })
    }
}
