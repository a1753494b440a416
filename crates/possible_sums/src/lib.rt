// A search over the possible sums of a drained row: possible_sums.rs.
#![tactic(auto)]

ghost use Rattle.std.specs.Prelude.{◌≡◌, ◌+◌, ◌-◌, ◌/◌, ◌<◌, ◌≤◌, min, reverse, length, replicate, set};
ghost use Rattle.numeric.specs.Slices.{Shape};
ghost use Rattle.state.specs.Shape.{Figures};
ghost use Rattle.words.specs.Mask.{in_either};
ghost use Rattle.rows.specs.Lent.{terms_of};
ghost use Rattle.searches.specs.Shape.{Zeros, Prepared};
ghost use Rattle.searches.specs.Search.{search_from, search};

use rows::Terms;
use searches::{Search, Window};
use state::State;
use words::{Ended, union_shifted_until_hit};

// Fresh words in which only sum 0 is possible. One visit takes them, one clears each, one sets sum 0; the rest is given back.
fn prepare(sums: &mut [u64], visits: usize) -> usize
    requires { (0 < length sums.old) × (length sums.old + 2 ≤ visits) }
    ensures left { result ≡ visits - (length sums.old + 2) }
    ensures fresh { sums.new ≡ set (replicate (length sums.old) 0) 0 1 }
{
    sums.fill(0);
    sums[0] = 1;
    visits - (sums.len() + 2)
}

// Terms from the light end, each joined to the sums without it. A visit is taken for each term and each word that is moved.
fn search_from(
    terms: Terms<'_>,
    w: Window,
    sure: &[u64],
    never: &[u64],
    words: &mut [u64],
    allowance: usize,
) -> Search
    requires shape { Shape terms.conditions.now terms.weights.now sure.now never.now }
    requires prepared { Prepared w × (allowance ≤ w.visits) }
    ensures { result
        ≡ search_from w (in_either sure.now never.now) (reverse (terms_of terms.entry))
        words.old 0 allowance }
{
    let limit = w.maximum;
    let visits = w.visits;
    let mut maximum: usize = 0;
    let mut left = allowance;
    for place in (0..terms.weights.len()).rev() {
        if left == 0 {
            return Search::Cut(visits);
        }
        left -= 1;
        let weight = terms.weights[place] as usize;
        // The remaining weights are at least this heavy: none of them moves a sum into the window.
        if weight > limit {
            let used = visits - left;
            return Search::Nothing(used);
        }
        if words::decided(sure, never, terms.conditions[place]) {
            continue;
        }
        let ended = union_shifted_until_hit(words, maximum / 64 + 1, weight, w.lower, limit, left);
        match ended {
            Ended::Hit(after) => {
                let hit = visits - after;
                return Search::Fits(hit);
            }
            Ended::Stopped => return Search::Cut(visits),
            Ended::Complete(after) => {
                left = after;
                maximum = (maximum + weight).min(limit);
            }
        }
    }
    let all = visits - left;
    Search::Nothing(all)
}

// A search over words that are zero before it and after it.
fn attempt(terms: Terms<'_>, w: Window, sure: &[u64], never: &[u64], words: &mut [u64]) -> Search
    requires shape { Shape terms.conditions.now terms.weights.now sure.now never.now }
    requires prepared { Prepared w × (length words.old ≡ w.words) }
    ensures searched { result
        ≡ search_from w (in_either sure.now never.now) (reverse (terms_of terms.entry))
        (set (replicate w.words 0) 0 1) 0 (w.visits - (w.words + 2)) }
    ensures cleared { words.new ≡ replicate (length words.old) 0 }
{
    let allowance = prepare(words, w.visits);
    let found = search_from(terms, w, sure, never, words, allowance);
    words.fill(0);
    found
}

// Whether a sum of undecided weights lies between the limits of a row, where that is worth a search.
pub fn threshold_possible_sums(
    terms: Terms<'_>,
    state: State,
    sure: &[u64],
    never: &[u64],
    words: &mut [u64],
) -> Search
    requires shape { Shape terms.conditions.now terms.weights.now sure.now never.now × (length terms.weights.now ≤ 1024) × Figures state }
    requires in_bounds { (4096 ≤ length words.old) × Zeros words.old }
    ensures found { result
        ≡ search (terms_of terms.entry) state (in_either sure.now never.now) }
    ensures kept { words.new ≡ words.old }
{
    let Some(w) = Window::for_row(terms, state) else {
        return Search::Skipped;
    };
    attempt(terms, w, sure, never, &mut words[..w.words])
}
