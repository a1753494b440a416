// The job while its records come in: thresholds, terms and areas stored in the raw buffers.
#![tactic(auto)]

ghost use Rattle.std.specs.Prelude.{◌≡◌, [], ◌∷◌, ◌-◌, ◌<◌, ◌≤◌, length, get_or, set};
ghost use Rattle.rows.specs.Guards.{node_at};
ghost use Rattle.memory.specs.Ranges.{raw_limit};
ghost use Rattle.records.specs.declared.Record.TheVariants.{Opens, Adds, Areas};
ghost use Rattle.checks.specs.Checks.{refused_by};
ghost use Rattle.job.specs.Gathered.{Listed, Bounded};
ghost use Rattle.gather.specs.Lent.{TermedIn, JoinableIn, start_in, OpenedIn, AddedIn, FirstIn, MoreIn, AreaIn, SameRaw, SameNotes};

use numeric::weight_of_area;
use records::Standing;
use rows::{place, start_of};

// The raw job, as its buffers are lent: the conditions and weights of all terms, the thresholds' nodes and where their terms end, their bounds.
#[derive(Drop)]
pub struct Raw<'a> {
    pub raw_conditions: &'a mut [u16],
    pub raw_weights: &'a mut [u64],
    pub thresholds: &'a mut [[u16; 2]],
    pub bounds: &'a mut [i64],
}

// What is noted of the areas in the open threshold: behind which term those of a condition went, and what they add up to.
#[derive(Drop)]
pub struct Notes<'a> {
    pub places: &'a mut [u16],
    pub sums: &'a mut [u64],
}

fn set_end(thresholds: &mut [[u16; 2]], t: usize, end: usize)
    requires { (t < length thresholds.old) × (end < 65536) }
    ensures { thresholds.new ≡ set thresholds.old t (node_at thresholds.old t ∷ end ∷ []) }
{
    let pair = thresholds[t];
    let entry = [pair[0], end as u16];
    thresholds[t] = entry;
}

impl Raw<'_> {
    // A threshold behind the others; its checks are passed.
    pub fn open_threshold(&mut self, standing: Standing, node: u16, bound: i64) -> Standing
        requires { Listed standing self.old.thresholds.now × Bounded standing self.old.bounds.now × (refused_by standing (Opens node bound) ≡ 0) }
        ensures opened { OpenedIn standing node bound self.old result self.new }
        ensures kept { (self.new.raw_conditions.now ≡ self.old.raw_conditions.now) × (self.new.raw_weights.now ≡ self.old.raw_weights.now) }
        ensures lent { SameRaw self.old self.new }
    {
        let at = standing.thresholds;
        let end = standing.raw_terms;
        let entry = [node, end as u16];
        self.thresholds[at] = entry;
        self.bounds[at] = bound;
        Standing {
            thresholds: at + 1,
            last_node: node as usize,
            last_terms: 0,
            ..standing
        }
    }

    // Where the terms of the open threshold start.
    fn open_start(&self, standing: Standing) -> usize
        requires { (0 < standing.thresholds) × (standing.thresholds ≤ length self.now.thresholds.now) }
        ensures { result ≡ start_in standing self.now }
    {
        start_of(self.thresholds, standing.thresholds - 1)
    }

    // A term of the open threshold; its checks are passed.
    pub fn add_term(&mut self, standing: Standing, condition: u16, weight: u64) -> Standing
        requires { TermedIn standing self.old × (weight < raw_limit) × (refused_by standing (Adds condition weight) ≡ 0) }
        ensures added { AddedIn standing condition weight self.old result self.new }
        ensures kept { self.new.bounds.now ≡ self.old.bounds.now }
        ensures lent { SameRaw self.old self.new }
    {
        let at = standing.raw_terms;
        let count = standing.thresholds;
        self.raw_conditions[at] = condition;
        self.raw_weights[at] = weight;
        set_end(self.thresholds, count - 1, at + 1);
        Standing {
            last_terms: standing.last_terms + 1,
            terms: standing.terms + 1,
            raw_terms: at + 1,
            ..standing
        }
    }

    // The first area of its condition in the open threshold: the last term there.
    fn first_area(
        &mut self,
        notes: &mut Notes<'_>,
        standing: Standing,
        condition: u16,
        area: u64,
    ) -> Standing
        requires { TermedIn standing self.old × JoinableIn standing self.old notes.old
            × (area < 4294967296) × (refused_by standing (Areas condition area) ≡ 0) × (get_or notes.old.places.now condition 0 ≤ start_in standing self.old) }
        ensures first { FirstIn standing condition area self.old notes.old result self.new notes.new }
        ensures kept { self.new.bounds.now ≡ self.old.bounds.now }
        ensures lent { SameRaw self.old self.new × SameNotes notes.old notes.new }
    {
        let at = standing.raw_terms;
        let i = at - self.open_start(standing);
        let weight = weight_of_area(area);
        notes.places[condition as usize] = (at + 1) as u16;
        notes.sums[i] = area;
        self.add_term(standing, condition, weight)
    }

    // Another area of a condition whose first stands at a place of the open threshold: the sum is rounded once.
    fn more_area(
        &mut self,
        notes: &mut Notes<'_>,
        standing: Standing,
        condition: u16,
        area: u64,
    ) -> Standing
        requires { TermedIn standing self.old × JoinableIn standing self.old notes.old
            × (area < 4294967296) × (refused_by standing (Areas condition area) ≡ 0) × (start_in standing self.old < get_or notes.old.places.now condition 0) }
        ensures more { MoreIn standing condition area self.old notes.old result self.new notes.new }
        ensures kept { (self.new.raw_conditions.now ≡ self.old.raw_conditions.now) × (self.new.thresholds.now ≡ self.old.thresholds.now)
            × (self.new.bounds.now ≡ self.old.bounds.now) × (notes.new.places.now ≡ notes.old.places.now) }
        ensures lent { SameRaw self.old self.new × SameNotes notes.old notes.new }
    {
        let at = place(notes.places[condition as usize]) - 1;
        let i = at - self.open_start(standing);
        let sum = notes.sums[i] + area;
        notes.sums[i] = sum;
        let to = at;
        self.raw_weights[to] = weight_of_area(sum);
        Standing {
            last_terms: standing.last_terms + 1,
            terms: standing.terms + 1,
            ..standing
        }
    }

    // An area of the open threshold; its checks are passed. Areas of one condition are one term, where the first stood.
    pub fn add_area(
        &mut self,
        notes: &mut Notes<'_>,
        standing: Standing,
        condition: u16,
        area: u64,
    ) -> Standing
        requires { TermedIn standing self.old × JoinableIn standing self.old notes.old
            × (area < 4294967296) × (refused_by standing (Areas condition area) ≡ 0) }
        ensures taken { AreaIn standing condition area self.old notes.old result self.new notes.new }
        ensures kept { self.new.bounds.now ≡ self.old.bounds.now }
        ensures lent { SameRaw self.old self.new × SameNotes notes.old notes.new }
    {
        let start = self.open_start(standing);
        let noted = place(notes.places[condition as usize]) > start;
        if noted {
            return self.more_area(notes, standing, condition, area);
        }
        self.first_area(notes, standing, condition, area)
    }
}
