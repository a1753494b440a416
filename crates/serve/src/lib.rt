// The records after the seal: marks, settles and sifts over the buffers of Kept, up to the end of the input or the first that is
// refused.
#![tactic(auto)]

ghost use Rattle.std.specs.Prelude.{◌≡◌, List, [], ℕ, ◌<◌, ◌≤◌, length};
ghost use Rattle.memory.specs.Buffers.{longest_input};
ghost use Rattle.row_moves.specs.Lent.{built_of, live_in, TidyIn, SameLent};
ghost use Rattle.drain.specs.Sift.{sifted};
ghost use Rattle.files.specs.File.{File, refusal, outcome, apply, standing as standing_of};
ghost use Rattle.records.specs.declared.Record.TheVariants.{Seal};
ghost use Rattle.checks.specs.Next.{Taken, next_at};
ghost use Rattle.serve.specs.KeptLent.{kept_in, SameKept};
ghost use Rattle.serve.specs.Serve.{Lies, Seals, Asks, came, Takes, stood as stands, Reaches, read_at, fourfold};

use queues::Rings;
use records::{Record, Standing};
use row_moves::{Built, Live};
use sift::Sifted;
use state::Step;

// How far the records were taken: the offset, the number of the refusal there (0 for none), what the checks read of the
// file, the step of the last record that answered, and where the queues stand.
#[derive(Clone, Copy)]
pub struct Reached {
    pub at: usize,
    pub refused: u8,
    pub standing: Standing,
    pub last: Step,
    pub rings: Rings,
}

// What marks, settles and sifts change, as it is lent.
#[derive(Drop)]
pub struct Kept<'a> {
    pub figures: &'a mut [[i64; 4]],
    pub cursors: &'a mut [[usize; 5]],
    pub sure: &'a mut [u64],
    pub never: &'a mut [u64],
    pub search: &'a mut [u64],
    pub gcds: &'a mut [u64],
    pub node_queue: &'a mut [u16],
    pub row_queues: &'a mut [[u16; 4]],
    pub answers: &'a mut [[u16; 2]],
}

// A mark, a settle or a sift is done; no other record passes the checks behind the seal. Only a sift has visits.
fn take(
    built: Built<'_>,
    live: &mut Live<'_>,
    gcds: &mut [u64],
    search: &mut [u64],
    given: Record,
) -> Sifted
    requires { (f : File) × Takes built.bounds.now (built_of built) f given (live_in live.old) gcds.old search.old }
    ensures came { (f : File) → Takes built.entry.bounds.now (built_of built.entry) f given (live_in live.old) gcds.old search.old
        → sifted (live_in live.new) gcds.new result.step result.visits ≡ came f given }
    ensures kept { (TidyIn live.old → TidyIn live.new) × (search.new ≡ search.old) }
    ensures lent { SameLent live.old live.new }
{
    match given {
        Record::Mark(node, value) => {
            let place = node as usize;
            let sure_of = value == 1;
            let step = seal::mark(live, place, sure_of);
            Sifted { step, visits: 0 }
        }
        Record::Settle => {
            let step = settle::settle(built, live);
            Sifted { step, visits: 0 }
        }
        Record::Sift => sift::sift(built, live, gcds, search),
        _ => Sifted {
            step: Step::Unchanged,
            visits: 0,
        },
    }
}

// What the checks read behind a record that answered.
fn stood(standing: Standing, step: Step, answers: usize) -> Standing
    ensures { result ≡ stands standing step answers }
{
    Standing {
        sealed: true,
        contradicted: step.contradicts(),
        answers,
        ..standing
    }
}

// A record that passed the checks is done and its answer stored; the next begins at `behind`.
fn take_record(
    built: Built<'_>,
    kept: &mut Kept<'_>,
    reached: Reached,
    given: Record,
    behind: usize,
) -> Reached
    requires { (f : File) × (base : List (List ℕ)) × Reaches built.bounds.now (built_of built) base (kept_in kept.old) reached (outcome f [] 0 reached.at)
        × Asks given × (refusal f given ≡ 0) }
    ensures reaches { (f : File) (base : List (List ℕ))
        → Reaches built.entry.bounds.now (built_of built.entry) base (kept_in kept.old) reached (outcome f [] 0 reached.at)
        → Asks given → refusal f given ≡ 0
        → Reaches built.entry.bounds.now (built_of built.entry) base (kept_in kept.new) result (outcome (apply f given) [] 0 behind) }
    ensures lent { SameKept kept.old kept.new }
{
    let mut live = Live {
        figures: &mut *kept.figures,
        cursors: &mut *kept.cursors,
        sure: &mut *kept.sure,
        never: &mut *kept.never,
        node_queue: &mut *kept.node_queue,
        row_queues: &mut *kept.row_queues,
        rings: reached.rings,
    };
    let Sifted { step, visits } = take(built, &mut live, kept.gcds, kept.search, given);
    let rings = live.rings;
    let standing = reached.standing;
    let before = standing.answers;
    let count = answers::store(kept.answers, before, given, step, visits);
    let next = stood(standing, step, count);
    Reached {
        at: behind,
        refused: 0,
        standing: next,
        last: step,
        rings,
    }
}

// One record: refused by the first check that applies to it, or taken.
fn serve_record(input: &[u8], built: Built<'_>, kept: &mut Kept<'_>, reached: Reached) -> Reached
    requires { ((f : File) × (base : List (List ℕ)) × Reaches built.bounds.now (built_of built) base (kept_in kept.old) reached (outcome f [] 0 reached.at))
        × (reached.at < length input.now) × (length input.now ≤ longest_input) }
    ensures reaches { (f : File) (base : List (List ℕ))
        → Reaches built.entry.bounds.now (built_of built.entry) base (kept_in kept.old) reached (outcome f [] 0 reached.at)
        → Reaches built.entry.bounds.now (built_of built.entry) base (kept_in kept.new) result (read_at 1 input.now reached.at f) }
    ensures lent { SameKept kept.old kept.new }
{
    let at = reached.at;
    let found = checks::next_record(input, at, reached.standing);
    match found {
        Err(refusal) => Reached {
            refused: u8::from(refusal),
            ..reached
        },
        Ok(given) => {
            let size = records::body_length(input[at]);
            let behind = at + 1 + size;
            take_record(built, kept, reached, given, behind)
        }
    }
}

// Records up to the end of the input or the first that is refused.
fn serve_records(input: &[u8], built: Built<'_>, kept: &mut Kept<'_>, first: Reached) -> Reached
    requires { ((f : File) × (base : List (List ℕ)) × Reaches built.bounds.now (built_of built) base (kept_in kept.old) first (outcome f [] 0 first.at))
        × (length input.now ≤ longest_input) }
    ensures reaches { (f : File) (base : List (List ℕ))
        → Reaches built.entry.bounds.now (built_of built.entry) base (kept_in kept.old) first (outcome f [] 0 first.at)
        → Reaches built.entry.bounds.now (built_of built.entry) base (kept_in kept.new) result (read_at (length input.now) input.now first.at f) }
    ensures lent { SameKept kept.old kept.new }
{
    let mut reached = first;
    // A step is as long as its record, so this is no loop over indices.
    while reached.at < input.len() {
        let next = serve_record(input, built, kept, reached);
        let number = next.refused;
        if number != 0 {
            return next;
        }
        reached = next;
    }
    reached
}

// All slots have four numbers. Nothing is done: it tells the proof of a struct's buffer what the buffer's type says.
fn fours(row_queues: &mut [[u16; 4]])
    ensures { (row_queues.new ≡ row_queues.old) × (fourfold row_queues.new ≡ row_queues.new) }
{}

// The seal of a job over memory that can be sealed, cleared or as records before left it, then the records behind it.
pub fn seal_and_serve(
    input: &[u8],
    built: Built<'_>,
    kept: &mut Kept<'_>,
    at: usize,
    standing: Standing,
    rings: Rings,
) -> Reached
    requires { ((f : File) × (base : List (List ℕ)) × Seals built.bounds.now (built_of built) f × Lies base f (kept_in kept.old) rings × (standing ≡ standing_of f))
        × (at < length input.now) × (next_at standing input.now at ≡ Taken Seal) × (length input.now ≤ longest_input) }
    ensures reaches { (f : File) (base : List (List ℕ)) → Seals built.entry.bounds.now (built_of built.entry) f
        → Lies base f (kept_in kept.old) rings → standing ≡ standing_of f
        → Reaches built.entry.bounds.now (built_of built.entry) base (kept_in kept.new) result (read_at (length input.now) input.now at f) }
    ensures fours { fourfold kept.new.row_queues.now ≡ kept.new.row_queues.now }
    ensures lent { SameKept kept.old kept.new }
{
    let mut live = Live {
        figures: &mut *kept.figures,
        cursors: &mut *kept.cursors,
        sure: &mut *kept.sure,
        never: &mut *kept.never,
        node_queue: &mut *kept.node_queue,
        row_queues: &mut *kept.row_queues,
        rings,
    };
    let step = seal::seal(built.held, &mut live);
    let rings = live.rings;
    let count = standing.answers;
    let next = stood(standing, step, count);
    let behind = at + 1;
    let first = Reached {
        at: behind,
        refused: 0,
        standing: next,
        last: step,
        rings,
    };
    let reached = serve_records(input, built, kept, first);
    fours(kept.row_queues);
    reached
}
