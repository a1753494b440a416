// The answer of a settle or a sift, encoded and put after those that are there.
#![tactic(auto)]

ghost use Rattle.std.specs.Prelude.{◌≡◌, List, [], ◌∷◌, ◌++◌, ℕ, ◌+◌, ◌<◌, ◌≤◌, length, set};
ghost use Rattle.base.specs.Laid.{over};
ghost use Rattle.files.specs.File.{Answer};
ghost use Rattle.answers.specs.Answers.{answers_of, answered};

use records::Record;
use state::Step;

// An answer is put behind those that are there; how many there are then. The count stands beside the buffer, whose memory is the caller's
// and of fixed length.
fn put(answers: &mut [[u16; 2]], count: usize, number: u16, visits: u16) -> usize
    requires { (count < length answers.old) × (count < 64) }
    ensures { (answers.new ≡ set answers.old count (number ∷ visits ∷ [])) × (result ≡ count + 1) }
{
    let pair: [u16; 2] = [number, visits];
    answers[count] = pair;
    count + 1
}

// The answer of a settle or of a sift, a sift's with its visits and its number from 4 on; other records have none.
pub fn store(
    answers: &mut [[u16; 2]],
    count: usize,
    given: Record,
    step: Step,
    visits: usize,
) -> usize
    requires { (0 < length (answered given step visits) → count < 64) × (64 ≤ length answers.old) × (visits ≤ 4096) }
    ensures { (before : List Answer) (base : List (List ℕ)) → 64 ≤ length base → count ≡ length before → answers.old ≡ over (answers_of before) base
        → (answers.new ≡ over (answers_of (before ++ answered given step visits)) base) × (result ≡ length (before ++ answered given step visits)) }
{
    let number = u8::from(step);
    match given {
        Record::Settle => put(answers, count, number as u16, 0),
        Record::Sift => {
            let used = visits as u16;
            // A number, as the word of the buffer is that C reads.
            let tagged = number as u16 + 4;
            put(answers, count, tagged, used)
        }
        _ => count,
    }
}
