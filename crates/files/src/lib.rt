// The whole file: records, refusals, answers, and the lent buffers.
#![tactic(auto)]

ghost use Rattle.std.specs.Prelude.{◌≡◌, ◌<◌, ◌≤◌, None};
ghost use Rattle.checks.specs.Refusal.{number_if};

use checks::Refusal;
use records::Standing;
use state::Step;

// What the call gives back: the number of the refusal (0 for none) and its offset; whether the job is sealed, its nodes and rows; the last
// step, and how many answers there are.
#[derive(Clone, Copy)]
pub struct Given {
    // A number: the theorems `numbers`, `ten` and `refused` of the public call speak of it, and C gets it.
    pub refused: u8,
    pub at: usize,
    pub sealed: bool,
    pub nodes: usize,
    pub rows: usize,
    pub last: Step,
    pub answered: usize,
}

// Where reading a job ended: the offset, the number of the refusal (0 for none), whether a seal is next, and what the checks read then. A
// number and a flag: the contracts of `build::build` and `serve_phase::serve` hold of every number, and of one beside a seal.
#[derive(Clone, Copy)]
pub struct JobRead {
    pub at: usize,
    pub refusal: u8,
    pub sealing: bool,
    pub standing: Standing,
}

impl JobRead {
    // Why the record there is refused, if it is. A number that no refusal has gives none.
    pub fn refusal(self) -> Option<Refusal>
        ensures named { self.refusal ≤ 10 → number_if result ≡ self.refusal }
        ensures none { 10 < self.refusal → result ≡ None }
    {
        match self.refusal {
            1 => Some(Refusal::CutOff),
            2 => Some(Refusal::UnknownKind),
            3 => Some(Refusal::OutOfTurn),
            4 => Some(Refusal::TooMany),
            5 => Some(Refusal::NoSuchNode),
            6 => Some(Refusal::NotRising),
            7 => Some(Refusal::BoundOutside),
            8 => Some(Refusal::NoValue),
            9 => Some(Refusal::Contradicted),
            10 => Some(Refusal::TooLong),
            _ => None,
        }
    }
}

#[cfg(test)]
mod tests {
    use super::*;

    // Each number of docs/FORMAT.md names its refusal, and no other number names one.
    #[test]
    fn refusals_by_number(rt: HostRuntime) {
        let standing = Standing {
            started: false,
            sealed: false,
            contradicted: false,
            nodes: 0,
            thresholds: 0,
            last_node: 0,
            last_terms: 0,
            terms: 0,
            raw_terms: 0,
            answers: 0,
        };
        for (number, want) in [
            (0, None),
            (1, Some(Refusal::CutOff)),
            (2, Some(Refusal::UnknownKind)),
            (3, Some(Refusal::OutOfTurn)),
            (4, Some(Refusal::TooMany)),
            (5, Some(Refusal::NoSuchNode)),
            (6, Some(Refusal::NotRising)),
            (7, Some(Refusal::BoundOutside)),
            (8, Some(Refusal::NoValue)),
            (9, Some(Refusal::Contradicted)),
            (10, Some(Refusal::TooLong)),
            (11, None),
            (255, None),
        ] {
            let read = JobRead {
                at: 0,
                refusal: number,
                sealing: false,
                standing,
            };
            assert_eq!(rt; read.refusal(), want, "number {number}");
        }
    }
}
