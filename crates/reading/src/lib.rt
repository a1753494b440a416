// The records of a job read into the raw buffers, from an offset on up to the next seal.
#![tactic(auto)]

ghost use Rattle.std.specs.Prelude.{◌≡◌, false, ◌<◌, length};
ghost use Rattle.memory.specs.Buffers.{Raw as RawWords, raw_lists, raw, clear_raw};
ghost use Rattle.records.specs.Facts.{action};
ghost use Rattle.checks.specs.Next.{closing, EntryNext};
ghost use Rattle.checks.specs.Checks.{refused_by};
ghost use Rattle.gather.specs.Lent.{JoinableIn, SameRaw, SameNotes};
ghost use Rattle.files.specs.File.{File};
ghost use Rattle.reading.specs.Held.{headed, blank, Room, any_open, OfJob, NextOfJob, HeldPart};
ghost use Rattle.reading.specs.Lent.{GatheredIn, HeldIn, ReadingIn, TakesIn, ReadsIn, ReadsOnIn, ReadsJobIn};
ghost use Rattle.files.specs.JobPart.{job_part_of};

use files::JobRead;
use gather::{Notes, Raw};
use records::{Record, Standing};

// Behind a header.
fn begin(standing: Standing, nodes: u16) -> Standing
    ensures { result ≡ headed standing nodes }
{
    Standing {
        started: true,
        sealed: standing.sealed,
        contradicted: standing.contradicted,
        nodes: nodes as usize,
        answers: standing.answers,
        ..nothing_read()
    }
}

// A record of the job that passed its checks. What the checks read afterwards.
fn take_record(
    entry: Record,
    standing: Standing,
    raw: &mut Raw<'_>,
    notes: &mut Notes<'_>,
) -> Standing
    requires { GatheredIn standing raw.old × JoinableIn standing raw.old notes.old
        × (refused_by standing entry ≡ 0) × OfJob entry × (closing (action entry) ≡ false) }
    ensures takes { TakesIn entry standing raw.old notes.old result raw.new notes.new }
    ensures lent { SameRaw raw.old raw.new × SameNotes notes.old notes.new }
{
    match entry {
        Record::Header(nodes) => begin(standing, nodes),
        Record::Opens(node, bound) => raw.open_threshold(standing, node, bound),
        Record::Adds(condition, weight) => raw.add_term(standing, condition, weight as u64),
        Record::Areas(condition, area) => raw.add_area(notes, standing, condition, area as u64),
        Record::Seal => standing,
        Record::Mark(_, _) => standing,
        Record::Settle => standing,
        Record::Sift => standing,
        Record::Unknown => standing,
    }
}

// The record at an offset: refused, a seal, or taken.
fn read_record(
    input: &[u8],
    at: usize,
    standing: Standing,
    raw: &mut Raw<'_>,
    notes: &mut Notes<'_>,
) -> JobRead
    requires { (at < length input.now) × NextOfJob input.now at standing × GatheredIn standing raw.old × JoinableIn standing raw.old notes.old }
    ensures reads { ReadsIn input.now at standing raw.old notes.old result raw.new notes.new }
    ensures lent { SameRaw raw.old raw.new × SameNotes notes.old notes.new }
{
    let next = checks::next_record(input, at, standing);
    match next {
        Err(refusal) => JobRead {
            at,
            refusal: u8::from(refusal),
            sealing: false,
            standing,
        },
        Ok(entry) => {
            if checks::closes(entry) {
                return JobRead {
                    at,
                    refusal: 0,
                    sealing: true,
                    standing,
                };
            }
            let size = records::body_length(input[at]);
            let after = take_record(entry, standing, raw, notes);
            JobRead {
                at: at + 1 + size,
                refusal: 0,
                sealing: false,
                standing: after,
            }
        }
    }
}

// A term or an area that comes next.
fn read_entry(
    input: &[u8],
    at: usize,
    standing: Standing,
    raw: &mut Raw<'_>,
    notes: &mut Notes<'_>,
) -> JobRead
    requires { EntryNext standing input.now at × GatheredIn standing raw.old × JoinableIn standing raw.old notes.old }
    ensures reads { ReadsIn input.now at standing raw.old notes.old result raw.new notes.new }
    ensures going { (result.refusal ≡ 0) × (result.sealing ≡ false) }
    ensures lent { SameRaw raw.old raw.new × SameNotes notes.old notes.new }
{
    let condition = records::u16_at(input, at + 1);
    // `as`: a call of `u64::from` left the goals of `add_term` and `add_area` open, which want the number itself.
    let figure = records::u32_at(input, at + 3) as u64;
    let areas = input[at] == 8;
    if areas {
        let after = raw.add_area(notes, standing, condition, figure);
        return JobRead {
            at: at + 1 + 6,
            refusal: 0,
            sealing: false,
            standing: after,
        };
    }
    let after = raw.add_term(standing, condition, figure);
    JobRead {
        at: at + 1 + 6,
        refusal: 0,
        sealing: false,
        standing: after,
    }
}

// What the checks read before any record.
pub fn nothing_read() -> Standing
    ensures { result ≡ blank }
{
    Standing {
        started: false,
        sealed: false,
        contradicted: false,
        nodes: 0,
        thresholds: 0,
        last_node: 0,
        last_terms: 0,
        terms: 0,
        raw_terms: 0,
        answers: 0,
    }
}

// The records of an input from an offset on up to its next seal, into buffers for the job that they give. Where areas stand and what they add
// up to is noted while their threshold is open.
fn read_records(
    input: &[u8],
    at: usize,
    standing: Standing,
    raw: &mut Raw<'_>,
    notes: &mut Notes<'_>,
) -> JobRead
    requires { ((f : File) × (w : RawWords) × Room w × ReadingIn f w standing raw.old notes.old) × NextOfJob input.now at standing }
    ensures reads { ReadsOnIn input.now at standing raw.old notes.old result raw.new }
    ensures lent { SameRaw raw.old raw.new × SameNotes notes.old notes.new }
{
    let mut read = JobRead {
        at,
        refusal: 0,
        sealing: false,
        standing,
    };
    // A step is as long as its record, so this is no loop over indices.
    while read.at < input.len() {
        let from = read.at;
        let stands = read.standing;
        // Most records are terms or areas, and these need nothing of the others' checks.
        if checks::entry_comes(input, from, stands) {
            read = read_entry(input, from, stands, raw, notes);
            continue;
        }
        let next = read_record(input, from, stands, raw, notes);
        let stops = (next.refusal != 0) | next.sealing;
        if stops {
            return next;
        }
        read = next;
    }
    read
}

// The same with notes of its own, where no threshold is open.
pub fn read_job(input: &[u8], at: usize, standing: Standing, raw: &mut Raw<'_>) -> JobRead
    requires { ((f : File) × (w : RawWords) × Room w × HeldIn f w standing raw.old × (any_open f ≡ false)) × NextOfJob input.now at standing }
    ensures reads { ReadsJobIn input.now at standing raw.old result raw.new }
    ensures lent { SameRaw raw.old raw.new }
{
    let mut places = [0u16; 4096];
    let mut sums = [0u64; 1024];
    let mut notes = Notes {
        places: &mut places,
        sums: &mut sums,
    };
    read_records(input, at, standing, raw, &mut notes)
}

// THE FIRST PHASE: clears its buffers and reads the job into them, up to its seal. They come one by one, as C lends them to the call, and what
// builds the rows reads them afterwards.
pub fn read(
    input: &[u8],
    raw_conditions: &mut [u16],
    raw_weights: &mut [u64],
    thresholds: &mut [[u16; 2]],
    bounds: &mut [i64],
) -> JobRead
    requires { Room (raw (raw_lists raw_conditions.old raw_weights.old thresholds.old) bounds.old) }
    ensures { HeldPart (job_part_of input.now)
        (clear_raw (raw (raw_lists raw_conditions.old raw_weights.old thresholds.old) bounds.old)) result
        raw_conditions.new raw_weights.new thresholds.new bounds.new }
{
    memory::clear_raw(raw_conditions, raw_weights, thresholds, bounds);
    let standing = nothing_read();
    let mut raw = Raw {
        raw_conditions,
        raw_weights,
        thresholds,
        bounds,
    };
    read_job(input, 0, standing, &mut raw)
}
