// The first check that refuses a record, and the record that comes next with it.
#![tactic(auto)]

ghost use Rattle.std.specs.Prelude.{◌≡◌, ◌+◌, ◌<◌, length, true, [], ◌∷◌, ◌||◌, eqb};
ghost use Rattle.records.specs.declared.Record.TheVariants.{Adds};
ghost use Rattle.records.specs.Facts.{building, within, ofTerms, action};
ghost use Rattle.records.specs.Kinds.{byte_of};
ghost use Rattle.checks.specs.Checks.{wrong_turn, not_rising, bad_bound, too_many, check, first, refused_by};
ghost use Rattle.checks.specs.Refusal.{number_of, number_in};
ghost use Rattle.checks.specs.Next.{closing, next_of, next_at, EntryNext};

use records::{Kind, Record, Standing};

// Why a record is refused, or a whole file; each has its number in docs/FORMAT.md.
#[derive(Clone, Copy, Debug, PartialEq, Eq)]
pub enum Refusal {
    CutOff,
    UnknownKind,
    OutOfTurn,
    TooMany,
    NoSuchNode,
    NotRising,
    BoundOutside,
    NoValue,
    Contradicted,
    TooLong,
}

impl From<Refusal> for u8 {
    ghost from_gives = { λ r n. n ≡ number_of r };

    fn from(refusal: Refusal) -> u8 {
        match refusal {
            Refusal::CutOff => 1,
            Refusal::UnknownKind => 2,
            Refusal::OutOfTurn => 3,
            Refusal::TooMany => 4,
            Refusal::NoSuchNode => 5,
            Refusal::NotRising => 6,
            Refusal::BoundOutside => 7,
            Refusal::NoValue => 8,
            Refusal::Contradicted => 9,
            Refusal::TooLong => 10,
        }
    }
}

// The first check that applies refuses, in the order of document 01.
fn first_check(
    turn: bool,
    contradicted: bool,
    node: bool,
    rising: bool,
    bound: bool,
    value: bool,
    count: bool,
) -> Result<(), Refusal>
    ensures { number_in result ≡ first (check turn 3 ∷ check contradicted 9 ∷ check node 5 ∷ check rising 6 ∷ check bound 7 ∷ check value 8 ∷ check count 4 ∷ []) }
{
    if turn {
        return Err(Refusal::OutOfTurn);
    }
    let stops = contradicted;
    if stops {
        return Err(Refusal::Contradicted);
    }
    let known = node;
    if known {
        return Err(Refusal::NoSuchNode);
    }
    if rising {
        return Err(Refusal::NotRising);
    }
    if bound {
        return Err(Refusal::BoundOutside);
    }
    if value {
        return Err(Refusal::NoValue);
    }
    if count {
        return Err(Refusal::TooMany);
    }
    Ok(())
}

fn not_building(standing: Standing) -> bool
    ensures { result ≡ wrong_turn standing building }
{
    !standing.started | standing.sealed
}

fn not_within(standing: Standing) -> bool
    ensures { result ≡ wrong_turn standing within }
{
    !standing.started | standing.sealed | (standing.thresholds == 0)
}

// Here and below `as usize` and no `From`: the laws of the checks speak of the number itself.
fn not_rising(standing: Standing, node: u16) -> bool
    ensures { result ≡ not_rising standing node }
{
    (standing.thresholds != 0) & (node as usize <= standing.last_node)
}

fn bad_bound(bound: i64) -> bool
    ensures { result ≡ bad_bound bound }
{
    (bound < -4503599627370496) | (bound > 4503599627370496)
}

fn too_many_terms(standing: Standing) -> bool
    ensures { result ≡ too_many standing ofTerms }
{
    (standing.last_terms >= 1024) | (standing.terms >= 4096)
}

fn check_term(standing: Standing, condition: u16) -> Result<(), Refusal>
    ensures { number_in result ≡ refused_by standing (Adds condition 0) }
{
    let outside = condition as usize >= standing.nodes;
    let past = standing.contradicted;
    first_check(
        not_within(standing),
        past,
        outside,
        false,
        false,
        false,
        too_many_terms(standing),
    )
}

fn is_entry(kind: Kind) -> bool
    ensures { result ≡ (eqb (byte_of kind) 3 || eqb (byte_of kind) 8) }
{
    matches!(kind, Kind::Adds | Kind::Areas)
}

// Whether a term or an area comes next, whole, that no check refuses.
pub fn entry_comes(input: &[u8], at: usize, standing: Standing) -> bool
    requires { at < length input.now }
    ensures { result ≡ true → EntryNext standing input.now at }
{
    let Some(kind) = Kind::of(input[at]) else {
        return false;
    };
    let other = !is_entry(kind);
    if other {
        return false;
    }
    let short = input.len() - at <= 6;
    if short {
        return false;
    }
    let condition = records::u16_at(input, at + 1);
    check_term(standing, condition).is_ok()
}

// A record with no node, bound or value.
fn check_plain(standing: Standing, turn: bool, count: bool) -> Result<(), Refusal>
    ensures { number_in result ≡ first (check turn 3 ∷ check standing.contradicted 9 ∷ check count 4 ∷ []) }
{
    let past = standing.contradicted;
    first_check(turn, past, false, false, false, false, count)
}

// Why a record is refused, if it is: what its turn, its node, its bound or value and its count say.
fn check_record(standing: Standing, entry: Record) -> Result<(), Refusal>
    ensures { number_in result ≡ refused_by standing entry }
{
    let past = standing.contradicted;
    match entry {
        Record::Header(nodes) => check_plain(standing, standing.started, nodes > 4096),
        Record::Opens(node, bound) => {
            let outside = node as usize >= standing.nodes;
            first_check(
                not_building(standing),
                past,
                outside,
                not_rising(standing, node),
                bad_bound(bound),
                false,
                standing.thresholds >= 1024,
            )
        }
        Record::Adds(condition, _) => check_term(standing, condition),
        Record::Areas(condition, _) => check_term(standing, condition),
        Record::Seal => check_plain(standing, not_building(standing), false),
        Record::Mark(node, value) => {
            let outside = node as usize >= standing.nodes;
            first_check(
                !standing.sealed,
                past,
                outside,
                false,
                false,
                value > 1,
                false,
            )
        }
        Record::Settle => check_plain(standing, !standing.sealed, standing.answers >= 64),
        Record::Sift => check_plain(standing, !standing.sealed, standing.answers >= 64),
        Record::Unknown => check_plain(standing, false, false),
    }
}

// The record at an offset, if its kind is known, its body whole and no check refuses it.
pub fn next_record(input: &[u8], at: usize, standing: Standing) -> Result<Record, Refusal>
    requires { at < length input.now }
    ensures { next_of result ≡ next_at standing input.now at }
{
    let byte = input[at];
    let Some(kind) = Kind::of(byte) else {
        return Err(Refusal::UnknownKind);
    };
    if input.len() - at <= kind.body_length() {
        return Err(Refusal::CutOff);
    }
    let entry = records::record_at(input, at);
    check_record(standing, entry)?;
    Ok(entry)
}

// Whether a record closes the job.
pub fn closes(entry: Record) -> bool
    ensures { result ≡ closing (action entry) }
{
    matches!(entry, Record::Seal)
}
