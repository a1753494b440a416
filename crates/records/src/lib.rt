// Records of a job file: kinds, bodies and their fields, read at an offset.
#![tactic(auto)]

ghost use Rattle.std.specs.Prelude.{◌≡◌, ◌+◌, ◌≤◌, length, take, drop};
ghost use Rattle.records.specs.Record.{kind_of, body_length, little_endian, signed};
ghost use Rattle.records.specs.Kinds.{byte_of, Names};
ghost use Rattle.records.specs.At.{kind_at, record_in};

// A record with its fields: nodes; node and bound; condition and weight; condition and area; node and value.
#[derive(Clone, Copy)]
pub enum Record {
    Header(u16),
    Opens(u16, i64),
    Adds(u16, u32),
    Areas(u16, u32),
    Seal,
    Mark(u16, u8),
    Settle,
    Sift,
    // What a byte makes that names no kind: the definition `record_at`, of which the theorems on whole files speak, has a record for each byte.
    Unknown,
}

// What the checks read of the file so far: whether it has a header, a seal and a contradiction; how many nodes and thresholds
// the job has; the last threshold's node and number of terms and areas; how many of these and of answers there are. And how many
// terms the raw lists have, where areas of one condition are one.
#[derive(Clone, Copy)]
pub struct Standing {
    pub started: bool,
    pub sealed: bool,
    pub contradicted: bool,
    pub nodes: usize,
    pub thresholds: usize,
    pub last_node: usize,
    pub last_terms: usize,
    pub terms: usize,
    pub raw_terms: usize,
    pub answers: usize,
}

// The kinds of records, each named by a byte of the file.
#[derive(Clone, Copy, Debug, PartialEq, Eq)]
pub enum Kind {
    Header,
    Opens,
    Adds,
    Seal,
    Mark,
    Settle,
    Sift,
    Areas,
}

impl Kind {
    // The kind that a byte names, if it names one.
    pub fn of(byte: u8) -> Option<Kind>
        ensures { Names byte result }
    {
        match byte {
            1 => Some(Kind::Header),
            2 => Some(Kind::Opens),
            3 => Some(Kind::Adds),
            4 => Some(Kind::Seal),
            5 => Some(Kind::Mark),
            6 => Some(Kind::Settle),
            7 => Some(Kind::Sift),
            8 => Some(Kind::Areas),
            _ => None,
        }
    }

    // How many bytes of body follow.
    pub fn body_length(self) -> usize
        ensures { result ≡ body_length (kind_of (byte_of self)) }
    {
        match self {
            Kind::Header => 2,
            Kind::Opens => 10,
            Kind::Adds | Kind::Areas => 6,
            Kind::Mark => 3,
            Kind::Seal | Kind::Settle | Kind::Sift => 0,
        }
    }
}

// How many bytes of body follow the byte of a kind; none, if it names no kind.
pub fn body_length(byte: u8) -> usize
    ensures { result ≡ body_length (kind_of byte) }
{
    match Kind::of(byte) {
        Some(kind) => kind.body_length(),
        None => 0,
    }
}

pub fn u16_at(input: &[u8], at: usize) -> u16
    requires { at + 2 ≤ length input.now }
    ensures { result ≡ little_endian (take 2 (drop at input.now)) }
{
    u16::from_le_bytes([input[at], input[at + 1]])
}

pub fn u32_at(input: &[u8], at: usize) -> u32
    requires { at + 4 ≤ length input.now }
    ensures { result ≡ little_endian (take 4 (drop at input.now)) }
{
    u32::from_le_bytes([input[at], input[at + 1], input[at + 2], input[at + 3]])
}

fn i64_at(input: &[u8], at: usize) -> i64
    requires { at + 8 ≤ length input.now }
    ensures { result ≡ signed (little_endian (take 8 (drop at input.now))) }
{
    let bytes = [
        input[at],
        input[at + 1],
        input[at + 2],
        input[at + 3],
        input[at + 4],
        input[at + 5],
        input[at + 6],
        input[at + 7],
    ];
    i64::from_le_bytes(bytes)
}

// The record that begins at an offset, all of whose body is there.
pub fn record_at(input: &[u8], at: usize) -> Record
    requires { at + 1 + body_length (kind_at input.now at) ≤ length input.now }
    ensures { result ≡ record_in input.now at }
{
    match Kind::of(input[at]) {
        Some(Kind::Header) => Record::Header(u16_at(input, at + 1)),
        Some(Kind::Opens) => Record::Opens(u16_at(input, at + 1), i64_at(input, at + 3)),
        Some(Kind::Adds) => Record::Adds(u16_at(input, at + 1), u32_at(input, at + 3)),
        Some(Kind::Seal) => Record::Seal,
        Some(Kind::Mark) => Record::Mark(u16_at(input, at + 1), input[at + 3]),
        Some(Kind::Settle) => Record::Settle,
        Some(Kind::Sift) => Record::Sift,
        Some(Kind::Areas) => Record::Areas(u16_at(input, at + 1), u32_at(input, at + 3)),
        None => Record::Unknown,
    }
}
