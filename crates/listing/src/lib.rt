// The listing of document 01: what the call gave back and what it left in its buffers, as bytes in a lent buffer of fixed length.
#![tactic(auto)]

ghost use Rattle.std.specs.Prelude.{◌≡◌, true, ◌++◌, ◌+◌, ◌*◌, ◌<◌, ◌≤◌, length};
ghost use Rattle.files.specs.Listing.{text as text_of, upper_text, step_word, figures as figuresText, answer_line, max_listing};
ghost use Rattle.text.specs.Decimal.{decimal as decimalOf, decimal_z};
ghost use Rattle.text.specs.Text.{joined};
ghost use Rattle.text.specs.Writing.{HasRoom, Writes};
ghost use Rattle.text.specs.Numbers.{max_signed};
ghost use Rattle.listing.specs.Lines.{max_step, max_figures, max_answer_line, max_node_line, max_row_line, max_last_line, max_node_lines, max_front, step_of, answer_of, answer_at, node_at, row_line, row_at, end_line, refused_line, decided, node_text, front_text, row_count_of, last_text, InMasks, Answered, Listable};
ghost use Rattle.listing.specs.Shows.{Listed};

use files::Given;
use state::State;
use text::Writer;

// The nodes that are decided, as bits of words: those that are in every layout, those that are in none.
#[derive(Clone, Copy)]
struct Masks<'a> {
    sure: &'a [u64],
    never: &'a [u64],
}

// ---- answers

// An answer's step, by its number in the lent buffer.
fn step(out: &mut Writer<'_>, number: u16)
    requires { HasRoom max_step out.old }
    ensures same_buffer { out.new.out.ghost_name ≡ out.old.out.ghost_name }
    ensures wrote { Writes max_step out.old out.new (step_word (step_of number)) }
{
    match number {
        0 => out.put(b"unchanged"),
        1 => out.put(b"changed"),
        _ => out.put(b"contradiction"),
    }
}

fn answer(out: &mut Writer<'_>, number: u16, visits: u16)
    requires { HasRoom max_answer_line out.old }
    ensures same_buffer { out.new.out.ghost_name ≡ out.old.out.ghost_name }
    ensures wrote { Writes max_answer_line out.old out.new (answer_line (answer_of number visits)) }
{
    if number < 4 {
        out.put(b"settle ");
        step(out, number);
        return out.put(b"\n");
    }
    out.put(b"sift ");
    step(out, number - 4);
    out.labelled(b" ", u64::from(visits));
    out.put(b"\n")
}

fn answer_lines(out: &mut Writer<'_>, answers: &[[u16; 2]])
    requires { HasRoom (max_answer_line * length answers.now) out.old }
    ensures same_buffer { out.new.out.ghost_name ≡ out.old.out.ghost_name }
    ensures wrote { Writes (max_answer_line * length answers.now) out.old out.new (joined (answer_at answers.now) (length answers.now)) }
{
    for line in answers {
        answer(out, line[0], line[1]);
    }
}

// ---- nodes

fn node(out: &mut Writer<'_>, n: usize, value: &[u8])
    requires { HasRoom (25 + length value.now) out.old }
    ensures same_buffer { out.new.out.ghost_name ≡ out.old.out.ghost_name }
    ensures wrote { Writes (25 + length value.now) out.old out.new (text_of "node " ++ decimalOf n ++ value.now) }
{
    out.labelled(b"node ", n as u64);
    out.put(value)
}

// Nothing for a node that is undecided.
fn node_line(out: &mut Writer<'_>, n: usize, masks: Masks<'_>)
    requires { HasRoom max_node_line out.old × (n < 64 * length masks.sure.now) × (n < 64 * length masks.never.now) }
    ensures same_buffer { out.new.out.ghost_name ≡ out.old.out.ghost_name }
    ensures wrote { Writes max_node_line out.old out.new (node_at masks.entry.sure.now masks.entry.never.now n) }
{
    if words::bit(masks.sure, n) {
        return node(out, n, b" sure\n");
    }
    if words::bit(masks.never, n) {
        node(out, n, b" never\n")
    }
}

fn node_lines(out: &mut Writer<'_>, count: usize, masks: Masks<'_>)
    requires { HasRoom (max_node_line * count) out.old × (count ≤ 64 * length masks.sure.now) × (count ≤ 64 * length masks.never.now) }
    ensures same_buffer { out.new.out.ghost_name ≡ out.old.out.ghost_name }
    ensures wrote { Writes (max_node_line * count) out.old out.new (joined (node_at masks.entry.sure.now masks.entry.never.now) count) }
{
    for n in 0..count {
        node_line(out, n, masks);
    }
}

// ---- rows

fn upper(out: &mut Writer<'_>, limit: Option<i64>)
    requires { HasRoom max_signed out.old }
    ensures same_buffer { out.new.out.ghost_name ≡ out.old.out.ghost_name }
    ensures wrote { Writes max_signed out.old out.new (upper_text limit) }
{
    match limit {
        None => out.put(b"-"),
        Some(z) => out.signed(z),
    }
}

// A figure and a space.
fn figure(out: &mut Writer<'_>, z: i64)
    requires { HasRoom (max_signed + 1) out.old }
    ensures same_buffer { out.new.out.ghost_name ≡ out.old.out.ghost_name }
    ensures wrote { Writes (max_signed + 1) out.old out.new (decimal_z z ++ text_of " ") }
{
    out.signed(z);
    out.put(b" ")
}

fn figures(out: &mut Writer<'_>, state: State)
    requires { HasRoom max_figures out.old }
    ensures same_buffer { out.new.out.ghost_name ≡ out.old.out.ghost_name }
    ensures wrote { Writes max_figures out.old out.new (figuresText state) }
{
    figure(out, state.known);
    figure(out, state.possible);
    figure(out, state.lower);
    let limit = state.upper;
    upper(out, limit)
}

fn row_line(out: &mut Writer<'_>, r: usize, state: State)
    requires { HasRoom max_row_line out.old }
    ensures same_buffer { out.new.out.ghost_name ≡ out.old.out.ghost_name }
    ensures wrote { Writes max_row_line out.old out.new (row_line r state) }
{
    out.labelled(b"row ", r as u64);
    out.put(b" ");
    figures(out, state);
    out.put(b"\n")
}

fn row_lines(out: &mut Writer<'_>, states: &[State])
    requires { HasRoom (max_row_line * length states.now) out.old }
    ensures same_buffer { out.new.out.ghost_name ≡ out.old.out.ghost_name }
    ensures wrote { Writes (max_row_line * length states.now) out.old out.new (joined (row_at states.now) (length states.now)) }
{
    for (r, state) in states.iter().enumerate() {
        row_line(out, r, *state);
    }
}

// ---- the last line

fn end_line(out: &mut Writer<'_>, masks: Masks<'_>)
    requires { HasRoom max_last_line out.old × (64 ≤ length masks.sure.now) × (64 ≤ length masks.never.now) }
    ensures same_buffer { out.new.out.ghost_name ≡ out.old.out.ghost_name }
    ensures wrote { Writes max_last_line out.old out.new (end_line (decided masks.entry.sure.now) (decided masks.entry.never.now)) }
{
    let sures = words::count(&masks.sure[..64]);
    let nevers = words::count(&masks.never[..64]);
    out.labelled(b"end ", sures as u64);
    out.labelled(b" ", nevers as u64);
    out.put(b"\n")
}

fn refused_line(out: &mut Writer<'_>, number: u8, offset: usize)
    requires { HasRoom max_last_line out.old }
    ensures same_buffer { out.new.out.ghost_name ≡ out.old.out.ghost_name }
    ensures wrote { Writes max_last_line out.old out.new (refused_line number offset) }
{
    out.labelled(b"refused ", u64::from(number));
    out.labelled(b" at ", offset as u64);
    out.put(b"\n")
}

// ---- the whole

// If sealed, the nodes that are decided, rising.
fn decided_lines(out: &mut Writer<'_>, given: Given, masks: Masks<'_>)
    requires { HasRoom max_node_lines out.old × (given.sealed ≡ true → InMasks given masks.sure.now masks.never.now) }
    ensures same_buffer { out.new.out.ghost_name ≡ out.old.out.ghost_name }
    ensures wrote { Writes max_node_lines out.old out.new (node_text given masks.entry.sure.now masks.entry.never.now) }
{
    if given.sealed {
        node_lines(out, given.nodes, masks)
    }
}

// All lines in front of the rows.
fn front_lines(out: &mut Writer<'_>, given: Given, answers: &[[u16; 2]], masks: Masks<'_>)
    requires { HasRoom max_front out.old × Answered given answers.now × (given.sealed ≡ true → InMasks given masks.sure.now masks.never.now) }
    ensures same_buffer { out.new.out.ghost_name ≡ out.old.out.ghost_name }
    ensures wrote { Writes max_front out.old out.new (front_text given answers.now masks.entry.sure.now masks.entry.never.now) }
{
    answer_lines(out, &answers[..given.answered]);
    decided_lines(out, given, masks)
}

// How many rows are listed.
fn row_count(given: Given) -> usize
    ensures { result ≡ row_count_of given }
{
    if given.sealed { given.rows } else { 0 }
}

fn last_line(out: &mut Writer<'_>, given: Given, masks: Masks<'_>)
    requires { HasRoom max_last_line out.old × (given.refused ≡ 0 → (64 ≤ length masks.sure.now) × (64 ≤ length masks.never.now)) }
    ensures same_buffer { out.new.out.ghost_name ≡ out.old.out.ghost_name }
    ensures wrote { Writes max_last_line out.old out.new (last_text given masks.entry.sure.now masks.entry.never.now) }
{
    let refused = given.refused;
    if refused == 0 {
        return end_line(out, masks);
    }
    refused_line(out, refused, given.at)
}

// THE LISTING of the file whose outcome these show, from the start of the buffer; how many bytes it has.
pub fn list(
    out: &mut [u8],
    given: Given,
    answers: &[[u16; 2]],
    states: &[State],
    sure: &[u64],
    never: &[u64],
) -> usize
    requires { Listable given answers.now states.now sure.now never.now × (max_listing ≤ length out.old) }
    ensures { Listed given answers.now states.now sure.now never.now out.old out.new result }
{
    let masks = Masks { sure, never };
    let mut listing = Writer { out, at: 0 };
    front_lines(&mut listing, given, answers, masks);
    let count = row_count(given);
    row_lines(&mut listing, &states[..count]);
    last_line(&mut listing, given, masks);
    listing.at
}
