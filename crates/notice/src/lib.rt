// What the listing does not show, in words for a person: what a refusal means, and that no layout is left.
#![tactic(auto)]

ghost use Rattle.std.specs.Prelude.{◌≡◌, ◌≤◌, length};
ghost use Rattle.text.specs.Text.{Wrote};
ghost use Rattle.text.specs.Writing.{HasRoom, Writes};
ghost use Rattle.notice.specs.Notice.{meaning as meaningOf, refused_text, left_text, notice as noticeOf, max_meaning, max_refused, max_left, max_notice};

use files::Given;
use state::Step;
use text::Writer;

// What a refusal's number means: the number that is given back, as C gets it.
fn meaning(out: &mut Writer<'_>, number: u8)
    requires { HasRoom max_meaning out.old }
    ensures same_buffer { out.new.out.ghost_name ≡ out.old.out.ghost_name }
    ensures wrote { Writes max_meaning out.old out.new (meaningOf number) }
{
    match number {
        1 => out.put(b"the file ends inside this record"),
        2 => out.put(b"there is no record of this kind"),
        3 => out.put(b"this record is out of its turn"),
        4 => out.put(b"this is one more than the limits allow"),
        5 => out.put(b"this node is not below the node count"),
        6 => out.put(b"this node is not above that of the threshold before"),
        7 => out.put(b"this bound is outside -2^52 to 2^52"),
        8 => out.put(b"a mark is 1 for sure or 0 for never"),
        9 => out.put(b"an earlier record left no layout"),
        _ => out.put(b"the file is longer than 65,536 bytes"),
    }
}

// The line of a refusal; nothing if there was none.
fn refused(out: &mut Writer<'_>, number: u8, offset: usize)
    requires { HasRoom max_refused out.old }
    ensures same_buffer { out.new.out.ghost_name ≡ out.old.out.ghost_name }
    ensures wrote { Writes max_refused out.old out.new (refused_text number offset) }
{
    if number == 0 {
        return;
    }
    out.put(b"refused: ");
    meaning(out, number);
    out.labelled(b", at byte ", offset as u64);
    out.put(b"\n")
}

// The line of a contradiction, where it was the last answer.
fn left(out: &mut Writer<'_>, last: Step)
    requires { HasRoom max_left out.old }
    ensures same_buffer { out.new.out.ghost_name ≡ out.old.out.ghost_name }
    ensures wrote { Writes max_left out.old out.new (left_text last) }
{
    if last.contradicts() {
        out.put(b"no layout is left\n")
    }
}

// THE NOTICE of what the call gave back, from the start of the buffer; how many bytes it has.
pub fn notice(out: &mut [u8], given: Given) -> usize
    requires { max_notice ≤ length out.old }
    ensures { Wrote max_notice out.old out.new 0 result (noticeOf given) }
{
    let mut notice = Writer { out, at: 0 };
    refused(&mut notice, given.refused, given.at);
    left(&mut notice, given.last);
    notice.at
}
