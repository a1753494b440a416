// The planner: reads a job file from standard input, plans it and writes its listing to standard output. On standard error it says in
// words what the listing does not show.
#![tactic(auto)]

ghost use Rattle.std.specs.Prelude.{◌<◌, ◌≤◌, ◌≡◌, false, length};
ghost use Rattle.memory.specs.Buffers.{longest_input};
ghost use Rattle.files.specs.Listing.{max_listing};
ghost use Rattle.notice.specs.Notice.{max_notice};
ghost use Rattle.planner_main.specs.Reads.{Got, Reads, Prints, Tells};

use std::io;
use std::io::{Print, Read};

// ---- reading

// What one read gave: so many bytes, or none at the end of the input.
fn read_some(rt: HostRuntime, into: &mut [u8]) -> io::Result<Option<usize>>
    ensures { Got (length into.old) result }
{
    let count = rt.stdin().read(into)?;
    if count == 0 {
        return Ok(None);
    }
    Ok(Some(count))
}

// What was read, and whether the input ended behind it; if not, there was no room for more. A flag, as in the definition of what the input
// can be.
#[derive(Clone, Copy)]
struct Input<'a> {
    read: &'a [u8],
    ended: bool,
}

// Standard input to its end, or as much of it as there is room for.
fn read_input(rt: HostRuntime, into: &mut [u8]) -> io::Result<Input<'_>>
    ensures { Reads (length into.old) result }
{
    let mut end = 0;
    // A read gives as much as it likes, so that no range says how often this turns.
    while end < into.len() {
        let Some(count) = read_some(rt, &mut into[end..])? else {
            return Ok(Input {
                read: &into[..end],
                ended: true,
            });
        };
        end += count;
    }
    Ok(Input {
        read: &into[..end],
        ended: false,
    })
}

// ---- writing: what goes out is tied to what was read, and whether the input had ended then

// Hands a text to standard output: the listing of every input that can be.
fn print(rt: HostRuntime, input: Input<'_>, text: &[u8]) -> io::Result<()>
    requires { Prints input.ended input.read.now text.now }
{
    rt.stdout().write_all(text)
}

// Hands a text to standard error: the notice of every input that can be.
fn tell(rt: HostRuntime, input: Input<'_>, text: &[u8])
    requires { Tells input.ended input.read.now text.now }
{
    // Nothing is left to say it by, where standard error fails: here and in `say`.
    let _ = rt.stderr().write_all(text);
}

// Reading or writing failed.
fn say(rt: HostRuntime, text: &[u8]) {
    let _ = rt.stderr().write_all(text);
}

// Plans what was read, writes its listing at once, and says what the listing does not show.
fn answer(rt: HostRuntime, input: Input<'_>, out: &mut [u8], words: &mut [u8])
    requires { (input.ended ≡ false → longest_input < length input.read.now) × (max_listing ≤ length out.old) × (max_notice ≤ length words.old) }
{
    let planned = report::plan(input.read, out);
    let end = notice::notice(words, planned.given);
    let length = planned.length;
    if print(rt, input, &out[..length]).is_err() {
        say(rt, b"writing failed\n");
    }
    tell(rt, input, &words[..end]);
}

// The whole program, over room for more than the longest input, for the listing and for the notice.
fn run(rt: HostRuntime, buffer: &mut [u8], out: &mut [u8], words: &mut [u8])
    requires { (longest_input < length buffer.old) × (max_listing ≤ length out.old) × (max_notice ≤ length words.old) }
{
    match read_input(rt, buffer) {
        Ok(input) => answer(rt, input, out, words),
        Err(_) => say(rt, b"reading failed\n"),
    }
}

fn main(rt: HostRuntime) {
    // One byte more than the call takes, so that a longer input is seen to be longer.
    let mut buffer = [0u8; 65537];
    let mut out = [0u8; 262144];
    let mut words = [0u8; 110];
    run(rt, &mut buffer, &mut out, &mut words);
}
