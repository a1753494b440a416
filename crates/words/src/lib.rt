// Bits of 64-bit words: words.rs, region.rs, and `bit` and `learn` of regions.rs.
#![tactic(auto)]

ghost use Rattle.std.specs.Prelude.{◌≡◌, ◌+◌, ◌-◌, ◌*◌, ◌/◌, ◌^◌, ◌<◌, ◌≤◌, min, length};
ghost use Rattle.words.specs.Mask.{bit as is_set, in_either, count as nodes, learn as learnt};
ghost use Rattle.words.specs.Shift.{meets as inside, shift_word, word_hits, union_shifted};

use state::Step;

// How a shift of a set of sums ended, with the visits that are left.
#[derive(Clone, Copy)]
pub enum Ended {
    // A moved bit lies in the window; words below were not moved.
    Hit(usize),
    // Every word was moved, and no moved bit lies in the window.
    Complete(usize),
    // The next word would have passed the allowance.
    Stopped,
}

// The number of 64-bit words that a mask over so many nodes takes.
fn words(atoms: usize) -> usize
    ensures { result ≡ (atoms + 63) / 64 }
{
    atoms.div_ceil(64)
}

// Whether node n is in the mask.
pub fn bit(mask: &[u64], n: usize) -> bool
    requires { n / 64 < length mask.now }
    ensures { result ≡ is_set mask.now n }
{
    (mask[n / 64] >> (n % 64)) % 2 == 1
}

// Whether a node is in one of the masks.
pub fn decided(sure: &[u64], never: &[u64], node: u16) -> bool
    requires { (node < 4096) × (64 ≤ length sure.now) × (64 ≤ length never.now) }
    ensures { result ≡ in_either sure.now never.now node }
{
    let n = usize::from(node);
    bit(sure, n) | bit(never, n)
}

// Node n is put into the mask; nothing new if it is there already, a contradiction if the opposite mask has it.
pub fn learn(mask: &mut [u64], opposite: &[u64], n: usize) -> Step
    requires { (n / 64 < length mask.old) × (n / 64 < length opposite.now) }
    ensures into { mask.new ≡ (learnt mask.old opposite.now n).mask }
    ensures step { result ≡ (learnt mask.old opposite.now n).step }
{
    if bit(mask, n) {
        return Step::Unchanged;
    }
    if bit(opposite, n) {
        return Step::Contradiction;
    }
    mask[n / 64] |= 1 << (n % 64);
    Step::Changed
}

// How many nodes the mask has.
pub fn count(mask: &[u64]) -> usize
    requires { length mask.now < 2 ^ 58 }
    ensures { result ≡ nodes mask.now (64 * length mask.now) }
{
    let mut sum = 0;
    for word in mask {
        sum += word.count_ones() as usize;
    }
    sum
}

// The source words that stay inside the slice when they are moved.
fn readable_words(source_words: usize, length: usize, displacement: usize) -> usize
    ensures { result ≡ min source_words (length - displacement) }
{
    source_words.min(length.saturating_sub(displacement))
}

// Whether some bit of the word that stands at a position lies in the places from start to end.
fn meets(position: usize, bits: u64, start: usize, end: usize) -> bool
    ensures { result ≡ inside position bits start end }
{
    if position < start / 64 {
        return false;
    }
    if end / 64 < position {
        return false;
    }
    let base = position * 64;
    let above = 63_usize.saturating_sub(end - base);
    let below = start.saturating_sub(base);
    // Places behind the window leave the word at its top, places before it at its bottom.
    ((bits << above) >> above) >> below != 0
}

// One source word, moved up and joined to what stands there; whether one of the moved bits lies in the window.
fn shift_word(words: &mut [u64], source: usize, shift: usize, start: usize, end: usize) -> bool
    requires { source + shift / 64 < length words.old }
    ensures moved { words.new ≡ shift_word words.old source shift }
    ensures hit { result ≡ word_hits words.old source shift start end }
{
    let bits = words[source];
    let target = source + shift / 64;
    let offset = shift % 64;
    let low = bits << offset;
    let joined = words[target] | low;
    words[target] = joined;
    // The window is asked of the moved bits alone, not of what stood there before.
    let found = meets(target, low, start, end);
    if offset == 0 {
        return found;
    }
    let last = words.len() - 1;
    if last <= target {
        return found;
    }
    let high = bits >> (64 - offset);
    words[target + 1] |= high;
    if found {
        return true;
    }
    meets(target + 1, high, start, end)
}

// Adds the first source words, moved up by shift places, to the words, the highest first, so that no bit moves twice. A visit is
// taken from the allowance before each source word. It ends early at the first word of which a moved bit lies in the window.
pub fn union_shifted_until_hit(
    words: &mut [u64],
    source_words: usize,
    shift: usize,
    start: usize,
    end: usize,
    allowance: usize,
) -> Ended
    ensures moved { words.new ≡ (union_shifted words.old source_words shift start end allowance).words }
    ensures ended { result ≡ (union_shifted words.old source_words shift start end allowance).ended }
{
    let readable = readable_words(source_words, words.len(), shift / 64);
    let mut left = allowance;
    for source in (0..readable).rev() {
        if left == 0 {
            return Ended::Stopped;
        }
        left -= 1;
        if shift_word(words, source, shift, start, end) {
            return Ended::Hit(left);
        }
    }
    Ended::Complete(left)
}
