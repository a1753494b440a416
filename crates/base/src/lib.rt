// What every crate above stands on: laws of lists, tests and signed numbers (specs/), `natural` and `copy`.
#![tactic(auto)]

ghost use Rattle.std.specs.Prelude.{◌≡◌, length};
ghost use Rattle.base.specs.Signed.{natural as naturalOf};

// A figure that is not negative as it is, any other as 0.
pub fn natural(figure: i64) -> u64
    ensures { result ≡ naturalOf figure }
{
    u64::try_from(figure).unwrap_or(0)
}

// A list as it is. By a loop: `copy_from_slice` makes the archive for C ask its user for `memmove`, which it does without.
pub fn copy<T: Copy>(from: &[T], to: &mut [T])
    requires { length to.old ≡ length from.now }
    ensures { to.new ≡ from.now }
{
    for at in 0..to.len() {
        to[at] = from[at];
    }
}
