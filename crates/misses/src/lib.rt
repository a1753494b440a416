// The gcd, from a table or by its loop, and sums that miss a window by it: the leaves of residual.rs.
#![tactic(auto)]

ghost use Rattle.std.specs.Prelude.{◌≡◌, ◌≤◌, cond};
ghost use Rattle.divisors.specs.Gcd.{gcd};
ghost use Rattle.misses.specs.Misses.{misses, branch_misses};

// The greatest common divisor, 0 standing for no number: of two numbers below 64 from a table, of others by a loop in which the right
// number falls at each turn.
pub fn gcd(left: u64, right: u64) -> u64
    ensures { result ≡ gcd left right }
{
    if left < 64 && right < 64 {
        return divisors::small_gcd(left, right);
    }
    if left == 0 {
        return right;
    }
    // Many rows come down to 1 soon, and then there is nothing to divide.
    if left == 1 {
        return 1;
    }
    // In a row most weights are multiples of what the others share.
    if right % left == 0 {
        return left;
    }
    let mut a = left;
    let mut b = right;
    // Over no range: how often this turns hangs on the numbers.
    while b != 0 {
        let remainder = a % b;
        a = b;
        b = remainder;
    }
    a
}

// No sum base, base + divisor, base + 2 divisor .. lies from lower to upper. The distance to the next one is held against
// the width, so that nothing is added to an extreme bound.
pub fn misses(base: u64, lower: u64, upper: u64, divisor: u64) -> bool
    requires { (base ≤ lower) × (lower ≤ upper) }
    ensures { result ≡ misses base lower upper divisor }
{
    if divisor == 0 {
        return base < lower || base > upper;
    }
    let offset = lower - base;
    let remainder = offset % divisor;
    if remainder == 0 {
        return false;
    }
    let distance = divisor - remainder;
    let width = upper - lower;
    distance > width
}

// The same of the sums from base to maximum alone; where none of these is from lower to upper there is nothing to divide.
pub fn branch_misses(base: u64, maximum: u64, lower: u64, upper: u64, divisor: u64) -> bool
    ensures { result ≡ branch_misses base maximum lower upper divisor }
{
    let from = base.max(lower);
    let to = maximum.min(upper);
    if from > to {
        return true;
    }
    misses(base, from, to, divisor)
}

// The gcd with one weight more, which a decided term leaves out.
pub fn reduce(skip: bool, divisor: u64, weight: u64) -> u64
    ensures { result ≡ cond skip divisor (gcd divisor weight) }
{
    if skip { divisor } else { gcd(divisor, weight) }
}
