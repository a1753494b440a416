// The greatest common divisor of two small numbers, from a table.
#![tactic(auto)]

ghost use Rattle.std.specs.Prelude.{◌≡◌, true, ◌<◌};
ghost use Rattle.divisors.specs.Gcd.{gcd};
ghost use Rattle.divisors.specs.Table.{all_right};

mod table;

// The table, of which every entry is right. A `static` stands in one place of the program and is read there; a constant would be
// written out on the stack wherever it is read.
fn small_gcds() -> &'static [[[u8; 64]; 8]; 8]
    ensures { all_right result.now ≡ true }
{
    &table::SMALL_GCDS
}

// The gcd of two numbers below 64: the entry in the row of the left one and the column of the right one.
pub fn small_gcd(left: u64, right: u64) -> u64
    requires { (left < 64) × (right < 64) }
    ensures { result ≡ gcd left right }
{
    let groups = small_gcds();
    let group = left / 8;
    let row = left % 8;
    u64::from(groups[group as usize][row as usize][right as usize])
}
