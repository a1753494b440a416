// Bytes and decimal numbers put into a lent slice, one after the other.
#![tactic(auto)]

ghost use Rattle.std.specs.Prelude.{◌≡◌, [], ◌∷◌, ◌++◌, ◌+◌, ◌<◌, ◌%◌, length, drop, nat_abs};
ghost use Rattle.text.specs.Decimal.{decimal as decimalOf, decimal_z};
ghost use Rattle.text.specs.Writing.{HasRoom, Writes};
ghost use Rattle.text.specs.Numbers.{unit, pair, four as fourOf, max_decimal, max_signed};

// A text in the making: the buffer that is lent for it, and where it ends so far.
#[derive(Drop)]
pub struct Writer<'a> {
    pub out: &'a mut [u8],
    pub at: usize,
}

impl Writer<'_> {
    // A byte string behind what was written. Each method below needs room for its text, and keeps the buffer that it was lent.
    pub fn put(&mut self, text: &[u8])
        requires { HasRoom (length text.now) self.old }
        ensures same_buffer { self.new.out.ghost_name ≡ self.old.out.ghost_name }
        ensures wrote { Writes (length text.now) self.old self.new text.now }
    {
        let end = self.at + text.len();
        self.out[self.at..end].copy_from_slice(text);
        self.at = end;
    }

    // ---- numbers, digit by digit, since `format!` takes memory from the heap

    // The last digit of a number, the last two, the last four: each is the one before it twice, and no width by a parameter is plainer.
    fn one(&mut self, n: u64)
        requires { HasRoom 1 self.old }
        ensures same_buffer { self.new.out.ghost_name ≡ self.old.out.ghost_name }
        ensures wrote { Writes 1 self.old self.new (unit n ∷ []) }
    {
        self.out[self.at] = digit(n);
        self.at += 1;
    }

    fn two(&mut self, n: u64)
        requires { HasRoom 2 self.old }
        ensures same_buffer { self.new.out.ghost_name ≡ self.old.out.ghost_name }
        ensures wrote { Writes 2 self.old self.new (pair n) }
    {
        self.one(n / 10);
        self.one(n);
    }

    fn four(&mut self, n: u64)
        requires { HasRoom 4 self.old }
        ensures same_buffer { self.new.out.ghost_name ≡ self.old.out.ghost_name }
        ensures wrote { Writes 4 self.old self.new (fourOf n) }
    {
        self.two(n / 100);
        self.two(n);
    }

    // A number of at most four digits.
    fn short(&mut self, n: u64)
        requires { (n < 10000) × HasRoom 4 self.old }
        ensures same_buffer { self.new.out.ghost_name ≡ self.old.out.ghost_name }
        ensures wrote { Writes 4 self.old self.new (decimalOf n) }
    {
        if n < 10 {
            return self.one(n);
        }
        if n < 100 {
            return self.two(n);
        }
        if n < 1000 {
            self.one(n / 100);
            return self.two(n);
        }
        self.four(n)
    }

    // A number by way of a buffer of its own.
    fn long(&mut self, n: u64)
        requires { HasRoom max_decimal self.old }
        ensures same_buffer { self.new.out.ghost_name ≡ self.old.out.ghost_name }
        ensures wrote { Writes max_decimal self.old self.new (decimalOf n) }
    {
        let mut buffer = [0; 20];
        let first = digits(&mut buffer, n);
        self.put(&buffer[first..])
    }

    // Most numbers have at most eight digits, and are written where they stand.
    pub fn decimal(&mut self, n: u64)
        requires { HasRoom max_decimal self.old }
        ensures same_buffer { self.new.out.ghost_name ≡ self.old.out.ghost_name }
        ensures wrote { Writes max_decimal self.old self.new (decimalOf n) }
    {
        if n < 10000 {
            return self.short(n);
        }
        if n < 100000000 {
            self.short(n / 10000);
            return self.four(n);
        }
        self.long(n)
    }

    // A byte string and a number behind it.
    pub fn labelled(&mut self, label: &[u8], n: u64)
        requires { HasRoom (length label.now + max_decimal) self.old }
        ensures same_buffer { self.new.out.ghost_name ≡ self.old.out.ghost_name }
        ensures wrote { Writes (length label.now + max_decimal) self.old self.new (label.now ++ decimalOf n) }
    {
        self.put(label);
        self.decimal(n)
    }

    pub fn signed(&mut self, z: i64)
        requires { HasRoom max_signed self.old }
        ensures same_buffer { self.new.out.ghost_name ≡ self.old.out.ghost_name }
        ensures wrote { Writes max_signed self.old self.new (decimal_z z) }
    {
        if z < 0 {
            self.put(b"-");
        }
        self.decimal(z.unsigned_abs())
    }
}

fn digit(n: u64) -> u8
    ensures { result ≡ 48 + n % 10 }
{
    b'0' + (n % 10) as u8
}

// The digits of a number, the last one at the end; where the first one stands.
fn digits(into: &mut [u8], n: u64) -> usize
    requires { length into.old ≡ 20 }
    ensures { (result < 20) × (drop result into.new ≡ decimalOf n) }
{
    // No `for` over the places: the loop ends with the number's first digit, and gives back where that one stands.
    let mut first = 19;
    let mut rest = n;
    into[first] = digit(rest);
    while rest >= 10 {
        rest /= 10;
        first -= 1;
        into[first] = digit(rest);
    }
    first
}
