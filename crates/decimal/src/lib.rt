// Decimal numbers in text, read digit by digit.
#![tactic(auto)]

ghost use Rattle.std.specs.Prelude.{◌≡◌};
ghost use Rattle.decimal.specs.Decimal.{digit_after, with_digit};

// Text that is to be a number.
#[derive(Clone, Copy)]
pub enum Number {
    Empty,
    Value(u64),
    Bad,
}

// A number and one byte more.
fn digit_after(n: u64, b: u8) -> Number
    ensures { result ≡ digit_after n b }
{
    if b < 48 {
        return Number::Bad;
    }
    if 57 < b {
        return Number::Bad;
    }
    if u64::MAX / 10 < n {
        return Number::Bad;
    }
    let tens = 10 * n;
    let digit = u64::from(b) - 48;
    if u64::MAX - tens < digit {
        return Number::Bad;
    }
    Number::Value(tens + digit)
}

pub fn with_digit(number: Number, b: u8) -> Number
    ensures { result ≡ with_digit number b }
{
    match number {
        Number::Empty => digit_after(0, b),
        Number::Value(n) => digit_after(n, b),
        Number::Bad => Number::Bad,
    }
}
