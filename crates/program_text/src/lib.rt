// Floats, and items in a row, as text: what the programs share. Public for the crates above only. Each function is proved to
// run safely on every input, and `Bits` to write its digits; the rest of what is written is held to the Rust's answers by the
// programs' expected output (tests/frames).
#![tactic(auto)]

ghost use Rattle.std.specs.Prelude.{◌≡◌, Some};
ghost use Rattle.std.specs.Iterator.{IsFinite};
ghost use Rattle.program_input.specs.Pattern.{pattern_of};
ghost use Rattle.program_text.specs.Text.{eight_digits};

use itoa::Buffer;
use program_input::bits_of;
use std::io::Write;
use std::num::{f32_to_f64_with_nan, saturating_f64_to_u64};
use std::{fmt, io};

// A float by its bits, eight hexadecimal digits.
#[derive(Clone, Copy)]
pub struct Bits(pub f32);

impl From<f32> for Bits {
    ghost from_gives = { λ x bits. bits.0 ≡ x };

    fn from(x: f32) -> Bits {
        Bits(x)
    }
}

impl fmt::Display for Bits {
    ghost output = { λ bits. Some (eight_digits (pattern_of bits.0)) };

    fn fmt<W: fmt::Write>(&self, f: &mut fmt::Formatter<W>) -> fmt::Result {
        write!(f, "{:08x}", bits_of(self.0))
    }
}

// The numbers below ten, each with a point.
static SHORT: [&str; 10] = ["0.", "1.", "2.", "3.", "4.", "5.", "6.", "7.", "8.", "9."];

// A float as a person reads it: -1.250000. It is not `{:.6}`, which takes the even one of two as near and shows the sign of
// a zero.
#[derive(Clone, Copy)]
pub struct Decimal(pub f32);

impl From<f32> for Decimal {
    ghost from_gives = { λ x decimal. decimal.0 ≡ x };

    fn from(x: f32) -> Decimal {
        Decimal(x)
    }
}

impl fmt::Display for Decimal {
    fn fmt<W: fmt::Write>(&self, f: &mut fmt::Formatter<W>) -> fmt::Result {
        let number = millionths(self.0.abs());
        if self.0 < 0.0 {
            f.write_str("-")?;
        }
        write_whole(f, number / 1_000_000)?;
        // a 1 before the six places keeps the zeros in front of them, and is left out
        f.write_str(&Buffer::new().format(1_000_000 + number % 1_000_000)[1..])
    }
}

// A number and a point; those that most factors have are one piece.
fn write_whole<W: fmt::Write>(f: &mut fmt::Formatter<W>, whole: u64) -> fmt::Result {
    if whole < 10 {
        return f.write_str(SHORT[whole as usize]);
    }
    f.write_str(Buffer::new().format(whole))?;
    f.write_str(".")
}

// A float's size in millionths, to the nearest, and the larger of two as near; the largest u64 where it is none. A float
// has 24 digits in base 2 and a million has 14, so the product is exact.
fn millionths(size: f32) -> u64 {
    if size.is_nan() {
        return u64::MAX;
    }
    saturating_f64_to_u64(f32_to_f64_with_nan(size) * 1_000_000.0 + 0.5)
}

// A line of items, a space before each. It fails only with the error of a write, or where an item gives none of its text, as
// neither of those above does; what was written before stands.
pub fn line<D: fmt::Display + Drop, I: Iterator<Item = D> + Drop>(
    out: &mut impl Write,
    items: I,
) -> io::Result<()>
    requires can { I.can_next items }
    requires ends { IsFinite (I.remaining items) }
{
    for item in items {
        write!(out, " {item}")?;
    }
    writeln!(out)
}
