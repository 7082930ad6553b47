// Runs the decoder's side through the public calls, at its corners, and prints what they compute, each f32 by its bit
// pattern.
// It ends with an error where a write fails or there is no memory for the buffer; what was written before stands.
#![tactic(auto)]

ghost use Rattle.std.specs.Prelude.{◌≤◌, length};

use factor::Checked;
use frame_fields::Fields;
use program_input::float_of;
use program_text::{Bits, line};
use refusals::{Refusal, Refused};
use std::fmt::Display;
use std::io;
use std::io::{BufWriter, Write};

// 64.0 and its neighbours on both sides, zeros and the infinities.
const CHECKED: [u32; 9] = [
    0x4280_0000,
    0x4280_0001,
    0x427f_ffff,
    0xc280_0000,
    0xc280_0001,
    0x0000_0000,
    0x8000_0000,
    0x7f80_0000,
    0xff80_0000,
];

// Frames of each shape, with its first and last gain and both ends of the indices.
const FRAMES: [Fields; 5] = [
    Fields {
        low_row: 0,
        high_row: 0,
        shape: 0,
        gain: 0,
        sign_a: 0,
        sign_b: 0,
        index_a: 0,
        index_b: 0,
    },
    Fields {
        low_row: 31,
        high_row: 31,
        shape: 0,
        gain: 1,
        sign_a: 1,
        sign_b: 1,
        index_a: 2390003,
        index_b: 5,
    },
    Fields {
        low_row: 17,
        high_row: 5,
        shape: 1,
        gain: 3,
        sign_a: 0,
        sign_b: 0,
        index_a: 1,
        index_b: 0,
    },
    Fields {
        low_row: 1,
        high_row: 2,
        shape: 2,
        gain: 3,
        sign_a: 1,
        sign_b: 0,
        index_a: 15158271,
        index_b: 0,
    },
    Fields {
        low_row: 3,
        high_row: 4,
        shape: 3,
        gain: 7,
        sign_a: 0,
        sign_b: 0,
        index_a: 774911,
        index_b: 0,
    },
];

// What a call leaves in a row of floats, by their bits, behind words for it; or its refusal.
fn print_row(
    out: &mut impl Write,
    words: impl Display + Drop,
    answer: Result<(), Refused>,
    row: &[f32],
) -> io::Result<()> {
    write!(out, "{words}")?;
    match answer {
        Ok(()) => line(out, row.iter().map(|x| Bits(*x))),
        Err(refused) => writeln!(out, " no {refused}"),
    }
}

// What the check of a factor answers.
fn check(out: &mut impl Write, name: impl Display + Drop, x: f32) -> io::Result<()> {
    write!(out, "check {name} ")?;
    match sns_check::check_factor(x) {
        Checked::Within(x) => writeln!(out, "taken {}", Bits(x)),
        Checked::TooFar(x) => writeln!(out, "no {} {}", Refusal::TooFar.number(), Bits(x)),
        Checked::NotFinite => writeln!(out, "no {}", Refusal::NotFinite.number()),
    }
}

// A NaN has no bits of its own.
fn checks(out: &mut impl Write) -> io::Result<()> {
    for bits in CHECKED {
        let x = float_of(bits);
        check(out, Bits(x), x)?;
    }
    check(out, "nan", f32::NAN)
}

// Sixteen factors as so many bands.
fn print_bands<const N: usize>(out: &mut impl Write, factors: &[f32; 16]) -> io::Result<()>
    requires { N ≤ 64 }
{
    let mut bands = [0.0f32; N];
    let answer = sns_interpolate::interpolate(factors, N as u32, &mut bands);
    print_row(out, format_args!("bands {N}"), answer, &bands)
}

fn print_both(out: &mut impl Write, factors: &[f32; 16]) -> io::Result<()> {
    print_bands::<64>(out, factors)?;
    print_bands::<60>(out, factors)
}

// Factors 0, 8, 8, ..., and factors 14 and 15 of 0 and 8.
fn interpolations(out: &mut impl Write) -> io::Result<()> {
    let mut first = [8.0f32; 16];
    first[0] = 0.0;
    print_both(out, &first)?;
    let mut last = [0.0f32; 16];
    last[15] = 8.0;
    print_both(out, &last)
}

fn syntheses(out: &mut impl Write) -> io::Result<()> {
    for fields in FRAMES {
        let mut factors = [0.0f32; 16];
        match sns_decode::decode(fields, &mut factors) {
            Ok(()) => print_both(out, &factors)?,
            Err(refused) => writeln!(out, "no {refused}")?,
        }
    }
    Ok(())
}

// 80 lines of 8 kHz and 10 ms, and two past the last limit; the product of line 78 is infinite.
fn wide_spectrum(out: &mut impl Write) -> io::Result<()> {
    let mut gains = [2.0f32; 64];
    gains[63] = 4.0;
    let mut lines = [1.5f32; 82];
    lines[78] = f32::MAX;
    let answer = sns_shape::shape(0, true, 64, &gains, &mut lines);
    print_row(out, "lines", answer, &lines)
}

// 60 lines of 8 kHz and 7.5 ms, and one past the last limit.
fn narrow_spectrum(out: &mut impl Write) -> io::Result<()> {
    let mut lines = [3.0f32; 61];
    let answer = sns_shape::shape(0, false, 60, &[0.5; 60], &mut lines);
    print_row(out, "lines", answer, &lines)
}

fn main(rt: HostRuntime) -> io::Result<()> {
    let mut out = BufWriter::new(rt.alloc(), io::writer(&rt))?;
    checks(&mut out)?;
    interpolations(&mut out)?;
    syntheses(&mut out)?;
    wide_spectrum(&mut out)?;
    narrow_spectrum(&mut out)?;
    out.flush()
}
