// Bytes as numbers: what the programs read. Public for the programs and the crates that they share. Each function is proved
// to run safely on every input; clauses say what words, patterns and a filled buffer are, and the rest is held to the Rust's
// answers by the programs' expected output (tests/frames).
#![tactic(auto)]

ghost use Rattle.std.specs.Prelude.{ℕ, ◌≡◌, ◌+◌, ◌*◌, ◌<◌, ◌≤◌, length, take, IfOk, OnErr};
ghost use Rattle.std.specs.Io.KnownBytes.{Consumes, IsAtEnd};
ghost use Rattle.list_laws.specs.ListOf.{list_of};
ghost use Rattle.program_input.specs.Pattern.{pattern_of, float_at, word_at, record_of};

use std::io::Read;
use std::{array, io};

// The words of bytes, four of these each, the lowest first.
pub fn words<const N: usize>(bytes: &[u8]) -> [u32; N]
    requires { 4 * N ≤ length bytes.now }
    ensures { result ≡ list_of N (word_at bytes.now) }
{
    let (words, _) = bytes.as_chunks::<4>();
    array::from_fn(|n| u32::from_le_bytes(words[n]))
}

// The float of a pattern. No proof says which NaN a float is, so every NaN is one: its pattern, but for the sign, is above
// that of infinity.
pub fn float_of(bits: u32) -> f32
    ensures { result ≡ float_at bits }
{
    if 0x7f80_0000 < bits % 0x8000_0000 {
        return f32::NAN;
    }
    f32::from_bits(bits)
}

// The pattern of a float; every NaN is one.
pub fn bits_of(x: f32) -> u32
    ensures { result ≡ pattern_of x }
{
    if x.is_nan() {
        return 0x7fc0_0000;
    }
    x.to_bits()
}

// How many records of 64 bytes are whole.
pub fn whole_records(bytes: &[u8]) -> usize
    ensures { 64 * result ≤ length bytes.now }
{
    bytes.len() / 64
}

// The sixteen floats of a record.
pub fn record(bytes: &[u8; 64]) -> [f32; 16]
    ensures { result ≡ record_of bytes.now }
{
    let words = words::<16>(bytes);
    array::from_fn(|n| float_of(words[n]))
}

// Reads until `buf` is full or the input ends, and answers how many bytes it put at the start of `buf`. It fails only with the
// error of a read; at the start of `buf` stands then what was read before it.
pub fn read_full<R: Read>(input: &mut R, buf: &mut [u8]) -> io::Result<usize>
    ensures bound { IfOk result (λ n. n ≤ length buf.new) }
    ensures bytes { IfOk result (λ n. Consumes (R.remaining input.old) (R.remaining input.new) (take n buf.new)) }
    ensures end { IfOk result (λ n. n < length buf.new → IsAtEnd (R.remaining input.new)) }
    ensures err { OnErr result ((n : ℕ) × (n ≤ length buf.new) × Consumes (R.remaining input.old) (R.remaining input.new) (take n buf.new)) }
{
    let mut done = 0usize;
    // a `while`: each read says how far it came, and no iterator does
    while done < buf.len() {
        let got = input.read(&mut buf[done..])?;
        if got == 0 {
            break;
        }
        done += got;
    }
    Ok(done)
}
