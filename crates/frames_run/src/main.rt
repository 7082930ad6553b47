// Decodes the fields that a codec wrote for recorded frames, and spreads their factors over the frame's bands. A record on
// standard input is nine little-endian u32: the band count, low row, high row, shape, gain, sign A, sign B, index A and
// index B. It writes how many were accepted, and the sum of all band values' bits modulo 2^32, which the Rust's own
// decoder gives as well (tests/frames).
// It ends with an error where a read or a write fails or there is no memory for a buffer; what was written before stands.
#![tactic(auto)]

ghost use Rattle.std.specs.Prelude.{◌*◌, ◌≤◌};

use frame_fields::Fields;
use program_input::{bits_of, read_full, words};
use std::io;
use std::io::{BufReader, BufWriter, Read, Write};

// The next numbers of the input, eight at most, with 0 for each that it ends before. No more is read than is asked for.
fn next<const N: usize>(input: &mut impl Read) -> io::Result<[u32; N]>
    requires { 4 * N ≤ 32 }
{
    let mut bytes = [0u8; 32];
    read_full(input, &mut bytes[..4 * N])?;
    Ok(words::<N>(&bytes))
}

// A frame's fields.
fn fields(input: &mut impl Read) -> io::Result<Fields> {
    let [
        low_row,
        high_row,
        shape,
        gain,
        sign_a,
        sign_b,
        index_a,
        index_b,
    ] = next::<8>(input)?;
    Ok(Fields {
        low_row,
        high_row,
        shape,
        gain,
        sign_a,
        sign_b,
        index_a,
        index_b,
    })
}

// How many frames there were and how many were accepted, and the sum of the bits of all band values.
#[derive(Clone, Copy, Default)]
struct Seen {
    frames: u64,
    accepted: u64,
    sum: u32,
}

impl Seen {
    // Adds a frame, by 60 bands or by 64. A refused one leaves its factors 0, and adds nothing to the sum.
    fn add(&mut self, band_count: u32, fields: Fields) {
        let mut factors = [0.0f32; 16];
        self.frames = self.frames.wrapping_add(1);
        if sns_decode::decode(fields, &mut factors).is_ok() {
            self.accepted = self.accepted.wrapping_add(1);
        }
        if band_count == 60 {
            self.add_bands::<60>(&factors);
        } else {
            self.add_bands::<64>(&factors);
        }
    }

    fn add_bands<const N: usize>(&mut self, factors: &[f32; 16])
        requires { N ≤ 64 }
    {
        let mut bands = [0.0f32; N];
        // 60 or 64 bands of decoded factors, or of zeros: no call says no.
        let _ = sns_interpolate::interpolate(factors, N as u32, &mut bands);
        self.sum = bands
            .iter()
            .fold(self.sum, |sum, x| sum.wrapping_add(bits_of(*x)));
    }
}

// Every frame until the input ends, or until one has no bands: such a one ends it without a wait for its fields.
fn all(input: &mut impl Read) -> io::Result<Seen> {
    let mut seen = Seen::default();
    for _ in 0..u64::MAX {
        let [band_count] = next::<1>(input)?;
        if band_count == 0 {
            break;
        }
        seen.add(band_count, fields(input)?);
    }
    Ok(seen)
}

fn main(rt: HostRuntime) -> io::Result<()> {
    let mut input = BufReader::new(rt.alloc(), rt.reader())?;
    let Seen {
        frames,
        accepted,
        sum,
    } = all(&mut input)?;
    let mut out = BufWriter::new(rt.alloc(), io::writer(&rt))?;
    writeln!(
        out,
        "{accepted} accepted of {frames}, band values {sum:08x}"
    )?;
    out.flush()
}
