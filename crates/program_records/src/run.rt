// Every record until the input ends, a line each, and the summary.
use crate::frames::{Quantized, quantized_record, write_frame, write_frame_as};
use program_input::{read_full, whole_records};
use std::fmt::Display;
use std::io::{BufWriter, Write};
use std::{fmt, io};

// 256 records of sixteen floats.
const BLOCK: usize = 16384;

// Room for 512 bytes of each of 256 lines, so that a block's lines are one write.
const LINES: usize = 131072;

// How many records were whole, how many of them were refused, and whether the last one was cut.
#[derive(Clone, Copy, Default)]
struct Summary {
    records: u64,
    refused: u64,
    is_cut: bool,
}

impl Display for Summary {
    fn fmt<W: fmt::Write>(&self, f: &mut fmt::Formatter<W>) -> fmt::Result {
        let Summary {
            records,
            refused,
            is_cut,
        } = *self;
        if is_cut {
            return write!(f, "cut\n{records} records, {refused} refused, 1 cut");
        }
        write!(f, "{records} records, {refused} refused")
    }
}

// Writes the lines of the whole records, a frame's by `line`, and answers how many were refused. It fails only with the error
// of a write, or as `line` does.
fn write_lines<W: Write, L: Fn(&mut W, &Quantized) -> io::Result<()>>(
    out: &mut W,
    bytes: &[u8],
    line: &L,
) -> io::Result<u64>
    requires { L.IsAlwaysCallable line.now }
{
    let mut refused = 0u64;
    for record in bytes.as_chunks::<64>().0 {
        match quantized_record(record) {
            Ok(quantized) => line(out, &quantized)?,
            Err(why) => {
                writeln!(out, "refused {why}")?;
                refused = refused.wrapping_add(1);
            }
        }
    }
    Ok(refused)
}

// Blocks of 256 records, until one is not full, and each float as `shown` has it. No input is long enough to reach the end
// of an u64. It fails only where there is no memory for the output's buffer, with the error of a read or of a write, or where
// what `shown` gives has none of its text; what was written before stands, and whole records of a block that could not be read
// have no line.
pub fn run<D: Display + Drop, F: Fn(f32) -> D>(
    rt: &(impl Input + Print + AllocGlobal),
    shown: F,
) -> io::Result<()>
    requires { F.IsAlwaysCallable shown }
{
    let mut input = rt.reader();
    let mut out = BufWriter::new(rt.alloc(), io::writer(rt))?;
    let mut block = [0u8; BLOCK];
    let mut all = Summary::default();
    for _ in 0..u64::MAX {
        let got = read_full(&mut input, &mut block)?;
        let bytes = &block[..got];
        let refused = write_lines(
            &mut out,
            bytes,
            &|out, quantized| write_frame(out, quantized, &shown),
        )?;
        all.records = all.records.wrapping_add(whole_records(bytes) as u64);
        all.refused = all.refused.wrapping_add(refused);
        all.is_cut = got % 64 != 0;
        if got < BLOCK {
            break;
        }
        // no line waits for the next block
        out.flush()?;
    }
    writeln!(out, "{all}")?;
    out.flush()
}

// As `run`, each float as a D, so that nothing is asked of the caller. A block's lines, up to 512 bytes each, are one write.
// The loop is `run`'s again: one for both took 16 bytes of stack more.
pub fn run_as<D: Display + Drop + From<f32>>(
    rt: &(impl Input + Print + AllocGlobal),
) -> io::Result<()> {
    let mut input = rt.reader();
    let mut out = BufWriter::with_capacity(rt.alloc(), LINES, io::writer(rt))?;
    let mut block = [0u8; BLOCK];
    let mut all = Summary::default();
    for _ in 0..u64::MAX {
        let got = read_full(&mut input, &mut block)?;
        let bytes = &block[..got];
        let refused = write_lines(
            &mut out,
            bytes,
            &|out, quantized| write_frame_as::<D>(out, quantized),
        )?;
        all.records = all.records.wrapping_add(whole_records(bytes) as u64);
        all.refused = all.refused.wrapping_add(refused);
        all.is_cut = got % 64 != 0;
        if got < BLOCK {
            break;
        }
        // no line waits for the next block
        out.flush()?;
    }
    writeln!(out, "{all}")?;
    out.flush()
}
