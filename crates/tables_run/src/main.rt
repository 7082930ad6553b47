// Writes every table, a row a line: floats by their bits, whole numbers in decimal. The file stdout beside src/ is what the
// Rust's own tables give (tests/tables/record.sh), so the two are equal bit for bit.
// It ends with an error where a write fails or there is no memory for the buffer; what was written before stands.
#![tactic(auto)]

use band_index_tables::band_limits;
use mpvq_offsets::mpvq_offset;
use program_text::{Bits, line};
use sns_tables::spec_noise_shape_quant_tables as tables;
use std::io;
use std::io::{BufWriter, Write};

fn print_floats(out: &mut impl Write, row: &[f32]) -> io::Result<()> {
    line(out, row.iter().map(|x| Bits(*x)))
}

// The rows of a codebook, or of the rotation.
fn print_rows<const N: usize>(out: &mut impl Write, rows: &[[f32; N]]) -> io::Result<()> {
    for row in rows {
        print_floats(out, row)?;
    }
    Ok(())
}

fn print_gains(out: &mut impl Write) -> io::Result<()> {
    print_floats(out, &tables::sns_vq_reg_adj_gains())?;
    print_floats(out, &tables::sns_vq_reg_lf_adj_gains())?;
    print_floats(out, &tables::sns_vq_near_adj_gains())?;
    print_floats(out, &tables::sns_vq_far_adj_gains())
}

// The rows of pulse offsets.
fn print_offsets(out: &mut impl Write) -> io::Result<()> {
    for n in 0..16 {
        line(out, (0..11).map(|k| mpvq_offset(n, k)))?;
    }
    Ok(())
}

// The band limits of a frame length, a flag as in `band_limits`, a rate a line.
fn print_limits(out: &mut impl Write, ten_ms: bool) -> io::Result<()> {
    for rate in 0..5 {
        line(out, band_limits(rate, ten_ms).iter())?;
    }
    Ok(())
}

fn main(rt: HostRuntime) -> io::Result<()> {
    let mut out = BufWriter::new(rt.alloc(), io::writer(&rt))?;
    print_rows(&mut out, &tables::lfcb())?;
    print_rows(&mut out, &tables::hfcb())?;
    print_rows(&mut out, &tables::d())?;
    print_gains(&mut out)?;
    print_offsets(&mut out)?;
    print_limits(&mut out, true)?;
    print_limits(&mut out, false)?;
    out.flush()
}
