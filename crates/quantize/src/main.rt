// Quantizes a recording: records of sixteen little-endian f32 from standard input until it ends, a line each on standard
// output: low row, high row, shape, gain, sign A, sign B, joint index, index A, index B, a bar and the sixteen synthesised
// factors; or `refused N at P`; or `cut` for a last record that is not whole. The last line counts them.
// It ends with an error where a read or a write fails or there is no memory for a buffer; what was written before stands.
#![tactic(auto)]

use program_text::Decimal;
use std::io;

fn main(rt: HostRuntime) -> io::Result<()> {
    program_records::run::run_as::<Decimal>(&rt)
}
