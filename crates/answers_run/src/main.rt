// As `quantize`, with each factor by its bits, so that the expected output holds it to the Rust's answers bit for bit.
// It ends with an error where a read or a write fails or there is no memory for a buffer; what was written before stands.
#![tactic(auto)]

use program_text::Bits;
use std::io;

fn main(rt: HostRuntime) -> io::Result<()> {
    program_records::run::run_as::<Bits>(&rt)
}
