// One record of sixteen factors: quantized, and a line of text for it.
ghost use Rattle.std.specs.Prelude.{◌≡◌};
ghost use Rattle.std.specs.Iterator.{IsFinite};
ghost use Rattle.program_input.specs.Pattern.{record_of};
ghost use Rattle.program_records.specs.Record.{record_as};

use frame_fields::Fields;
use refusals::Refused;
use sns_encode::Encoded;
use std::fmt::Display;
use std::io;
use std::io::Write;

// A record's frame with its joint index, and the sixteen synthesised factors.
#[derive(Clone, Copy)]
pub struct Quantized {
    pub encoded: Encoded,
    pub factors: [f32; 16],
}

// Quantizes a record.
pub fn quantized_record(record: &[u8; 64]) -> Result<Quantized, Refused>
    ensures { result ≡ record_as (record_of «record».now) }
{
    let mut factors = [0.0f32; 16];
    let encoded = sns_encode::encode(&program_input::record(record), &mut factors)?;
    Ok(Quantized { encoded, factors })
}

// What `write_frame` and `write_frame_as` write, the factors as they are given.
fn write_line<D: Display + Drop, I: Iterator<Item = D> + Drop>(
    out: &mut impl Write,
    encoded: Encoded,
    factors: I,
) -> io::Result<()>
    requires can { I.can_next factors }
    requires ends { IsFinite (I.remaining factors) }
{
    let Encoded {
        fields,
        joint_index,
    } = encoded;
    let Fields {
        low_row,
        high_row,
        shape,
        gain,
        sign_a,
        sign_b,
        index_a,
        index_b,
    } = fields;
    write!(
        out,
        "{low_row} {high_row} {shape} {gain} {sign_a} {sign_b} {joint_index} {index_a} {index_b} |"
    )?;
    program_text::line(out, factors)
}

// Writes a frame's line: low row, high row, shape, gain, sign A, sign B, joint index, index A, index B, a bar, and the factors
// as `shown` has them. It fails only with the error of a write, or where what `shown` gives has none of its text.
pub fn write_frame<D: Display + Drop, F: Fn(f32) -> D>(
    out: &mut impl Write,
    quantized: &Quantized,
    shown: &F,
) -> io::Result<()>
    requires { F.IsAlwaysCallable shown.now }
{
    write_line(
        out,
        quantized.encoded,
        quantized.factors.iter().map(|x| shown(*x)),
    )
}

// As `write_frame`, each factor as a D, so that nothing is asked of the caller.
pub fn write_frame_as<D: Display + Drop + From<f32>>(
    out: &mut impl Write,
    quantized: &Quantized,
) -> io::Result<()> {
    write_line(
        out,
        quantized.encoded,
        quantized.factors.iter().map(|x| D::from(*x)),
    )
}
