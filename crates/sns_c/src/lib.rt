// The public calls for C and Rust, as include/lc3_sns.h has them: thin, no rule of their own. An answer that is an enum goes
// out as a struct of numbers, and each call is pinned by the definitions of that call's own crate.

#![tactic(auto)]

ghost use Rattle.std.specs.Prelude.{◌≤◌, length};
ghost use Rattle.factor.specs.Check.{factor_limit, checked_of};
ghost use Rattle.numbering.specs.Numbering.{vector_at};
ghost use Rattle.interpolation.specs.Bands.{interpolated};
ghost use Rattle.shaping.specs.Shaping.{shaped_of};
ghost use Rattle.refusals.specs.Answers.{place_in};
ghost use Rattle.sns_decode.specs.Decode.{decode_answer};
ghost use Rattle.decoder.specs.Decoded.{field_factors};
ghost use Rattle.encoder.specs.Quantized.{quantized_of};
ghost use Rattle.sns_encode.specs.Encode.{encode_answer};
ghost use Rattle.sns_interpolate.specs.Interpolate.{interpolate_answer};
ghost use Rattle.sns_shape.specs.Shape.{shape_answer};
ghost use Rattle.sns_number.specs.Pack.{pack_answer};
ghost use Rattle.sns_number.specs.Unpack.{unpack_answer};
ghost use Rattle.sns_c.specs.Answers.{IsCode, CodeSays, EncodedSays, IsPacked, IsChecked, fields_from};

use factor::Checked;
use frame_fields::Fields;
use sns::encode::Encoded;
use sns::pack::Numbered;
use sns::{Refusal, Refused};

// What a call that fills a buffer answers; 0 and 0 where it is done.
#[repr(C)]
#[derive(Clone, Copy)]
pub struct Code {
    pub number: u32,
    pub place: u32,
}

// What packing answers.
#[repr(C)]
#[derive(Clone, Copy)]
pub struct PackedCode {
    pub number: u32,
    pub place: u32,
    pub sign: u32,
    pub index: u32,
}

// What the check of one factor answers.
#[repr(C)]
#[derive(Clone, Copy)]
pub struct CheckedCode {
    pub number: u32,
    pub value: f32,
}

// What the encoder answers.
#[repr(C)]
#[derive(Clone, Copy)]
pub struct EncodedCode {
    pub number: u32,
    pub place: u32,
    pub low_row: u32,
    pub high_row: u32,
    pub shape: u32,
    pub gain: u32,
    pub sign_a: u32,
    pub sign_b: u32,
    pub joint_index: u32,
    pub index_a: u32,
    pub index_b: u32,
}

// What stands in the encoder's struct where the call is refused. `Fields` has no `Default`: all zeros are a frame that is
// taken.
const NOTHING_ENCODED: Encoded = Encoded {
    fields: Fields {
        low_row: 0,
        high_row: 0,
        shape: 0,
        gain: 0,
        sign_a: 0,
        sign_b: 0,
        index_a: 0,
        index_b: 0,
    },
    joint_index: 0,
};

// What stands in packing's struct where the call is refused.
const NOTHING_PACKED: Numbered = Numbered { index: 0, sign: 0 };

// The number and the place of an answer. No `From`, since it asks that the place fit an u32: no call's is over 400.
fn coded<T: Copy>(answer: Result<T, Refused>) -> Code
    requires { place_in answer ≤ 400 }
    ensures { IsCode answer result }
{
    match answer {
        Ok(_) => Code {
            number: 0,
            place: 0,
        },
        Err(refused) => Code {
            number: refused.refusal.number(),
            place: refused.place as u32,
        },
    }
}

// The check's number, and its value or 0.0.
impl From<Checked> for CheckedCode {
    ghost from_gives = { λ checked code. IsChecked checked code };

    fn from(checked: Checked) -> CheckedCode {
        match checked {
            Checked::Within(value) => CheckedCode { number: 0, value },
            Checked::TooFar(value) => CheckedCode {
                number: Refusal::TooFar.number(),
                value,
            },
            Checked::NotFinite => CheckedCode {
                number: Refusal::NotFinite.number(),
                value: 0.0,
            },
        }
    }
}

// Checks one factor.
#[unsafe(no_mangle)]
pub extern "C" fn lc3_sns_check_factor(x: f32) -> CheckedCode
    ensures { IsChecked (checked_of factor_limit x) result }
{
    sns::check_factor::check_factor(x).into()
}

// Sixteen factors from the decoder's fields.
#[unsafe(no_mangle)]
pub extern "C" fn lc3_sns_decode(
    low_row: u32,
    high_row: u32,
    shape: u32,
    gain: u32,
    sign_a: u32,
    sign_b: u32,
    index_a: u32,
    index_b: u32,
    factors: &mut [f32],
) -> Code
    ensures { CodeSays (decode_answer (fields_from low_row high_row shape gain sign_a sign_b index_a index_b) (length factors.old)) (field_factors (fields_from low_row high_row shape gain sign_a sign_b index_a index_b)) factors.old result factors.new }
{
    let fields = Fields {
        low_row,
        high_row,
        shape,
        gain,
        sign_a,
        sign_b,
        index_a,
        index_b,
    };
    coded(sns::decode::decode(fields, factors))
}

// Sixteen factors into the fields and sixteen synthesised factors.
#[unsafe(no_mangle)]
pub extern "C" fn lc3_sns_encode(factors: &[f32], out: &mut [f32]) -> EncodedCode
    ensures { EncodedSays (encode_answer factors.now (length out.old)) (quantized_of factors.now) out.old result out.new }
{
    let answer = sns::encode::encode(factors, out);
    let code = coded(answer);
    let encoded = answer.unwrap_or(NOTHING_ENCODED);
    let fields = encoded.fields;
    EncodedCode {
        number: code.number,
        place: code.place,
        low_row: fields.low_row,
        high_row: fields.high_row,
        shape: fields.shape,
        gain: fields.gain,
        sign_a: fields.sign_a,
        sign_b: fields.sign_b,
        joint_index: encoded.joint_index,
        index_a: fields.index_a,
        index_b: fields.index_b,
    }
}

// Sixteen factors into bands.
#[unsafe(no_mangle)]
pub extern "C" fn lc3_sns_interpolate(factors: &[f32], band_count: u32, bands: &mut [f32]) -> Code
    ensures { CodeSays (interpolate_answer factors.now band_count (length bands.old)) (interpolated factors.now band_count) bands.old result bands.new }
{
    coded(sns::interpolate::interpolate(factors, band_count, bands))
}

// Spectrum lines by linear gains.
#[unsafe(no_mangle)]
pub extern "C" fn lc3_sns_shape(
    rate: u32,
    ten_ms: bool,
    band_count: u32,
    gains: &[f32],
    lines: &mut [f32],
) -> Code
    ensures { CodeSays (shape_answer rate ten_ms band_count gains.now lines.old) (shaped_of rate ten_ms gains.now lines.old) lines.old result lines.new }
{
    coded(sns::shape::shape(rate, ten_ms, band_count, gains, lines))
}

// The lead sign and the index of a pulse vector.
#[unsafe(no_mangle)]
pub extern "C" fn lc3_sns_pack(dimension: u32, pulses: u32, vector: &[i32]) -> PackedCode
    ensures { IsPacked (pack_answer dimension pulses vector.now) result }
{
    let answer = sns::pack::pack(dimension, pulses, vector);
    let code = coded(answer);
    let packed = answer.unwrap_or(NOTHING_PACKED);
    PackedCode {
        number: code.number,
        place: code.place,
        sign: packed.sign,
        index: packed.index,
    }
}

// The pulse vector of a lead sign and an index.
#[unsafe(no_mangle)]
pub extern "C" fn lc3_sns_unpack(
    dimension: u32,
    pulses: u32,
    sign: u32,
    index: u32,
    vector: &mut [i32],
) -> Code
    ensures { CodeSays (unpack_answer dimension pulses sign index (length vector.old)) (vector_at dimension pulses sign index) vector.old result vector.new }
{
    coded(sns::unpack::unpack(dimension, pulses, sign, index, vector))
}
