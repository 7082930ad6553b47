// Decoding: the sixteen factors of a frame's fields, and its sixteen pulses alone. Both calls stand written out: one over a
// closure asks for clauses on the closure and on the memory of sixteen elements, and is no plainer.

#![tactic(auto)]

ghost use Rattle.std.specs.Prelude.{◌≡◌};
ghost use Rattle.sns_decode.specs.Decode.{decode_answer, DecodeSays, PulsesSays};

use field_refusal::field_refusal;
use frame_fields::Fields;
use refusals::{Refusal, Refused, refuse_if};

// The first refusal: 9 (the length of what is filled, `len`), 1 (a row), 2 (the shape), 3 (the gain), 4 (a lead sign in use),
// 5 (an index in use), asked in this order.
#[tactic(auto, unfolding(refusals::specs::Answers::answer_of, crate::specs::Decode::decode_questions))]
fn refusal(fields: Fields, len: usize) -> Result<(), Refused>
    ensures { result ≡ decode_answer fields len }
{
    refuse_if(len != 16, Refusal::Length, 0)?;
    field_refusal(fields)
}

// Fills `factors`, sixteen of them, from the fields.
pub fn decode(fields: Fields, factors: &mut [f32]) -> Result<(), Refused>
    ensures { DecodeSays fields factors.old result factors.new }
{
    refusal(fields, factors.len())?;
    factors.copy_from_slice(&decoder::factors(fields));
    Ok(())
}

// Fills `pulses`, sixteen of them, from the fields: what the factors are synthesised from.
pub fn decode_pulses(fields: Fields, pulses: &mut [i32]) -> Result<(), Refused>
    ensures { PulsesSays fields pulses.old result pulses.new }
{
    refusal(fields, pulses.len())?;
    pulses.copy_from_slice(&decoder::pulses(fields));
    Ok(())
}
