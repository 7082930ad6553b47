// Unpacking: the pulse vector at an index and a lead sign.
ghost use Rattle.sns_number.specs.Unpack.{UnpackSays};

use numbering::mpvq_deenum;
use refusals::{Refusal, Refused, refuse_if};
use shapes::PulseSet;

// Fills `vector` with the vector of `dimension` places and `pulses` pulses that has this lead sign, 0 or 1, and this
// index. The sign is a number that may be any u32, as 4 is about it. Refused with 10 (the pair), 9 (the vector's length), 4 (the
// sign), 5 (the index), asked in this order.
#[tactic(auto, using(crate::proofs::Pairs::found_set, crate::proofs::Pairs::found_nothing), unfolding(refusals::specs::Answers::answer_of, crate::specs::Unpack::unpack_questions))]
pub fn unpack(
    dimension: u32,
    pulses: u32,
    sign: u32,
    index: u32,
    vector: &mut [i32],
) -> Result<(), Refused>
    ensures { UnpackSays dimension pulses sign index vector.old result vector.new }
{
    let set = PulseSet::find(dimension as usize, pulses as usize).ok_or(Refusal::RateOrPair)?;
    refuse_if(vector.len() != set.dimension, Refusal::Length, 0)?;
    refuse_if(2 <= sign, Refusal::LeadSign, 0)?;
    refuse_if(set.size <= index, Refusal::Index, 0)?;
    mpvq_deenum(set.dimension, set.pulses, sign, index, vector);
    Ok(())
}
