// Packing: the index and the lead sign of a pulse vector.
ghost use Rattle.std.specs.Prelude.{◌≡◌};
ghost use Rattle.sns_number.specs.Pack.{pack_answer};

use numbering::{Numbered, mvpq_enum};
use refusals::{Refusal, Refused, refuse_if};
use shapes::PulseSet;

// Numbers a vector of `dimension` places and `pulses` pulses. Refused with 10 (the pair), 9 (the vector's length), 6 (its
// pulses don't add up), asked in this order.
#[tactic(auto, using(crate::proofs::Pairs::found_set, crate::proofs::Pairs::found_nothing), unfolding(refusals::specs::Answers::answer_of, crate::specs::Pack::pack_questions))]
pub fn pack(dimension: u32, pulses: u32, vector: &[i32]) -> Result<Numbered, Refused>
    ensures { result ≡ pack_answer dimension pulses vector.now }
{
    let set = PulseSet::find(dimension as usize, pulses as usize).ok_or(Refusal::RateOrPair)?;
    refuse_if(vector.len() != set.dimension, Refusal::Length, 0)?;
    refuse_if(numbering::pulses(vector) != set.pulses, Refusal::Pulses, 0)?;
    Ok(mvpq_enum(vector))
}
