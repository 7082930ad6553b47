// The decoder's fields, and when they are refused.

#![tactic(auto)]

ghost use Rattle.std.specs.Prelude.{◌≡◌, ◌&&◌, leb};
ghost use Rattle.refusals.specs.Answers.{answer_of};
ghost use Rattle.frame_fields.specs.Accepted.{uses_b};
ghost use Rattle.field_refusal.specs.Fields.{field_questions};

use frame_fields::Fields;
use refusals::{Refusal, Refused, refuse_if};
use shapes::{PulseSet, RegularB};

// Set B is in use, and the value is at or above the end. The shape is a number that may be any u32: refusal 2 is about it.
fn over_in_b(shape: u32, value: u32, end: u32) -> bool
    ensures { result ≡ (uses_b shape && leb end value) }
{
    shape == 0 && end <= value
}

// The first refusal of the fields: 1, 2, 3, 4, 5, asked in this order.
#[tactic(auto, using(shapes::proofs::Sizes::size_regular_b), unfolding(refusals::specs::Answers::answer_of, crate::specs::Fields::field_questions))]
pub fn field_refusal(f: Fields) -> Result<(), Refused>
    ensures { result ≡ answer_of (field_questions f) }
{
    refuse_if(31 < f.low_row, Refusal::Row, 0)?;
    refuse_if(31 < f.high_row, Refusal::Row, 1)?;
    refuse_if(3 < f.shape, Refusal::Shape, 0)?;
    refuse_if(shapes::gain_count(f.shape) <= f.gain, Refusal::Gain, 0)?;
    refuse_if(2 <= f.sign_a, Refusal::LeadSign, 0)?;
    refuse_if(over_in_b(f.shape, f.sign_b, 2), Refusal::LeadSign, 1)?;
    let set = PulseSet::new(f.shape as usize);
    refuse_if(set.size <= f.index_a, Refusal::Index, 0)?;
    refuse_if(
        over_in_b(f.shape, f.index_b, RegularB::SIZE),
        Refusal::Index,
        1,
    )
}
