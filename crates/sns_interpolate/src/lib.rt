// Interpolation: sixteen factors into bands.

#![tactic(auto)]

ghost use Rattle.sns_interpolate.specs.Interpolate.{InterpolateSays};

use refusals::{Element, Refusal, Refused, refuse_if};

// Fills `bands`, `band_count` of them, 60 or 64, from sixteen factors. Refused with 11 (the band count), 9 (the factors'
// or the bands' length), 7 and 8 (a factor, by place), asked in this order. The count stands beside the buffer since 11 and 9
// ask both.
#[tactic(auto, using(crate::proofs::InterpolateAnswers::limit_finite), unfolding(refusals::specs::Answers::answer_of, crate::specs::Interpolate::interpolate_questions))]
pub fn interpolate(factors: &[f32], band_count: u32, bands: &mut [f32]) -> Result<(), Refused>
    ensures { InterpolateSays factors.now band_count bands.old result bands.new }
{
    refuse_if(!interpolation::count_ok(band_count), Refusal::BandCount, 0)?;
    let factors = <&[f32; 16]>::try_from(factors).map_err(|_| Refusal::Length)?;
    refuse_if(bands.len() != band_count as usize, Refusal::Length, 0)?;
    refusals::first_refused(factors, Element::Factor(interpolation::band_limit()))?;
    interpolation::interpolate(factors, bands);
    Ok(())
}
