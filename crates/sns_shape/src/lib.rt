// Shaping: each spectrum line times the linear gain of its band.

#![tactic(auto)]

ghost use Rattle.sns_shape.specs.Shape.{ShapeSays};

use refusals::{Element, Refusal, Refused, first_refused, refuse_if};

// Multiplies each line of band b once by gain b; the lines past the last band limit stay. Refused with 10 (the rate, 0 to
// 4), 11 (the band count), 9 (the gains' or the lines' length), 12 (a gain, then a line below the last limit, by place),
// asked in this order. The rate is its index, of which 10 speaks, and the frame length a flag, as C hands them in; the count
// stands beside the gains since 11 and 9 ask both.
#[tactic(auto, using(crate::proofs::ShapeAnswers::asked_count, refusals::proofs::Answers::appended), unfolding(refusals::specs::Answers::answer_of, crate::specs::Shape::shape_questions))]
pub fn shape(
    rate: u32,
    ten_ms: bool,
    band_count: u32,
    gains: &[f32],
    lines: &mut [f32],
) -> Result<(), Refused>
    ensures { ShapeSays rate ten_ms band_count gains.now lines.old result lines.new }
{
    refuse_if(4 < rate, Refusal::RateOrPair, 0)?;
    refuse_if(
        band_count != shaping::bands_of(rate, ten_ms),
        Refusal::BandCount,
        0,
    )?;
    refuse_if(gains.len() != band_count as usize, Refusal::Length, 0)?;
    let end = shaping::last_limit(rate, ten_ms);
    refuse_if(lines.len() < end, Refusal::Length, 0)?;
    first_refused(gains, Element::Value)?;
    first_refused(&lines[..end], Element::Value)?;
    shaping::shape(rate as usize, ten_ms, gains, lines);
    Ok(())
}
