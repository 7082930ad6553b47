// Encoding: sixteen factors into a frame's fields and sixteen synthesised factors.
#![tactic(auto)]

ghost use Rattle.std.specs.Prelude.{◌≡◌, ◌<◌};
ghost use Rattle.sns_encode.specs.Encode.{encoded_of, EncodeSays};

use encoder::Quantized;
use frame_fields::Fields;
use refusals::{Element, Refusal, Refused, refuse_if};

// What the encoder answers: the fields and their joint index.
#[derive(Clone, Copy)]
pub struct Encoded {
    pub fields: Fields,
    pub joint_index: u32,
}

impl Encoded {
    // The answer of a quantized frame. No `From`, since it asks that the rows, the shape and the gain fit an u32.
    fn new(q: Quantized) -> Encoded
        requires { (q.stage1.ind_lf < 32) × (q.stage1.ind_hf < 32) × (q.stage2.shape_j < 4) × (q.stage2.gind < 8) }
        ensures { result ≡ encoded_of q }
    {
        let rows = q.stage1;
        let rest = q.stage2;
        let numbers = rest.numbers;
        Encoded {
            fields: Fields {
                low_row: rows.ind_lf as u32,
                high_row: rows.ind_hf as u32,
                shape: rest.shape_j as u32,
                gain: rest.gind as u32,
                sign_a: numbers.sign_a,
                sign_b: numbers.sign_b,
                index_a: numbers.index_a,
                index_b: numbers.index_b,
            },
            joint_index: rest.index_joint_j,
        }
    }
}

// Quantizes sixteen factors, and fills `out` with the sixteen synthesised ones. Refused with 9 (the factors' or the
// buffer's length), 7 and 8 (a factor, by place), asked in this order.
#[tactic(auto, using(factor::proofs::Laws::limit_finite_lem), unfolding(refusals::specs::Answers::answer_of, crate::specs::Encode::encode_questions))]
pub fn encode(factors: &[f32], out: &mut [f32]) -> Result<Encoded, Refused>
    ensures { EncodeSays factors.now out.old result out.new }
{
    let factors = <&[f32; 16]>::try_from(factors).map_err(|_| Refusal::Length)?;
    refuse_if(out.len() != 16, Refusal::Length, 0)?;
    refusals::first_refused(factors, Element::Factor(factor::factor_limit()))?;
    let q = encoder::run_quant(factors);
    out.copy_from_slice(&q.stage2.scfq);
    Ok(Encoded::new(q))
}
