// The quantizer whole, `run_quant`: sixteen factors to both rows, shape, gain, numbers, joint index and sixteen synthesised
// factors. Public for the crates above only; the result is pinned by a definition of the sixteen factors alone.
#![tactic(auto)]

ghost use Rattle.std.specs.Prelude.{◌≡◌};
ghost use Rattle.encoder.specs.Quantized.{quantized_of};

use stage1::{SnsStage1Result, sns_quant_stage1};
use stage2::{SnsStage2Result, sns_quant_stage2};

#[derive(Clone, Copy)]
pub struct Quantized {
    pub stage1: SnsStage1Result,
    pub stage2: SnsStage2Result,
}

pub fn run_quant(scf: &[f32; 16]) -> Quantized
    ensures { result ≡ quantized_of scf.now }
{
    let mut st1 = [0.0f32; 16];
    let mut r1 = [0.0f32; 16];
    let stage1 = sns_quant_stage1(scf, &mut st1, &mut r1);
    let stage2 = sns_quant_stage2(&r1, &st1);
    Quantized { stage1, stage2 }
}
