// Stage 1 alone, for another program to call: the comparison with the Rust and the timing of this step use it. No part
// of the product.
#![tactic(auto)]

ghost use Rattle.std.specs.Prelude.{◌≡◌, ◌+◌, ◌*◌};
ghost use Rattle.stage1.specs.Stage1.{low_row, high_row, codes, residual};

// Both rows in one number: the low row, and the high row 8 bits up.
#[unsafe(no_mangle)]
pub extern "C" fn bench_stage1(scf: &[f32; 16], st1: &mut [f32; 16], r1: &mut [f32; 16]) -> u32
    ensures value { result ≡ low_row scf.now + high_row scf.now * 256 }
    ensures st1_after { st1.new ≡ codes scf.now }
    ensures r1_after { r1.new ≡ residual scf.now }
{
    let s = stage1::sns_quant_stage1(scf, st1, r1);
    (s.ind_lf as u32) + (s.ind_hf as u32) * 256
}
