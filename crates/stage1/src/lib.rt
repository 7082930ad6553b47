// Stage 1 of the quantizer: the nearest row of each codebook, its codes and the residual. Public for the crates above
// only; every result is pinned by a definition. The codebooks are lent by place, so that the loop over the rows reads
// the 32 codes of one place side by side; each row's own sum keeps its order.
#![tactic(auto)]

ghost use Rattle.std.specs.Prelude.{◌≡◌, ◌<◌, ◌≤◌, get_or};
ghost use Rattle.std.specs.Float.{nan, binary32};
ghost use Rattle.std.specs.Float.Ieee.{sub};
ghost use Rattle.list_laws.specs.ListOf.{list_of};
ghost use Rattle.sns_tables.specs.Codes.{code_of};
ghost use Rattle.sns_tables.specs.ByPlace.{turned_at};
ghost use Rattle.stage1.specs.Stage1.{distance, half, rows_of, codes, residual};

use first_least::first_least;
use sns_tables::by_place::ByPlace;
use std::array;

// The rows of the low and the high codebook.
#[derive(Clone, Copy)]
pub struct SnsStage1Result {
    pub ind_lf: usize,
    pub ind_hf: usize,
}

// The mean squared error distortion of one row, from the eight factors at `from`: all sixteen and a place, as `half` of the
// definition has it.
fn dmse(scf: &[f32; 16], from: usize, cb: &[[f32; 32]; 8], row: usize) -> f32
    requires { (from ≤ 8) × (row < 32) }
    ensures { result ≡ distance (half scf.now from) (turned_at cb.now row) }
{
    scf[from..from + 8]
        .iter()
        .zip(cb)
        .fold(0.0, |dmse, (factor, codes)| {
            let e = factor - codes[row];
            dmse + e * e
        })
}

// The same of all 32 rows.
fn dmse_rows(scf: &[f32; 16], from: usize, cb: &[[f32; 32]; 8]) -> [f32; 32]
    requires { from ≤ 8 }
    ensures { result ≡ list_of 32 (λ row. distance (half scf.now from) (turned_at cb.now row)) }
{
    array::from_fn(|row| dmse(scf, from, cb, row))
}

// The code at one of the sixteen places. The two rows are indices, each below 32, and carry no fact besides.
fn code(codebooks: &ByPlace, lf: usize, hf: usize, n: usize) -> f32
    requires { (lf < 32) × (hf < 32) × (n < 16) }
    ensures { result ≡ code_of lf hf n }
{
    if n < 8 {
        codebooks.low[n][lf]
    } else {
        codebooks.high[n - 8][hf]
    }
}

// The first stage vector. Synthesis has codes of its own, over the tables by rows: another layout.
fn first_stage_vector(codebooks: &ByPlace, lf: usize, hf: usize) -> [f32; 16]
    requires { (lf < 32) × (hf < 32) }
    ensures { result ≡ list_of 16 (code_of lf hf) }
{
    array::from_fn(|n| code(codebooks, lf, hf, n))
}

// Factor minus code.
fn less(scf: &[f32; 16], st1: &[f32; 16]) -> [f32; 16]
    ensures { result ≡ list_of 16 (λ n. sub binary32 (get_or scf.now n nan) (get_or st1.now n nan)) }
{
    array::from_fn(|n| scf[n] - st1[n])
}

// The rows nearest to the sixteen factors. st1 takes their codes and r1 the residual.
pub fn sns_quant_stage1(scf: &[f32; 16], st1: &mut [f32; 16], r1: &mut [f32; 16]) -> SnsStage1Result
    ensures value { result ≡ rows_of scf.now }
    ensures st1_after { st1.new ≡ codes scf.now }
    ensures r1_after { r1.new ≡ residual scf.now }
{
    let codebooks = ByPlace::new();

    // iterate through low and high frequency codebooks
    let dmse_lf = dmse_rows(scf, 0, &codebooks.low);
    let dmse_hf = dmse_rows(scf, 8, &codebooks.high);

    // the index of the smallest value
    let ind_lf = first_least(&dmse_lf);
    let ind_hf = first_least(&dmse_hf);

    *st1 = first_stage_vector(&codebooks, ind_lf, ind_hf);
    *r1 = less(scf, st1);
    SnsStage1Result { ind_lf, ind_hf }
}
