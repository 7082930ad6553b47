// Stage 2 of the quantizer, `sns_quant_stage2`: from the residual to the shape, the gain, the numbers and the sixteen
// synthesised factors. Public for the crates above only; every result is pinned by a definition. A shape is its number, as
// in `candidates`.
#![tactic(auto)]

ghost use Rattle.std.specs.Prelude.{◌≡◌, [], ◌<◌, get_or};
ghost use Rattle.list_laws.specs.ListOf.{list_of};
ghost use Rattle.pulse_length.specs.Length.{Sixteen};
ghost use Rattle.candidates.specs.Candidate.{candidate_of};
ghost use Rattle.stage2.specs.Stage2.{sign_of, signed_row, pulses_for, signed_for, FourRows, selected_of, stage2_of};

use frame_fields::Numbers;
use pulse_length::Pulses;
use roots::Roots;
use std::array;

#[derive(Clone, Copy)]
pub struct SnsStage2Result {
    pub shape_j: usize,
    pub gind: usize,
    pub numbers: Numbers,
    pub index_joint_j: u32,
    pub scfq: [f32; 16],
}

// The sign of a place's pulses: 1 where the target is below zero.
fn sign_of(t: f32) -> u32
    ensures { result ≡ sign_of t }
{
    if t < 0.0 { 1 } else { 0 }
}

// The pulses of a shape, with signs.
fn signed_row(t2rot: &[f32; 16], y: &[u8; 16]) -> [i32; 16]
    ensures { result ≡ signed_row t2rot.now y.now }
{
    array::from_fn(|n| numbering::mind2vec_one(usize::from(y[n]), sign_of(t2rot[n])))
}

// The same of all four shapes. From here on every step reads these rows. Four calls, here and below: `from_fn` of rows copies
// them twice more, and `encode` would take a hundred instructions more.
fn add_signs(t2rot: &[f32; 16], y: &[[u8; 16]; 4]) -> [[i32; 16]; 4]
    requires { y.now ≡ list_of 4 (pulses_for t2rot.now) }
    ensures { result ≡ list_of 4 (signed_for t2rot.now) }
{
    [
        signed_row(t2rot, &y[0]),
        signed_row(t2rot, &y[1]),
        signed_row(t2rot, &y[2]),
        signed_row(t2rot, &y[3]),
    ]
}

// A shape's candidate.
fn candidate(roots: &Roots, y: &[i32; 16]) -> [f32; 16]
    requires { Sixteen y.now }
    ensures { result ≡ candidate_of y.now }
{
    candidates::normalize_candidate(roots, &Pulses { y: *y })
}

// The candidates of the four shapes.
fn normalize_candidates(roots: &Roots, v: &[[i32; 16]; 4]) -> [[f32; 16]; 4]
    requires { FourRows v.now }
    ensures { result ≡ list_of 4 (λ shape. candidate_of (get_or v.now shape [])) }
{
    [
        candidate(roots, &v[0]),
        candidate(roots, &v[1]),
        candidate(roots, &v[2]),
        candidate(roots, &v[3]),
    ]
}

// The shape and the gain that win, with the gain's value.
#[derive(Clone, Copy)]
pub struct Selected {
    pub shape_j: usize,
    pub gind: usize,
    pub g_gain_i_shape_j: f32,
}

// Shape and gain combination determination.
fn select(roots: &Roots, t2rot: &[f32; 16], v: &[[i32; 16]; 4]) -> Selected
    requires { v.now ≡ list_of 4 (signed_for t2rot.now) }
    ensures { result ≡ selected_of t2rot.now }
{
    let xq = normalize_candidates(roots, v);
    let gains = candidates::scanned_gains();
    let best = candidates::winner(t2rot, &xq, &gains);
    let c = candidates::choice_at(best);
    Selected {
        shape_j: c.shape,
        gind: c.gain,
        g_gain_i_shape_j: gains[best],
    }
}

pub fn sns_quant_stage2(r1: &[f32; 16], st1: &[f32; 16]) -> SnsStage2Result
    ensures { result ≡ stage2_of r1.now st1.now }
{
    let d = sns_tables::spec_noise_shape_quant_tables::d();

    // stage 2 target preparation
    let t2rot = stage2_target::rotate(&d, r1);
    let abs_x = stage2_target::absolutes(&t2rot);

    // steps 1 to 7: the pulses of the four shapes; step 8: their signs
    let y = shape_search::search_shapes(&abs_x);
    let v = add_signs(&t2rot, &y);

    // step 9: each shape's candidate; then the shape and the gain
    let roots = Roots::new();
    let s = select(&roots, &t2rot, &v);

    // enumeration of the selected pulse configuration
    let shape_j = s.shape_j;
    let numbers = shape_numbers::enumerate(shape_j, v[shape_j]);
    let index_joint_j = frame_fields::joint_index(shape_j, s.gind, numbers);

    // synthesis of the quantized scale factors, by the decoder's functions
    let sns_y_shape_j = Pulses { y: v[shape_j] };
    let g = synthesis::scale(&roots, s.g_gain_i_shape_j, &sns_y_shape_j);
    let scfq = synthesis::from_codes(st1, &sns_y_shape_j, g);
    SnsStage2Result {
        shape_j,
        gind: s.gind,
        numbers,
        index_joint_j,
        scfq,
    }
}
