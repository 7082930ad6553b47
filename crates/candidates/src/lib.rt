// The candidates of the shapes, their distortion under each gain, and the first least of all: step 9 of the Rust's
// `sns_quant_stage2` and its choice of shape and gain. Public for the crates above only; every result is pinned by a
// definition.
#![tactic(auto)]

ghost use Rattle.std.specs.Prelude.{◌≡◌, ◌<◌};
ghost use Rattle.list_laws.specs.ListOf.{list_of};
ghost use Rattle.candidates.specs.Candidate.{candidate_of, distortion_of};
ghost use Rattle.candidates.specs.Scan.{choices, choice_at, gain_of, distortion_at, winner_of};

use pulse_length::Pulses;
use roots::Roots;
use shapes::{OutlierFar, OutlierNear, RegularA, RegularLf};
use std::array;

// How many choices are scanned: every gain of each shape.
pub const CHOICES: usize = RegularA::GAINS
    + RegularLf::GAINS
    + OutlierNear::GAINS
    + OutlierFar::GAINS;

// A shape and the number of one of its gains. A shape is its number, 0 to 3: the theorems (`AllTried`, `NoneBelow`) and
// the C interface speak of it, and the rows of the four shapes are indexed by it.
#[derive(Clone, Copy)]
pub struct Choice {
    pub shape: usize,
    pub gain: usize,
}

// A shape's pulses, with signs, divided by their length.
pub fn normalize_candidate(roots: &Roots, y: &Pulses) -> [f32; 16]
    ensures { result ≡ candidate_of y.now.y }
{
    let length = y.length(roots);
    let x = y.floats();
    array::from_fn(|n| x[n] / length)
}

// The k-th choice: shapes upward, and of each its gains upward.
pub fn choice_at(k: usize) -> Choice
    requires { k < choices }
    ensures { result ≡ choice_at k }
{
    if k < RegularA::GAINS {
        return Choice { shape: 0, gain: k };
    }
    let k = k - RegularA::GAINS;
    if k < RegularLf::GAINS {
        return Choice { shape: 1, gain: k };
    }
    let k = k - RegularLf::GAINS;
    if k < OutlierNear::GAINS {
        return Choice { shape: 2, gain: k };
    }
    let k = k - OutlierNear::GAINS;
    Choice { shape: 3, gain: k }
}

// The gain of each choice, beside `choice_at`: the scan reads one by one what is looked up here once.
pub fn scanned_gains() -> [f32; CHOICES]
    ensures { result ≡ list_of choices gain_of }
{
    array::from_fn(|k| {
        let c = choice_at(k);
        shapes::adj_gain(c.shape, c.gain)
    })
}

// The distortion of a shape's candidate under a gain.
fn distortion(t: &[f32; 16], xq: &[f32; 16], gain: f32) -> f32
    ensures { result ≡ distortion_of t.now xq.now gain }
{
    let mut d_mse = 0.0f32;
    for (x, q) in t.iter().zip(xq) {
        let diff = *x - gain * *q;
        d_mse += diff * diff;
    }
    d_mse
}

// The distortion of each choice.
fn distortions(t: &[f32; 16], xq: &[[f32; 16]; 4], gains: &[f32; CHOICES]) -> [f32; CHOICES]
    requires { gains.now ≡ list_of choices gain_of }
    ensures { result ≡ list_of choices (distortion_at t.now xq.now) }
{
    array::from_fn(|k| {
        let c = choice_at(k);
        distortion(t, &xq[c.shape], gains[k])
    })
}

// The choice that wins: the first strictly smallest.
pub fn winner(t: &[f32; 16], xq: &[[f32; 16]; 4], gains: &[f32; CHOICES]) -> usize
    requires { gains.now ≡ list_of choices gain_of }
    ensures { result ≡ winner_of t.now xq.now }
{
    first_least::first_least(&distortions(t, xq, gains))
}
