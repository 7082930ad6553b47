// Shape 3's start: step 1 of the Rust's `sns_quant_stage2`. Public for the crates above only; every result is pinned by a
// definition.
#![tactic(auto)]

ghost use Rattle.std.specs.Prelude.{◌≡◌, ◌||◌, ◌*◌, ◌<◌, T, cond, get_or, Float};
ghost use Rattle.std.specs.Float.{nan};
ghost use Rattle.std.specs.Float.Ieee.{lt};
ghost use Rattle.float_laws.specs.Absolute.{abs_of};
ghost use Rattle.float_laws.specs.Floor.{floor_of};
ghost use Rattle.float_laws.specs.Running.{sum_to};
ghost use Rattle.float_laws.specs.Literal.{seven};
ghost use Rattle.projection.specs.Projection.{projection_factor, projected_of, with_terms, joined_to, some_not_finite, some_seven, is_dropped, whole, nothing, projection, begun_of, Absolutes, AllBelowSeven};

use pulse_search::SearchRecord;
use std::array;

// The sum of the absolute values, from 0.0.
fn sum(abs_x: &[f32; 16]) -> f32
    ensures { result ≡ sum_to (λ n. get_or abs_x.now n nan) 16 }
{
    let mut s = 0.0f32;
    for x in abs_x {
        s += *x;
    }
    s
}

// Rounded down, by comparisons: std's `truncating_f32_to_u64` would ask for two bounds of p, and a byte would still have to be
// made of its number.
fn floor(p: f32) -> u8
    requires { (abs_of p ≡ p) × T (lt p seven) }
    ensures { result ≡ floor_of p }
{
    if p < 1.0 {
        return 0;
    }
    if p < 2.0 {
        return 1;
    }
    if p < 3.0 {
        return 2;
    }
    if p < 4.0 {
        return 3;
    }
    if p < 5.0 {
        return 4;
    }
    if p < 6.0 {
        return 5;
    }
    6
}

// The products of the absolute values with the factor that projects them.
#[derive(Clone, Copy)]
struct Products<'a> {
    abs_x: &'a [f32; 16],
    factor: f32,
    ghost absolute: { Absolutes abs_x.now },
    ghost projects: { factor ≡ projection_factor abs_x.now },
}

impl Products<'_> {
    // A product that isn't finite or is 7 or more: one that is not below 7.0, as no product is below zero. Every place is
    // tested, so that the test is one over all lanes; `any` would end at the first.
    fn some_too_large(&self) -> bool
        ensures { result ≡ some_not_finite self.now.abs_x.now || some_seven self.now.abs_x.now }
    {
        let mut found = false;
        for x in self.abs_x {
            if !(*x * self.factor < 7.0) {
                found = true;
            }
        }
        found
    }

    // Each product rounded down.
    fn projected(&self) -> [u8; 16]
        requires { AllBelowSeven self.now.abs_x.now }
        ensures { result ≡ projected_of self.now.abs_x.now }
    {
        array::from_fn(|n| floor(self.abs_x[n] * self.factor))
    }
}

// A place's two terms, put to a pair by an operation where its pulses are not zero.
pub fn with_terms<F: Fn(f32, f32) -> f32>(
    op: F,
    r: SearchRecord,
    pulses: u8,
    x: f32,
) -> SearchRecord
    requires { F.IsAlwaysCallable op }
    ensures { (g : Float → Float → Float) → ((a b c : Float) → F.post op a b c → c ≡ g a b) → result ≡ with_terms g r pulses x }
{
    if pulses == 0 {
        return r;
    }
    let m = f32::from(pulses);
    SearchRecord {
        correlation: op(r.correlation, m * x),
        energy: op(r.energy, m * m),
    }
}

// The correlation and the energy of the projected pulses.
fn pair_of(abs_x: &[f32; 16], y: &[u8; 16]) -> SearchRecord
    ensures { result ≡ joined_to abs_x.now y.now 16 }
{
    let mut r = SearchRecord {
        correlation: 0.0,
        energy: 0.0,
    };
    for (x, pulses) in abs_x.iter().zip(y) {
        r = with_terms(|sum, term| sum + term, r, *pulses, *x);
    }
    r
}

// Pulses, how many there are, and their pair.
#[derive(Clone, Copy)]
pub struct Start {
    pub y: [u8; 16],
    pub k: usize,
    pub pair: SearchRecord,
}

// A dropped projection: no pulses, correlation and energy 0.
fn nothing() -> Start
    ensures { result ≡ begun_of nothing }
{
    Start {
        y: [0u8; 16],
        k: 0,
        pair: SearchRecord {
            correlation: 0.0,
            energy: 0.0,
        },
    }
}

// The projected pulses, where they are not dropped.
fn projected_pulses(abs_x: &[f32; 16]) -> Option<Start>
    requires { Absolutes abs_x.now }
    ensures { result ≡ cond (is_dropped abs_x.now) None (Some (begun_of (whole abs_x.now))) }
{
    let factor = 5.0 / sum(abs_x);
    let products = Products { abs_x, factor };
    if products.some_too_large() {
        return None;
    }
    let y = products.projected();
    let k = pulse_search::total(&y, 16);
    if 6 < k {
        return None;
    }
    let pair = pair_of(abs_x, &y);
    Some(Start { y, k, pair })
}

// The projection, or nothing where it is dropped. It is lent an array and no struct that says `Absolutes`, since the search
// takes the same array.
pub fn project(abs_x: &[f32; 16]) -> Start
    requires { Absolutes abs_x.now }
    ensures { result ≡ begun_of (projection abs_x.now) }
{
    projected_pulses(abs_x).unwrap_or(nothing())
}
