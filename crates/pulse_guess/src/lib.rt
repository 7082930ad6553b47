// A quick way to the best place: a guess by the quotients c·c / e, and a test that the guess strictly beats every other
// place. Then the scan takes it too; where the test fails, the caller scans. Every step goes over sixteen lanes.
#![tactic(auto)]

ghost use Rattle.std.specs.Prelude.{◌≡◌, cond, ◌<◌, leb};
ghost use Rattle.float_laws.specs.Literal.{nought};
ghost use Rattle.pulse_guess.specs.Lanes.{first_of, squared_lanes, energies_of, unbeaten_by, count_to};

use std::array;

// The value of a place up to last, and zero past it.
fn up_to_last(x: f32, n: usize, last: usize) -> f32
    ensures { result ≡ cond (leb n last) x nought }
{
    if n <= last { x } else { 0.0 }
}

// The absolute values of places 0 to last, and zeros past them.
pub fn first_places(abs_x: &[f32; 16], last: usize) -> [f32; 16]
    ensures { result ≡ first_of abs_x.now last }
{
    array::from_fn(|n| up_to_last(abs_x[n], n, last))
}

// c·c of each place.
pub fn squares(x: &[f32; 16], correlation: f32) -> [f32; 16]
    ensures { result ≡ squared_lanes x.now correlation }
{
    array::from_fn(|n| {
        let s = correlation + x[n];
        s * s
    })
}

// e of each place.
pub fn energies(y: &[u8; 16], energy: f32) -> [f32; 16]
    ensures { result ≡ energies_of y.now energy }
{
    array::from_fn(|n| (energy + 2.0 * f32::from(y[n])) + 1.0)
}

// The bits of a number that is not below zero order as the numbers do; any other has 0.
fn bits_of(x: f32) -> u32 {
    if 0.0 <= x { x.to_bits() } else { 0 }
}

// The high bits of the quotient, with the place in the low four: of equal quotients the earlier place has the larger.
fn key(c: f32, e: f32, n: usize) -> u32
    requires { n < 16 }
{
    (bits_of(c / e) / 16) * 16 + (15 - n as u32)
}

// A place that is likely to be the best. Nothing hangs on it.
pub fn guess(c: &[f32; 16], e: &[f32; 16]) -> usize
    ensures { result < 16 }
{
    let top = (0..16).fold(0, |top, n| key(c[n], e[n], n).max(top));
    (15 - top % 16) as usize
}

// How many places g does not strictly beat, itself among them. A loop: `filter` and `count` take over twice its
// instructions.
pub fn unbeaten(c: &[f32; 16], e: &[f32; 16], g: usize) -> u32
    requires { g < 16 }
    ensures { result ≡ count_to (unbeaten_by c.now e.now g) 16 }
{
    let (cg, eg) = (c[g], e[g]);
    let mut count = 0;
    for n in 0..16 {
        if !(c[n] * eg < cg * e[n]) {
            count += 1;
        }
    }
    count
}
