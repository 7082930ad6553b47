// Synthesis, by the same functions at both ends: sixteen factors of sixteen codes, a shape's pulses and a gain; and the
// decoder's, whose codes are those of two codebook rows. Public for the crates above only: a caller lends the codebooks and
// the roots, and shows the `requires`. Every result is pinned. A shape is its number, of which `Synthesisable` speaks.
#![tactic(auto)]

ghost use Rattle.std.specs.Prelude.{◌≡◌, ◌<◌};
ghost use Rattle.list_laws.specs.ListOf.{list_of};
ghost use Rattle.sns_tables.specs.Codes.{codes_of};
ghost use Rattle.synthesis.specs.Synthesis.{Synthesisable, scale_of, factor_of, factors_of};

use pulse_length::Pulses;
use roots::Roots;
use sns_tables::codebooks::Codebooks;
use std::array;

// A gain divided by the pulses' length.
pub fn scale(roots: &Roots, gain: f32, y: &Pulses) -> f32
    ensures { result ≡ scale_of gain y.now.y }
{
    gain / y.length(roots)
}

// The codes of a low row and a high row. Stage 1 has its own, over the tables by place: another layout, and no type or
// constant that a parameter could be.
fn codes(codebooks: &Codebooks, low: usize, high: usize) -> [f32; 16]
    requires { (low < 32) × (high < 32) }
    ensures { result ≡ codes_of low high }
{
    array::from_fn(|n| if n < 8 {
        codebooks.low[low][n]
    } else {
        codebooks.high[high][n - 8]
    })
}

// The sixteen factors of sixteen codes, sixteen pulses and their scale: what both ends synthesise by. D is not lent:
// here its entries become constants, and no call stores it. It comes by columns, so that sixteen sums are made side by
// side.
pub fn from_codes(code: &[f32; 16], y: &Pulses, scale: f32) -> [f32; 16]
    ensures { result ≡ list_of 16 (factor_of code.now y.now.y scale) }
{
    let d = sns_tables::by_columns::d_by_columns();
    let x = y.floats();
    array::from_fn(|n| code[n] + scale * rotation::column_sum(&d, &x, n))
}

// The sixteen factors of two codebook rows, a shape's pulses and one of its gains.
pub fn factors(
    codebooks: &Codebooks,
    roots: &Roots,
    low: usize,
    high: usize,
    shape: usize,
    gain: usize,
    y: &[i32; 16],
) -> [f32; 16]
    requires { Synthesisable low high shape gain y.now }
    ensures { result ≡ factors_of low high shape gain y.now }
{
    let code = codes(codebooks, low, high);
    let y = Pulses { y: *y };
    let g = scale(roots, shapes::adj_gain(shape, gain), &y);
    from_codes(&code, &y, g)
}
