// The pulses of the four shapes, without signs: steps 1 to 7 of the Rust's `sns_quant_stage2`. Public for the crates
// above only; every result is pinned by a definition.
#![tactic(auto)]

ghost use Rattle.std.specs.Prelude.{◌≡◌, ◌*◌, ◌<◌};
ghost use Rattle.list_laws.specs.ListOf.{list_of};
ghost use Rattle.projection.specs.Projection.{Absolutes};
ghost use Rattle.shape_search.specs.Shape.{low_of, dropped_to, largest_to, shape_pulses};

use pulse_search::SearchRecord;

// The pair without the places from 10 on.
fn without_high(abs_x: &[f32; 16], y: &[u8; 16], r: SearchRecord) -> SearchRecord
    ensures { result ≡ dropped_to abs_x.now y.now r 6 }
{
    let mut p = r;
    for n in 10..16 {
        p = projection::with_terms(|sum, term| sum - term, p, y[n], abs_x[n]);
    }
    p
}

// Places 0 to 9, and no pulses on the others. Stored over zeros: of a row that `from_fn` makes, the later steps are slower.
fn low_places(y: &[u8; 16]) -> [u8; 16]
    ensures { result ≡ low_of y.now }
{
    let mut low = [0u8; 16];
    for n in 0..10 {
        low[n] = y[n];
    }
    low
}

// The first strictly largest of places 10 to 15; where all are zero it is place 10.
fn largest_high(abs_x: &[f32; 16]) -> usize
    ensures { result ≡ largest_to abs_x.now 5 }
{
    let mut n_best = 10usize;
    for n in 11..16 {
        if abs_x[n_best] < abs_x[n] {
            n_best = n;
        }
    }
    n_best
}

// The pulses of shapes 0 to 3.
pub fn search_shapes(abs_x: &[f32; 16]) -> [[u8; 16]; 4]
    requires { Absolutes abs_x.now }
    ensures { result ≡ list_of 4 (shape_pulses abs_x.now) }
{
    // step 1, shape 3: project to or below six pulses
    let s = projection::project(abs_x);
    // step 2, shape 3: add unit pulses up to 6 over 16 places
    let mut y3 = s.y;
    let r = pulse_search::add_unit_pulse(abs_x, 15, s.k, 6, &mut y3, s.pair);
    // step 3, shape 2: add unit pulses up to 8 over 16 places
    let mut y2 = y3;
    let r = pulse_search::add_unit_pulse(abs_x, 15, 6, 8, &mut y2, r);
    // steps 4 and 5, shape 1: keep places 0 to 9, and take the others out of the pair
    let mut y1 = low_places(&y2);
    let r = without_high(abs_x, &y2, r);
    // step 6, shape 1: add unit pulses up to 10 over places 0 to 9
    let k = pulse_search::total(&y1, 10);
    pulse_search::add_unit_pulse(abs_x, 9, k, 10, &mut y1, r);
    // step 7, shape 0: one pulse more on places 10 to 15
    let mut y0 = y1;
    let n_best = largest_high(abs_x);
    y0[n_best] = 1;
    [y0, y1, y2, y3]
}
