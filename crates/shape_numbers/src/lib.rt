// A shape's sixteen pulses as the numbers of its sets, and back: `enumerate` numbers them, `pulses` makes them again. Public
// for the crates above only; every result is pinned. A shape is its number, of which `PulsesAgain` and the other claims speak.
#![tactic(auto)]

ghost use Rattle.std.specs.Prelude.{◌≡◌, ◌<◌};
ghost use Rattle.shape_numbers.specs.Pulses.{pulses_at, Shaped};
ghost use Rattle.shape_numbers.specs.Numbers.{numbers_of};

use frame_fields::Numbers;
use numbering::{mpvq_deenum, mvpq_enum};
use shapes::PulseSet;

// The numbers of a shape's pulses: set A's, and set B's in shape 0 alone.
pub fn enumerate(shape: usize, y: [i32; 16]) -> Numbers
    requires { (shape < 4) × Shaped shape y }
    ensures { result ≡ numbers_of shape y }
{
    let set = PulseSet::new(shape);
    let places = set.dimension;
    let a = mvpq_enum(&y[0..places]);
    if shape == 0 {
        let b = mvpq_enum(&y[10..16]);
        return Numbers {
            sign_a: a.sign,
            sign_b: b.sign,
            index_a: a.index,
            index_b: b.index,
        };
    }
    Numbers {
        sign_a: a.sign,
        sign_b: 0,
        index_a: a.index,
        index_b: 0,
    }
}

// The pulses that have these numbers: set A's, set B's in shape 0 alone, and zeros elsewhere.
pub fn pulses(shape: usize, n: Numbers) -> [i32; 16]
    requires { shape < 4 }
    ensures { result ≡ pulses_at shape n }
{
    let mut y = [0i32; 16];
    let a = PulseSet::new(shape);
    let places = a.dimension;
    mpvq_deenum(places, a.pulses, n.sign_a, n.index_a, &mut y[0..places]);
    if shape == 0 {
        let b = PulseSet::set_b();
        mpvq_deenum(b.dimension, b.pulses, n.sign_b, n.index_b, &mut y[10..16]);
    }
    y
}
