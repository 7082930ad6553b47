// Sixteen pulses of a shape, as floats, and their length, which both ends divide by. Public for the crates above only: a
// caller lends the roots, and `Pulses` carries what the pulses of a shape are like. Every result is pinned.
#![tactic(auto)]

ghost use Rattle.std.specs.Prelude.{◌≡◌, ◌≤◌, ◌*◌, nat_abs};
ghost use Rattle.std.specs.Float.{binary32};
ghost use Rattle.std.specs.Float.Ieee.{of_int};
ghost use Rattle.pulse_length.specs.Length.{Sixteen, squared_length, length_of, floats_of};

use roots::Roots;
use std::array;

// A pulse squared.
fn square(y: i32) -> u32
    requires { nat_abs y ≤ 10 }
    ensures { result ≡ nat_abs y * nat_abs y }
{
    (y * y) as u32
}

// A pulse as a float.
fn pulse(y: i32) -> f32
    requires { nat_abs y ≤ 10 }
    ensures { result ≡ of_int binary32 y }
{
    y as f32
}

// Sixteen pulses of a shape.
#[derive(Clone, Copy)]
pub struct Pulses {
    pub y: [i32; 16],
    ghost sixteen: { Sixteen y },
}

impl Pulses {
    // The squared length.
    fn squared_length(&self) -> u32
        ensures { result ≡ squared_length self.now.y }
    {
        let mut sum = 0;
        for y in &self.y {
            sum += square(*y);
        }
        sum
    }

    // The length.
    pub fn length(&self, roots: &Roots) -> f32
        ensures { result ≡ length_of self.now.y }
    {
        roots.root(self.squared_length() as usize)
    }

    // The pulses as floats.
    pub fn floats(&self) -> [f32; 16]
        ensures { result ≡ floats_of self.now.y }
    {
        array::from_fn(|k| pulse(self.y[k]))
    }
}
