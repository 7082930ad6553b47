// The decoder whole, the twin of `encoder`: the fields of a frame to their sixteen pulses, and to sixteen factors. Public
// for the crates above only: a caller shows the `requires`. Every result is pinned.
#![tactic(auto)]

ghost use Rattle.std.specs.Prelude.{◌≡◌, ◌<◌};
ghost use Rattle.frame_fields.specs.Accepted.{Accepted};
ghost use Rattle.decoder.specs.Decoded.{field_pulses, field_factors};

use frame_fields::{Fields, Numbers};
use roots::Roots;
use sns_tables::codebooks::Codebooks;

// The sixteen pulses.
pub fn pulses(f: Fields) -> [i32; 16]
    requires { f.shape < 4 }
    ensures { result ≡ field_pulses f }
{
    shape_numbers::pulses(f.shape as usize, Numbers::from(f))
}

// The sixteen factors.
pub fn factors(f: Fields) -> [f32; 16]
    requires { Accepted f }
    ensures { result ≡ field_factors f }
{
    let y = pulses(f);
    let codebooks = Codebooks::new();
    let roots = Roots::new();
    synthesis::factors(
        &codebooks,
        &roots,
        f.low_row as usize,
        f.high_row as usize,
        f.shape as usize,
        f.gain as usize,
        &y,
    )
}
