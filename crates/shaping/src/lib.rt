// Shaping of a spectrum in place, band by band, and how many bands there are. Public for the crates above only: a caller
// shows the `requires`. Every line at return and every other result is pinned. A rate is its index and a frame length a
// flag, true for 10 ms, as `limits_of` has them and C hands them in.

#![tactic(auto)]

ghost use Rattle.std.specs.Prelude.{◌≡◌, map, ◌≤◌, ◌<◌, length};
ghost use Rattle.std.specs.Float.{binary32};
ghost use Rattle.std.specs.Float.Ieee.{mul};
ghost use Rattle.band_index_tables.specs.Bands.{bands_of, last_limit};
ghost use Rattle.shaping.specs.Shaping.{Shapeable, scaled_part, shaped_of};

use band_index_tables::band_limits;

// How many bands a rate and a frame length have.
pub fn bands_of(rate: u32, ten_ms: bool) -> u32
    ensures { result ≡ bands_of rate ten_ms }
{
    if rate == 0 && !ten_ms { 60 } else { 64 }
}

// Where their last band ends.
pub fn last_limit(rate: u32, ten_ms: bool) -> usize
    requires { rate < 5 }
    ensures { result ≡ last_limit rate ten_ms }
{
    let limits = band_limits(rate as usize, ten_ms);
    limits[bands_of(rate, ten_ms) as usize]
}

// Multiplies each line once by the gain.
fn scale(lines: &mut [f32], gain: f32)
    ensures { lines.new ≡ map (λ line. mul binary32 line gain) lines.old }
{
    for line in lines {
        *line *= gain;
    }
}

// Shapes the lines of one band, a part of the spectrum.
fn shape_band(lines: &mut [f32], first: usize, end: usize, gain: f32)
    requires { (first ≤ end) × (end ≤ length lines.old) }
    ensures { lines.new ≡ scaled_part first end gain lines.old }
{
    scale(&mut lines[first..end], gain);
}

// Shapes the lines of all bands of a rate and a frame length.
pub fn shape(rate: usize, ten_ms: bool, gains: &[f32], lines: &mut [f32])
    requires { Shapeable rate ten_ms gains.now lines.old }
    ensures { lines.new ≡ shaped_of rate ten_ms gains.now lines.old }
{
    let limits = band_limits(rate, ten_ms);
    for (b, gain) in gains.iter().enumerate() {
        shape_band(lines, limits[b], limits[b + 1], *gain);
    }
}
