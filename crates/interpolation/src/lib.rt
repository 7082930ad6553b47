// Sixteen factors into 64 bands, or into 60 for 8 kHz and 7.5 ms. Public for the crates above only; every result is
// pinned.

#![tactic(auto)]

ghost use Rattle.std.specs.Prelude.{◌≡◌, T, length, get_or};
ghost use Rattle.std.specs.Float.{nan};
ghost use Rattle.list_laws.specs.ListOf.{list_of};
ghost use Rattle.interpolation.specs.Bands.{band_limit, count_ok, band_of, narrow_of, interpolated};

// The limit of a factor that is interpolated, on both sides. Encoding has one of its own, as large: one may move without the
// other.
pub fn band_limit() -> f32
    ensures { result ≡ band_limit }
{
    64.0
}

// There are 60 bands or 64.
pub fn count_ok(band_count: u32) -> bool
    ensures { result ≡ count_ok band_count }
{
    matches!(band_count, 60 | 64)
}

// All 64 bands, by document 01's rule for each n.
fn spread(factors: &[f32; 16]) -> [f32; 64]
    requires { length factors.now ≡ 16 }
    ensures { result ≡ list_of 64 (band_of factors.now) }
{
    let mut bands = [0.0f32; 64];
    bands[0] = factors[0];
    bands[1] = factors[0];
    for n in 0..15 {
        let factor = factors[n];
        let diff_next = factors[n + 1] - factor;
        bands[4 * n + 2] = factor + 0.125 * diff_next;
        bands[4 * n + 3] = factor + 0.375 * diff_next;
        bands[4 * n + 4] = factor + 0.625 * diff_next;
        bands[4 * n + 5] = factor + 0.875 * diff_next;
    }
    let factor = factors[15];
    let diff_last = factor - factors[14];
    bands[62] = factor + 0.125 * diff_last;
    bands[63] = factor + 0.375 * diff_last;
    bands
}

// The 60 bands. Every one is made of the old 64, so the order of the stores does not matter.
fn reduce(old: &[f32; 64]) -> [f32; 60]
    requires { length old.now ≡ 64 }
    ensures { result ≡ list_of 60 (narrow_of (λ i. get_or old.now i nan)) }
{
    let mut bands = [0.0f32; 60];
    bands[4..].copy_from_slice(&old[8..]);
    bands[0] = (old[0] + old[1]) / 2.0;
    bands[1] = (old[2] + old[3]) / 2.0;
    bands[2] = (old[4] + old[5]) / 2.0;
    bands[3] = (old[6] + old[7]) / 2.0;
    bands
}

// Fills the lent bands, 60 or 64 of them.
pub fn interpolate(factors: &[f32; 16], bands: &mut [f32])
    requires factors_len { length factors.now ≡ 16 }
    requires count { T (count_ok (length bands.old)) }
    ensures { bands.new ≡ interpolated factors.now (length bands.old) }
{
    let old = spread(factors);
    if bands.len() == 60 {
        bands.copy_from_slice(&reduce(&old));
    } else {
        bands.copy_from_slice(&old);
    }
}
