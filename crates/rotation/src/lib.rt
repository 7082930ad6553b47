// A column sum: what turns sixteen numbers by D, in stage 2's target and in synthesis. Public for the crates above only;
// its result is pinned by a definition.
#![tactic(auto)]

ghost use Rattle.std.specs.Prelude.{◌≡◌, ◌<◌};
ghost use Rattle.rotation.specs.Column.{column_at};

// The sum over the rows of d, from 0.0, of x times column n. Inlined in both callers: there the sums of all columns are made
// side by side.
#[inline(always)]
pub fn column_sum(d: &[[f32; 16]; 16], x: &[f32; 16], n: usize) -> f32
    requires { n < 16 }
    ensures { result ≡ column_at d.now x.now n }
{
    x.iter()
        .zip(d)
        .fold(0.0, |sum, (value, row)| sum + value * row[n])
}
