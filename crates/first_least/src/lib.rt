// The index of the first strictly smallest of N values, as stage 1 and the choice of shape and gain ask for it. Public
// for the crates above only; its result is pinned by a definition.
#![tactic(auto)]

ghost use Rattle.std.specs.Prelude.{◌≡◌, ◌-◌, ◌<◌, get_or};
ghost use Rattle.std.specs.Float.{nan};
ghost use Rattle.float_laws.specs.Scan.{least_to};

// The index of the smallest value; of equal ones the first. Inlined, so that each length has its own code without a loop.
#[inline(always)]
pub fn first_least<const N: usize>(values: &[f32; N]) -> usize
    requires { 0 < N }
    ensures { result ≡ least_to (λ i. get_or values.now i nan) (N - 1) }
{
    let mut least = 0;
    let mut smallest = values[0];
    for i in 1..N {
        if values[i] < smallest {
            least = i;
            smallest = values[i];
        }
    }
    least
}
