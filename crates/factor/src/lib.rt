// The check of one factor. Public for the crates above only; every result is pinned.

#![tactic(auto)]

ghost use Rattle.std.specs.Prelude.{◌≡◌, T};
ghost use Rattle.float_laws.specs.Kind.{finite};
ghost use Rattle.factor.specs.Check.{factor_limit, checked_of};

// The answer for one factor: the factor itself, the offending value, or nothing. No Result, since document 01 names these
// three cases and what each carries.
#[derive(Clone, Copy)]
pub enum Checked {
    Within(f32),
    TooFar(f32),
    NotFinite,
}

// The limit of a factor, on both sides. Interpolation has one of its own, as large: one may move without the other.
pub fn factor_limit() -> f32
    ensures { result ≡ factor_limit }
{
    64.0
}

// Checks a factor against a finite limit. An infinity is beyond every limit, so a factor that is taken is asked three
// questions and not five.
pub fn check_against(x: f32, limit: f32) -> Checked
    requires { T (finite limit) }
    ensures { result ≡ checked_of limit x }
{
    if x > limit || x < -limit {
        return if x.is_finite() {
            Checked::TooFar(x)
        } else {
            Checked::NotFinite
        };
    }
    if x.is_nan() {
        Checked::NotFinite
    } else {
        Checked::Within(x)
    }
}

// Checks one factor.
pub fn check_factor(x: f32) -> Checked
    ensures { result ≡ checked_of factor_limit x }
{
    check_against(x, factor_limit())
}
