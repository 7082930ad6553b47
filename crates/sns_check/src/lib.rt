// Checking one factor.

#![tactic(auto)]

ghost use Rattle.sns_check.specs.CheckFactor.{CheckSays};

use factor::Checked;

// The factor itself, or NotFinite (no. 7), or TooFar with the offending value (no. 8).
pub fn check_factor(x: f32) -> Checked
    ensures { CheckSays x result }
{
    factor::check_factor(x)
}
