// What stage 2 searches for: the residual, rotated by D, and its absolute values. Public for the crates above only;
// every result is pinned by a definition.
#![tactic(auto)]

ghost use Rattle.std.specs.Prelude.{◌≡◌};
ghost use Rattle.sns_tables.specs.Rotation.{d_rows};
ghost use Rattle.stage2_target.specs.Target.{target_of, absolutes_of};

use std::array;

// The target: `t2rot` in the Rust.
pub fn rotate(d: &[[f32; 16]; 16], residual: &[f32; 16]) -> [f32; 16]
    requires { d.now ≡ d_rows }
    ensures { result ≡ target_of residual.now }
{
    array::from_fn(|n| rotation::column_sum(d, residual, n))
}

// The absolute values: `abs_x` in the Rust.
pub fn absolutes(t: &[f32; 16]) -> [f32; 16]
    ensures { result ≡ absolutes_of t.now }
{
    array::from_fn(|n| t[n].abs())
}
