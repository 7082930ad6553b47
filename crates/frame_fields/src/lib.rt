// What a quantized frame holds, which both ends speak of: its fields, the numbers among them, and the joint index. When
// fields are accepted is in specs/Accepted. Public for the crates above only; the result is pinned.
#![tactic(auto)]

ghost use Rattle.std.specs.Prelude.{◌≡◌, ◌<◌};
ghost use Rattle.frame_fields.specs.Accepted.{Indexed, numbers_in};
ghost use Rattle.frame_fields.specs.Joint.{joint_index};

use shapes::{OutlierNear, RegularA, RegularLf};

// A quantized frame: both codebook rows, shape, gain, and the lead signs and indices of sets A and B. A shape and a sign are
// numbers here, as everywhere: the theorems and the C interface speak of them, and a field can hold any u32.
#[derive(Clone, Copy)]
pub struct Fields {
    pub low_row: u32,
    pub high_row: u32,
    pub shape: u32,
    pub gain: u32,
    pub sign_a: u32,
    pub sign_b: u32,
    pub index_a: u32,
    pub index_b: u32,
}

// What the pulses of a shape are numbered with: the lead signs and the indices of sets A and B, `ls_inda`, `ls_indb`,
// `idxa` and `idxb` in the Rust.
#[derive(Clone, Copy)]
pub struct Numbers {
    pub sign_a: u32,
    pub sign_b: u32,
    pub index_a: u32,
    pub index_b: u32,
}

impl From<Fields> for Numbers {
    ghost from_gives = { λ f n. n ≡ numbers_in f };

    // The numbers among the fields.
    fn from(f: Fields) -> Self {
        Numbers {
            sign_a: f.sign_a,
            sign_b: f.sign_b,
            index_a: f.index_a,
            index_b: f.index_b,
        }
    }
}

// The joint index of a shape, a gain and the numbers.
pub fn joint_index(shape: usize, gain: usize, n: Numbers) -> u32
    requires { (shape < 4) × Indexed shape n }
    ensures { result ≡ joint_index shape gain n }
{
    let lsb_gain = (gain % 2) as u32;
    match shape {
        0 => (2 * n.index_b + n.sign_b + 2) * RegularA::SIZE + n.index_a,
        1 => lsb_gain * RegularLf::SIZE + n.index_a,
        2 => n.index_a,
        _ => OutlierNear::SIZE + lsb_gain + 2 * n.index_a,
    }
}
