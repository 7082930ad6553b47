// The shapes: each set of pulse vectors states its dimension, pulse count and size as constants of a type of its own, and
// the set of a shape how many gains the shape has; PulseSet's constructors, the scan and the joint index read them there.
// Public for the crates above only; every result is pinned.
// The types are no instances of a trait, since the clause of a constructor over it would ask each number a second time, as a
// ghost member.
#![tactic(auto)]

ghost use Rattle.std.specs.Prelude.{◌≡◌, ◌<◌};
ghost use Rattle.sns_tables.specs.Gains.{gains_of, gain_at};
ghost use Rattle.shapes.specs.Sets.{set_a, set_b, found_of};

use sns_tables::spec_noise_shape_quant_tables as tables;

// Shape 0, set A: ten pulses on places 0 to 9.
#[derive(Clone, Copy)]
pub struct RegularA {}

impl RegularA {
    pub const DIMENSION: usize = 10;

    pub const PULSES: usize = 10;

    pub const SIZE: u32 = 2390004;

    pub const GAINS: usize = 2;
}

// Shape 0, set B: one pulse on places 10 to 15.
#[derive(Clone, Copy)]
pub struct RegularB {}

impl RegularB {
    pub const DIMENSION: usize = 6;

    pub const PULSES: usize = 1;

    pub const SIZE: u32 = 6;
}

// Shape 1: ten pulses on places 0 to 9, and none on the others.
#[derive(Clone, Copy)]
pub struct RegularLf {}

impl RegularLf {
    pub const DIMENSION: usize = 10;

    pub const PULSES: usize = 10;

    pub const SIZE: u32 = 2390004;

    pub const GAINS: usize = 4;
}

// Shape 2: eight pulses on sixteen places.
#[derive(Clone, Copy)]
pub struct OutlierNear {}

impl OutlierNear {
    pub const DIMENSION: usize = 16;

    pub const PULSES: usize = 8;

    pub const SIZE: u32 = 15158272;

    pub const GAINS: usize = 4;
}

// Shape 3: six pulses on sixteen places.
#[derive(Clone, Copy)]
pub struct OutlierFar {}

impl OutlierFar {
    pub const DIMENSION: usize = 16;

    pub const PULSES: usize = 6;

    pub const SIZE: u32 = 774912;

    pub const GAINS: usize = 8;
}

// A set of pulse vectors: so many places, so many pulses, and so many vectors of either lead sign.
#[derive(Clone, Copy)]
pub struct PulseSet {
    pub dimension: usize,
    pub pulses: usize,
    pub size: u32,
}

impl PulseSet {
    // Set A of a shape: all of its pulses, but for the one of set B. The shape is a number, as the theorems and the C
    // interface have it.
    pub fn new(shape: usize) -> Self
        requires { shape < 4 }
        ensures { result ≡ set_a shape }
    {
        match shape {
            0 => PulseSet {
                dimension: RegularA::DIMENSION,
                pulses: RegularA::PULSES,
                size: RegularA::SIZE,
            },
            1 => PulseSet {
                dimension: RegularLf::DIMENSION,
                pulses: RegularLf::PULSES,
                size: RegularLf::SIZE,
            },
            2 => PulseSet {
                dimension: OutlierNear::DIMENSION,
                pulses: OutlierNear::PULSES,
                size: OutlierNear::SIZE,
            },
            _ => PulseSet {
                dimension: OutlierFar::DIMENSION,
                pulses: OutlierFar::PULSES,
                size: OutlierFar::SIZE,
            },
        }
    }

    // Set B, which shape 0 alone has.
    pub fn set_b() -> Self
        ensures { result ≡ set_b }
    {
        PulseSet {
            dimension: RegularB::DIMENSION,
            pulses: RegularB::PULSES,
            size: RegularB::SIZE,
        }
    }

    // The set of a dimension and a pulse count, where the pair is one of the four.
    pub fn find(dimension: usize, pulses: usize) -> Option<Self>
        ensures { result ≡ found_of dimension pulses }
    {
        match (dimension, pulses) {
            (RegularA::DIMENSION, RegularA::PULSES) => Some(PulseSet::new(0)),
            (RegularB::DIMENSION, RegularB::PULSES) => Some(PulseSet::set_b()),
            (OutlierNear::DIMENSION, OutlierNear::PULSES) => Some(PulseSet::new(2)),
            (OutlierFar::DIMENSION, OutlierFar::PULSES) => Some(PulseSet::new(3)),
            _ => None,
        }
    }
}

// How many gains a shape has; the shape is its number, as in `gains_of`.
pub fn gain_count(shape: u32) -> u32
    requires { shape < 4 }
    ensures { result ≡ gains_of shape }
{
    match shape {
        0 => RegularA::GAINS as u32,
        1 => RegularLf::GAINS as u32,
        2 => OutlierNear::GAINS as u32,
        _ => OutlierFar::GAINS as u32,
    }
}

// A shape's gain, by its number.
pub fn adj_gain(shape: usize, gain: usize) -> f32
    requires { (shape < 4) × (gain < gains_of shape) }
    ensures { result ≡ gain_at shape gain }
{
    match shape {
        0 => tables::sns_vq_reg_adj_gains()[gain],
        1 => tables::sns_vq_reg_lf_adj_gains()[gain],
        2 => tables::sns_vq_near_adj_gains()[gain],
        _ => tables::sns_vq_far_adj_gains()[gain],
    }
}
