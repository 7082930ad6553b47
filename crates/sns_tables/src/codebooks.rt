// The two codebooks by rows, the low factors' and the high factors', as one: they are lent on together.
// Those by place are another struct: another layout, of which other facts hold.
ghost use Rattle.std.specs.Prelude.{◌≡◌};
ghost use Rattle.sns_tables.specs.Codebooks.{lfcb_rows, hfcb_rows};

use crate::spec_noise_shape_quant_tables as tables;

#[derive(Drop)]
pub struct Codebooks {
    pub low: [[f32; 8]; 32],
    pub high: [[f32; 8]; 32],
    ghost low_is: { low ≡ lfcb_rows },
    ghost high_is: { high ≡ hfcb_rows },
}

impl Codebooks {
    // Asked for once, and lent on.
    pub fn new() -> Self
        ensures { (result.low ≡ lfcb_rows) × (result.high ≡ hfcb_rows) }
    {
        Codebooks {
            low: tables::lfcb(),
            high: tables::hfcb(),
        }
    }
}
