// The column of the offset table that an index falls into: the pulses left after a place. Public for the crates above only;
// the result is pinned.
#![tactic(auto)]

ghost use Rattle.std.specs.Prelude.{◌≡◌, ◌<◌, ◌≤◌, ◌+◌, ◌-◌, ◌*◌};
ghost use Rattle.mpvq_offsets.specs.Offsets.{offset_of};
ghost use Rattle.columns.specs.Column.{column_of};

use mpvq_offsets::{mpvq_offset, offset_at};

// What a place leaves: the pulses after it, and what is left of the index.
#[derive(Clone, Copy)]
pub struct Left {
    pub pulses: usize,
    pub rest: u32,
}

// The greatest of columns 0 to 7 whose offset is at most the index, and the rest of the index, by halving: it is one of
// `width` columns, from `low` on, and a look at the middle leaves one half of them. `offset` is that of `low`: column 0,
// where it starts, has offset 0. Eight columns take three looks, whatever the index, and none needs a branch.
// A `while`, since it halves a width and counts nothing.
fn column_halved(n: usize, ind: u32) -> Left
    requires { n < 16 }
    ensures { (result.pulses ≡ column_of n 7 ind) × (result.rest ≡ ind - offset_of n (column_of n 7 ind)) }
{
    let mut low = 0;
    let mut offset = 0;
    let mut width = 8;
    while 1 < width {
        let half = width / 2;
        width -= half;
        let met = mpvq_offset(n, low + half);
        if met <= ind {
            low += half;
            offset = met;
        }
    }
    Left {
        pulses: low,
        rest: ind - offset,
    }
}

// The greatest column, from k down, whose offset is at most the index: the pulses left after a place; and the rest of the
// index. Columns k, k - 1 and k - 2, which stand side by side in the table, are looked at before any other, since most
// places take few pulses. The offsets of a row never fall from column to column: one question sends the search to the at
// most eight columns below, and the other two, which only set two numbers, need no branch.
pub fn column(n: usize, k: usize, ind: u32) -> Left
    requires { (n < 16) × (k < 11) × (2 ≤ k) }
    ensures { (result.pulses ≡ column_of n k ind) × (result.rest ≡ ind - offset_of n (column_of n k ind)) }
{
    let at = 11 * n + k;
    let first = offset_at(at);
    let second = offset_at(at - 1);
    let third = offset_at(at - 2);
    if ind < third {
        return column_halved(n, ind);
    }
    let mut pulses = k;
    let mut offset = first;
    if ind < first {
        pulses -= 1;
        offset = second;
    }
    if ind < second {
        pulses -= 1;
        offset = third;
    }
    Left {
        pulses,
        rest: ind - offset,
    }
}
