// The numbering of pulse vectors: `mvpq_enum` packs a vector into an index and a lead sign, `mpvq_deenum` unpacks them.
// Public for the crates above only: a caller shows the `requires`, which the refusals of the public calls give. Every result
// is pinned by specs/Numbering.antt.
#![tactic(auto)]

ghost use Rattle.std.specs.Prelude.{◌≡◌, ◌++◌, ◌<◌, ◌≤◌, ◌+◌, ◌-◌, ◌*◌, pos, nat_abs, length, take, set, replicate};
ghost use Rattle.numbering.specs.Numbering.{pulses_of, lead_sign, sign_before, pushed, index_of, signed, next_sign, next_index, vector_at};

use mpvq_offsets::mpvq_offset;

// An index with its lead sign: the number 0 or 1, as document 01 has it, since `2 * index + sign` and `ind % 2` work on it.
#[derive(Clone, Copy, PartialEq, Eq, Debug)]
pub struct Numbered {
    pub index: u32,
    pub sign: u32,
}

// The size of a signed number, right at the least i32 too.
fn magnitude(x: i32) -> usize
    ensures size { result ≡ nat_abs x }
    ensures small { result ≤ 2147483648 }
{
    x.unsigned_abs() as usize
}

// The pulses of a vector. Sixteen sizes of an i32 fit a usize, so no sum overflows.
pub fn pulses(v: &[i32]) -> usize
    requires { length v.now ≤ 16 }
    ensures { result ≡ pulses_of v.now }
{
    v.iter().map(|x| magnitude(*x)).sum()
}

// A place before a vector that is numbered already: where it has pulses, the sign so far goes into the index.
fn enc_push_sign(val: i32, sign: u32, index: u32) -> Numbered
    requires { 2 * index + sign < 4294967296 }
    ensures { (result.index ≡ pushed val index sign) × (result.sign ≡ sign_before val sign) }
{
    if val == 0 {
        return Numbered { index, sign };
    }
    Numbered {
        index: 2 * index + sign,
        sign: u32::from(val < 0),
    }
}

// Packs a vector of at most sixteen places and ten pulses: its index and its lead sign, from its last place down.
pub fn mvpq_enum(v: &[i32]) -> Numbered
    requires { (length v.now ≤ 16) × (pulses_of v.now ≤ 10) }
    ensures { (result.index ≡ index_of v.now) × (result.sign ≡ lead_sign v.now) }
{
    let mut index = 0;
    let mut next_sign = 0;
    let mut k_val_acc = 0;
    for (n, val) in v.iter().rev().copied().enumerate() {
        let pushed = enc_push_sign(val, next_sign, index);
        index = pushed.index + mpvq_offset(n, k_val_acc);
        next_sign = pushed.sign;
        k_val_acc += magnitude(val);
    }
    Numbered {
        index,
        sign: next_sign,
    }
}

// k pulses with a sign: a byte's worth at the most.
#[tactic(auto, using(crate::proofs::Signed::plus_is, crate::proofs::Signed::minus_is))]
pub fn mind2vec_one(k: usize, sign: u32) -> i32
    requires { k < 256 }
    ensures { result ≡ signed sign k }
{
    let x = k as i32;
    if sign == 0 { x } else { -x }
}

// The sign and the index that go on after a place with delta pulses: the sign is the lowest bit of what is left of the
// index, where there are pulses (the Rust's `get_lead_sign`), and stays where there are none.
fn setval_update_sign(delta: usize, sign: u32, ind: u32) -> Numbered
    ensures { (result.index ≡ next_index delta ind) × (result.sign ≡ next_sign delta sign ind) }
{
    if delta == 0 {
        return Numbered { index: ind, sign };
    }
    Numbered {
        index: ind / 2,
        sign: ind % 2,
    }
}

// All pulses that are left stand at one place, ind places on: zeros, and k pulses with their sign there, or nowhere if that
// is past the end. The zeros are no `fill`, which takes more instructions, and the pulses are not stored by `get_mut`: after
// it a proof knows no element of a slice.
fn at_one_place(rest: &mut [i32], k: usize, sign: u32, ind: u32)
    requires { k < 11 }
    ensures { rest.new ≡ set (replicate (length rest.old) (pos 0)) ind (signed sign k) }
{
    for val in rest.iter_mut() {
        *val = 0;
    }
    let place = ind as usize;
    if place < rest.len() {
        rest[place] = mind2vec_one(k, sign);
    }
}

// Unpacks, with the Rust's parameters: fills out, of dim places, with the vector of so many pulses at a lead sign and an
// index. Once fewer than two pulses are left, or the index is zero, they stand at one place, and no offset is looked at.
pub fn mpvq_deenum(dim: usize, pulses: usize, sign: u32, index: u32, out: &mut [i32])
    requires { (dim ≤ 16) × (pulses < 11) × (length out.old ≡ dim) }
    ensures { out.new ≡ vector_at dim pulses sign index }
{
    let mut k_max_local = pulses;
    let mut leading_sign = sign;
    let mut ind = index;
    for pos in 0..dim {
        if k_max_local < 2 || ind == 0 {
            at_one_place(&mut out[pos..], k_max_local, leading_sign, ind);
            return;
        }
        let n = dim - 1 - pos;
        let left = columns::column(n, k_max_local, ind);
        let k_delta = k_max_local - left.pulses;
        out[pos] = mind2vec_one(k_delta, leading_sign);
        let next = setval_update_sign(k_delta, leading_sign, left.rest);
        leading_sign = next.sign;
        ind = next.index;
        k_max_local = left.pulses;
    }
}
