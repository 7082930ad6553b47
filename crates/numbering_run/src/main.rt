// Runs the numbering through the public calls: every index of (6,1), both ends and a spread of the other three pairs,
// there and back with both signs, and the corners that are refused. It writes what it found.
// It ends with an error where a write fails or there is no memory for the buffer; what was written before stands.
#![tactic(auto)]

use numbering::Numbered;
use refusals::Refused;
use sns_number::pack::pack;
use sns_number::unpack::unpack;
use std::fmt::Display;
use std::io::{BufWriter, Write};
use std::{fmt, io};

// The numbering of a dimension and a pulse count.
#[derive(Clone, Copy)]
struct Pair {
    dimension: u32,
    pulses: u32,
}

impl Display for Pair {
    fn fmt<W: fmt::Write>(&self, f: &mut fmt::Formatter<W>) -> fmt::Result {
        write!(f, "({},{})", self.dimension, self.pulses)
    }
}

impl Pair {
    fn new(dimension: u32, pulses: u32) -> Pair {
        Pair { dimension, pulses }
    }

    // A sign and an index, unpacked and packed again.
    fn there_and_back(self, sign: u32, index: u32, v: &mut [i32]) -> Result<Numbered, Refused> {
        unpack(self.dimension, self.pulses, sign, index, v)?;
        pack(self.dimension, self.pulses, v)
    }

    fn comes_back(self, sign: u32, index: u32, v: &mut [i32]) -> bool {
        self.there_and_back(sign, index, v) == Ok(Numbered { index, sign })
    }

    // How many indices of a range, with both signs, came back: `count` of them from `first` on, `step` apart.
    fn came_back(self, first: u32, step: u32, count: u32, v: &mut [i32]) -> u32 {
        let mut found: u32 = 0;
        for n in 0..count {
            let index = first.wrapping_add(step.wrapping_mul(n));
            found = found.wrapping_add(u32::from(self.comes_back(0, index, v)));
            found = found.wrapping_add(u32::from(self.comes_back(1, index, v)));
        }
        found
    }

    // Tries a range of indices with both signs, and says how many came back.
    fn tried(
        self,
        out: &mut impl Write,
        first: u32,
        step: u32,
        count: u32,
        v: &mut [i32],
    ) -> io::Result<()> {
        let found = self.came_back(first, step, count, v);
        let all = count.wrapping_add(count);
        writeln!(
            out,
            "{self} from {first} by {step}: {found} of {all} there and back"
        )
    }

    // What unpack answers, and how many elements of a vector that held only 7 still do.
    fn unpacked(
        self,
        out: &mut impl Write,
        sign: u32,
        index: u32,
        v: &mut [i32],
    ) -> io::Result<()> {
        write!(out, "unpack {self} sign {sign} index {index}")?;
        if let Err(refused) = unpack(self.dimension, self.pulses, sign, index, v) {
            write!(out, ": no {refused}")?;
        }
        writeln!(out, ", kept {}", v.iter().filter(|x| **x == 7).count())
    }

    // The first index and sign that are refused, then a spread from index 0 on, and the last six indices.
    fn both_ends(
        self,
        out: &mut impl Write,
        size: u32,
        step: u32,
        count: u32,
        v: &mut [i32],
    ) -> io::Result<()> {
        self.unpacked(out, 1, size, v)?;
        self.unpacked(out, 2, 0, v)?;
        self.tried(out, 0, step, count, v)?;
        self.tried(out, size.wrapping_sub(6), 1, 6, v)
    }

    // What pack answers.
    fn packed(self, out: &mut impl Write, words: &str, v: &[i32]) -> io::Result<()> {
        write!(out, "pack {self} {words}: ")?;
        match pack(self.dimension, self.pulses, v) {
            Ok(Numbered { index, sign }) => writeln!(out, "index {index} sign {sign}"),
            Err(refused) => writeln!(out, "no {refused}"),
        }
    }
}

fn packs(out: &mut impl Write) -> io::Result<()> {
    Pair::new(10, 10).packed(out, "zeros", &[0; 10])?;
    Pair::new(6, 1).packed(out, "least i32", &[i32::MIN, 0, 0, 0, 0, 0])?;
    Pair::new(16, 8).packed(out, "least i32 everywhere", &[i32::MIN; 16])?;
    Pair::new(6, 1).packed(out, "ten places", &[0; 10])?;
    Pair::new(10, 6).packed(out, "ten places", &[0; 10])?;
    Pair::new(6, 1).packed(out, "-1 at place 5", &[0, 0, 0, 0, 0, -1])
}

fn main(rt: HostRuntime) -> io::Result<()> {
    let mut out = BufWriter::new(rt.alloc(), io::writer(&rt))?;
    Pair::new(6, 1).both_ends(&mut out, 6, 1, 6, &mut [7; 6])?;
    Pair::new(10, 10).both_ends(&mut out, 2390004, 601, 3977, &mut [7; 10])?;
    Pair::new(16, 8).both_ends(&mut out, 15158272, 3793, 3997, &mut [7; 16])?;
    Pair::new(16, 6).both_ends(&mut out, 774912, 193, 4016, &mut [7; 16])?;
    Pair::new(6, 1).unpacked(&mut out, 2, 6, &mut [7; 10])?;
    Pair::new(16, 10).unpacked(&mut out, 2, 6, &mut [7; 10])?;
    packs(&mut out)?;
    out.flush()
}
