// When a call says no: the refusals, a refusal with its place, and the scan of a lent row that the calls share. When a call
// is refused is written in specs/, as its questions in their order; the calls themselves stand in a crate each.

#![tactic(auto)]

ghost use Rattle.std.specs.Prelude.{◌≡◌, [], ◌∷◌, ◌++◌, T, Some, codes};
ghost use Rattle.std.specs.Fmt.{decimal};
ghost use Rattle.refusals.specs.Answers.{number_of, words_of, ask, answer_of};
ghost use Rattle.refusals.specs.Elements.{limit_finite, element_asked, element_questions};

use factor::Checked;
use std::error::Error;
use std::fmt;

// The refusals, in the order of their numbers, 1 to 12.
#[derive(Clone, Copy, PartialEq, Eq, Debug)]
pub enum Refusal {
    Row,
    Shape,
    Gain,
    LeadSign,
    Index,
    Pulses,
    NotFinite,
    TooFar,
    Length,
    RateOrPair,
    BandCount,
    Value,
}

impl Refusal {
    // Its number.
    pub fn number(self) -> u32
        ensures { result ≡ number_of self }
    {
        match self {
            Refusal::Row => 1,
            Refusal::Shape => 2,
            Refusal::Gain => 3,
            Refusal::LeadSign => 4,
            Refusal::Index => 5,
            Refusal::Pulses => 6,
            Refusal::NotFinite => 7,
            Refusal::TooFar => 8,
            Refusal::Length => 9,
            Refusal::RateOrPair => 10,
            Refusal::BandCount => 11,
            Refusal::Value => 12,
        }
    }

    // The refusal, given at a place.
    pub fn at(self, place: usize) -> Refused
        ensures { result ≡ record { refusal = self; place = place } }
    {
        Refused {
            refusal: self,
            place,
        }
    }
}

// Document 01's words.
impl fmt::Display for Refusal {
    ghost output = { λ refusal. Some (words_of refusal) };

    fn fmt<W: fmt::Write>(&self, f: &mut fmt::Formatter<W>) -> fmt::Result {
        let words = match self {
            Refusal::Row => "a codebook row is over 31",
            Refusal::Shape => "the shape is over 3",
            Refusal::Gain => "the gain is over 1, 3, 3, 7 for shapes 0 to 3",
            Refusal::LeadSign => "a lead sign in use is neither 0 nor 1",
            Refusal::Index => "an index in use is at or above its size",
            Refusal::Pulses => "the vector's pulses don't add up to the pair's K",
            Refusal::NotFinite => "a factor is NaN or infinite",
            Refusal::TooFar => "a factor is above the limit or below minus the limit",
            Refusal::Length => "a lent buffer has the wrong length",
            Refusal::RateOrPair => "the rate index is over 4, or the pair is none of the four",
            Refusal::BandCount => "the band count isn't 60 or 64, or isn't the table's",
            Refusal::Value => "a spectrum line or linear gain is NaN or infinite",
        };
        f.write_str(words)
    }
}

// A refusal and its place.
#[derive(Clone, Copy, PartialEq, Eq, Debug)]
pub struct Refused {
    pub refusal: Refusal,
    pub place: usize,
}

// A refusal that has one place alone is given at place 0.
impl From<Refusal> for Refused {
    ghost from_gives = { λ refusal refused. refused ≡ record { refusal = refusal; place = 0 } };

    fn from(refusal: Refusal) -> Refused {
        refusal.at(0)
    }
}

// The number and the place, as the programs write them.
impl fmt::Display for Refused {
    ghost output = { λ refused. Some (decimal (number_of refused.refusal) ++ codes " at " ++ decimal refused.place) };

    fn fmt<W: fmt::Write>(&self, f: &mut fmt::Formatter<W>) -> fmt::Result {
        write!(f, "{} at {}", self.refusal.number(), self.place)
    }
}

impl Error for Refused {}

// The answer to one question: a call asks its own, one after another, with `?`.
pub fn refuse_if(given: bool, refusal: Refusal, place: usize) -> Result<(), Refused>
    ensures { result ≡ answer_of (ask refusal place given ∷ []) }
{
    if given {
        return Err(refusal.at(place));
    }
    Ok(())
}

// What the elements of a row are: factors, within a limit, or values that need only be finite (spectrum lines, linear
// gains). It says which refusals they are given. An enum and no closure, since `element_questions` and its claims are over it.
#[derive(Clone, Copy)]
pub enum Element {
    Factor(f32),
    Value,
}

// The answer for one element at its place. The refusals of a row's elements stand here and in no other call.
fn element_refusal(x: f32, place: usize, element: Element) -> Result<(), Refused>
    requires { T (limit_finite element) }
    ensures { result ≡ answer_of (element_asked element place x) }
{
    match element {
        Element::Factor(limit) => match factor::check_against(x, limit) {
            Checked::Within(_) => Ok(()),
            Checked::TooFar(_) => Err(Refusal::TooFar.at(place)),
            Checked::NotFinite => Err(Refusal::NotFinite.at(place)),
        },
        Element::Value => refuse_if(!x.is_finite(), Refusal::Value, place),
    }
}

// The first refused element of a row, by place.
pub fn first_refused(values: &[f32], element: Element) -> Result<(), Refused>
    requires { T (limit_finite element) }
    ensures { result ≡ answer_of (element_questions element 0 values.now) }
{
    for (place, x) in values.iter().enumerate() {
        element_refusal(*x, place, element)?;
    }
    Ok(())
}
