// The words that every crate shares: the value that the register holds, document 01's refusals by name, and an answer's two numbers.
// specs/Value.antt, specs/Refusals.antt and specs/Answers.antt say the same to the proofs.
#![tactic(auto)]

ghost use Rattle.terms.specs.Answers.{NumbersRefusal, IsAt, HasNumber, HasPlace};

// A value of the register: 32 bits.
pub type Value = u32;

// Why a file, a move or an event is refused.
#[derive(Clone, Copy, Debug, PartialEq, Eq)]
pub enum Refusal {
    Cut, // 1 or 2 bytes remain for a header, or the body is cut.
    ForeignTag, // The tag isn't of this kind of file.
    WrongLength, // The body length isn't the tag's.
    NotFirst, // No first field, the first is not tag 1, or tag 1 stands later.
    NoBit, // Flicker body other than 0 or 1.
    Misfit, // The move doesn't fit the location.
    TooLong, // File over its limit.
    NoRoom, // Output shorter than the whole log.
    OutOfRange, // Single move: something of the state or the move is out of its range.
    Clash, // Single move: the state is a clash.
    OutOfTurn, // Log: an operation begun while the same party's is open, or ended while none is.
    NumberSpent, // Single move: step 20 with the writer's number at 65,535.
}

// A refusal's number.
impl From<Refusal> for u32 {
    ghost from_gives = { NumbersRefusal };

    fn from(refusal: Refusal) -> u32 {
        match refusal {
            Refusal::Cut => 1,
            Refusal::ForeignTag => 2,
            Refusal::WrongLength => 3,
            Refusal::NotFirst => 4,
            Refusal::NoBit => 5,
            Refusal::Misfit => 6,
            Refusal::TooLong => 7,
            Refusal::NoRoom => 8,
            Refusal::OutOfRange => 9,
            Refusal::Clash => 10,
            Refusal::OutOfTurn => 11,
            Refusal::NumberSpent => 12,
        }
    }
}

// The error of every answer: a refusal with its place.
#[derive(Clone, Copy, Debug, PartialEq, Eq)]
pub struct Refused {
    pub refusal: Refusal,
    pub place: usize,
}

impl Refusal {
    // This refusal, at a place.
    pub fn at(self, place: usize) -> Refused
        ensures { IsAt self place result }
    {
        Refused {
            refusal: self,
            place,
        }
    }
}

// An answer's number: 0 is good.
pub fn number<T>(answer: &Result<T, Refused>) -> u32
    ensures { HasNumber answer.now result }
{
    match answer {
        Ok(_) => 0,
        Err(refused) => u32::from(refused.refusal),
    }
}

// An answer's place: 0 for good answers.
pub fn place<T>(answer: &Result<T, Refused>) -> usize
    ensures { HasPlace answer.now result }
{
    match answer {
        Ok(_) => 0,
        Err(refused) => refused.place,
    }
}
