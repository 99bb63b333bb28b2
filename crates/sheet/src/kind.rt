// The kinds of words that a core can store at once, by document 01's numbers.
ghost use Rattle.std.specs.Prelude.{◌≡◌, ◌++◌, Some, codes, decimal};
ghost use Rattle.sheet.specs.Kind.{kind_number, Decodes};

use std::error::Error;
use std::fmt;

// Some units in a row, starting at a multiple of their number, or any units of an aligned word.
#[derive(Clone, Copy, Debug, PartialEq, Eq)]
pub enum Kind {
    SizeVarying = 1,
    Inconsecutive = 2,
}

// A number that no kind has.
#[derive(Clone, Copy, Debug, PartialEq, Eq)]
pub struct UnknownKind(pub u32);

impl fmt::Display for UnknownKind {
    ghost output = { λ e. Some (codes "no kind has number " ++ decimal e.0) };

    fn fmt<W: fmt::Write>(&self, f: &mut fmt::Formatter<W>) -> fmt::Result {
        write!(f, "no kind has number {}", self.0)
    }
}

impl Error for UnknownKind {}

impl TryFrom<u32> for Kind {
    type Error = UnknownKind;

    ghost try_from_gives = { Decodes };

    fn try_from(number: u32) -> Result<Self, UnknownKind> {
        match number {
            1 => Ok(Kind::SizeVarying),
            2 => Ok(Kind::Inconsecutive),
            _ => Err(UnknownKind(number)),
        }
    }
}

impl From<Kind> for u8 {
    ghost from_gives = { λ kind number. number ≡ kind_number kind };

    fn from(kind: Kind) -> u8 {
        kind as u8
    }
}
