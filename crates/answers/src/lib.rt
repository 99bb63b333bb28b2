// Why a call is refused. `specs/Answers.antt` gives document 01's number and position of each case, and of a call's result.
#![tactic(auto)]

ghost use Rattle.std.specs.Prelude.{◌≡◌, Some};
ghost use Rattle.answers.specs.Answers.{number_of, position_of, refusal_text};

use std::error::Error;
use std::fmt;

// Why a call was refused. A row is counted from 1, the index of a schedule byte from 0.
#[derive(Clone, Copy, Debug, PartialEq, Eq)]
pub enum Refusal {
    Short,
    Version,
    Header,
    Length,
    Row(usize),
    Writer(usize),
    Proposals,
    Schedule(usize),
    Session,
    Party,
    Output,
    NoSheet,
}

impl Refusal {
    // Document 01's number of the refusal. A method, and no From: `position` stands beside it, and a byte does not say that it is this number.
    pub fn number(self) -> u8
        ensures { result ≡ number_of self }
    {
        match self {
            Refusal::Short => 1,
            Refusal::Version => 2,
            Refusal::Header => 3,
            Refusal::Length => 4,
            Refusal::Row(_) => 5,
            Refusal::Writer(_) => 6,
            Refusal::Proposals => 7,
            Refusal::Schedule(_) => 8,
            Refusal::Session => 9,
            Refusal::Party => 10,
            Refusal::Output => 11,
            Refusal::NoSheet => 12,
        }
    }

    // Its position: the row for 5 and 6, the index for 8, else 0.
    pub fn position(self) -> usize
        ensures { result ≡ position_of self }
    {
        match self {
            Refusal::Row(row) => row,
            Refusal::Writer(row) => row,
            Refusal::Schedule(index) => index,
            _ => 0,
        }
    }
}

// Its number and position in words.
impl fmt::Display for Refusal {
    ghost output = { λ r. Some (refusal_text r) };

    fn fmt<W: fmt::Write>(&self, f: &mut fmt::Formatter<W>) -> fmt::Result {
        write!(f, "refused {} at {}", self.number(), self.position())
    }
}

impl Error for Refusal {}
