// What a session keeps.
ghost use Rattle.std.specs.Prelude.{◌≡◌, ◌++◌, Some, codes, decimal};
ghost use Rattle.state.specs.Session.{fresh_party, cell};
ghost use Rattle.state.specs.StatusNames.{word_of, Names};

use sheet::sizes::{MOST_PARTIES, MOST_SHEET, MOST_UNITS};
use std::error::Error;
use std::fmt;

// A unit holds a mark: a byte of a session's bytes, which may be any, so the marks are numbers with names (document 01).
#[derive(Clone, Copy)]
pub struct Mark(pub u8);

impl Mark {
    pub const EMPTY: u8 = 0;

    pub const LOWER: u8 = 1;

    pub const HIGHER: u8 = 2;
}

// How far a party has come. A party's entry holds the number, since a session's bytes may have any: `TryFrom` names it.
#[derive(Clone, Copy, Debug, PartialEq, Eq)]
pub enum Status {
    Idle,
    Running,
    Decided,
    Stopped,
}

impl Status {
    pub const IDLE: u8 = Status::Idle as u8;

    pub const RUNNING: u8 = Status::Running as u8;

    pub const DECIDED: u8 = Status::Decided as u8;

    pub const STOPPED: u8 = Status::Stopped as u8;
}

// A number that no status has.
#[derive(Clone, Copy, Debug, PartialEq, Eq)]
pub struct UnknownStatus(pub u8);

impl TryFrom<u8> for Status {
    type Error = UnknownStatus;

    ghost try_from_gives = { Names };

    fn try_from(number: u8) -> Result<Self, UnknownStatus> {
        match number {
            Status::IDLE => Ok(Status::Idle),
            Status::RUNNING => Ok(Status::Running),
            Status::DECIDED => Ok(Status::Decided),
            Status::STOPPED => Ok(Status::Stopped),
            _ => Err(UnknownStatus(number)),
        }
    }
}

impl fmt::Display for Status {
    ghost output = { λ s. Some (word_of s) };

    fn fmt<W: fmt::Write>(&self, f: &mut fmt::Formatter<W>) -> fmt::Result {
        f.write_str(match self {
            Status::Idle => "idle",
            Status::Running => "running",
            Status::Decided => "decided",
            Status::Stopped => "stopped",
        })
    }
}

impl fmt::Display for UnknownStatus {
    ghost output = { λ e. Some (codes "no status has number " ++ decimal e.0) };

    fn fmt<W: fmt::Write>(&self, f: &mut fmt::Formatter<W>) -> fmt::Result {
        write!(f, "no status has number {}", self.0)
    }
}

impl Error for UnknownStatus {}

// What a party's next step does: a number with a name, since a step matches on the place number (document 01).
#[derive(Clone, Copy)]
pub struct Place(pub u8);

impl Place {
    pub const ANNOUNCE: u8 = 0;

    pub const PUBLISH: u8 = 1;

    pub const WRITE: u8 = 2;

    pub const READ_TOP: u8 = 3;

    pub const READ_OWN: u8 = 4;

    pub const READ_PAIR: u8 = 5;

    pub const FETCH: u8 = 6;

    pub const DECIDE: u8 = 7;

    pub const DONE: u8 = 8;
}

// The most own steps of a well-formed session's party.
pub const MOST_STEPS: u16 = 1000;

// A published candidate for each round and lower.
pub const CELLS: usize = MOST_PARTIES * MOST_PARTIES;

// A party's entries.
#[derive(Clone, Copy, Debug, PartialEq, Eq)]
pub struct Party {
    pub status: u8,
    pub place: u8,
    pub round: u8,
    pub k: u8,
    pub candidate: u8,
    pub steps: u16,
    pub decision: u32,
}

impl Party {
    // Idle at place 0, with its own number as candidate.
    pub fn fresh(i: u8) -> Self
        ensures { result ≡ fresh_party i }
    {
        Party {
            status: Status::IDLE,
            place: Place::ANNOUNCE,
            round: 0,
            k: 0,
            candidate: i,
            steps: 0,
            decision: 0,
        }
    }
}

// Arrays of fixed size, as there is no heap: the sheet's copy says in its first two bytes how long the sheet is.
// `published` holds round r and lower k at MOST_PARTIES (r - 1) + (k - 1).
#[derive(Clone, Copy)]
pub struct Session {
    pub sheet: [u8; MOST_SHEET],
    pub proposals: [u32; MOST_PARTIES],
    pub marks: [u8; MOST_UNITS],
    pub published: [u8; CELLS],
    pub parties: [Party; MOST_PARTIES],
}

// Where the published candidate of a round and a lower stands.
pub fn cell_of(round: u8, k: u8) -> usize
    ensures { result ≡ cell round k }
{
    MOST_PARTIES * usize::from(round.saturating_sub(1)) + usize::from(k.saturating_sub(1))
}
