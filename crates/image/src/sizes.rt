// How long a session's bytes and their parts are, and where each part stands: the sheet's copy, proposals, marks, published candidates, parties.
use sheet::sizes::{MOST_PARTIES, MOST_SHEET, MOST_UNITS};
use state::CELLS;

pub(crate) const PROPOSAL_LENGTH: usize = 4;

pub(crate) const PROPOSALS_LENGTH: usize = MOST_PARTIES * PROPOSAL_LENGTH;

// A party's entries.
pub(crate) const ENTRY_LENGTH: usize = 11;

pub(crate) const PROPOSALS_AT: usize = MOST_SHEET;

pub(crate) const MARKS_AT: usize = PROPOSALS_AT + PROPOSALS_LENGTH;

pub(crate) const PUBLISHED_AT: usize = MARKS_AT + MOST_UNITS;

pub(crate) const ENTRIES_AT: usize = PUBLISHED_AT + CELLS;

pub const SESSION_LENGTH: usize = ENTRIES_AT + MOST_PARTIES * ENTRY_LENGTH;
