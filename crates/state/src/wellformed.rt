// Whether a session is well formed: a function for each group of clauses.
ghost use Rattle.std.specs.Prelude.{◌≡◌, ◌&&◌, cond, ◌+◌, ◌-◌, ◌/◌, ◌%◌, ◌≤◌, min, length, get_or, take, leb, ltb, eqb};
ghost use Rattle.std.specs.List.{list_all};
ghost use Rattle.sheet.specs.Sizes.{length_at, most_parties, most_sheet, most_units};
ghost use Rattle.sheet.specs.Lists.{from, all};
ghost use Rattle.sheet.specs.Bytes.{num};
ghost use Rattle.rules.specs.Check.{check_answer};
ghost use Rattle.state.specs.WellFormed.{carried_ok, marks_ok, is_lower, published_ok, proposals_ok, round_ok, scan_ok, lower_ok, top_ok, idle_ok, unstarted_ok, decision_ok, status_ok, ranges_ok, party_ok, unused_ok, parties_ok, well_formed};

use crate::kept::{CELLS, MOST_STEPS, Mark, Party, Place, Session, Status, cell_of};
use sheet::sizes::{
    LENGTH_AT, LENGTH_LOW_AT, MOST_PARTIES, MOST_SHEET, MOST_UNITS, PARTIES_AT, UNITS_AT,
    UNITS_LOW_AT,
};

// The last party once more, as wide as the numbers beside it.
const LAST_PARTY: u8 = MOST_PARTIES as u8;

// How many bytes of the copy the carried sheet has.
pub fn carried_length(sheet: &[u8; MOST_SHEET]) -> usize
    ensures { result ≡ min (num sheet.now length_at 2) most_sheet }
{
    let field = u16::from_be_bytes([sheet[LENGTH_AT], sheet[LENGTH_LOW_AT]]);
    usize::from(field).min(MOST_SHEET)
}

fn is_accepted(s: &[u8]) -> bool
    ensures { result ≡ eqb (check_answer s.now).number 0 }
{
    rules::check(s).is_ok()
}

// Whether each byte is at most this one. It asks every byte, with no early end, so that it compiles to vector code.
fn are_at_most(bytes: &[u8], most: u8) -> bool
    ensures { result ≡ list_all (λ x. leb x most) bytes.now }
{
    bytes.iter().fold(true, |ok, b| ok & (*b <= most))
}

// The carried sheet is accepted, and the copy past it is zero.
fn sheet_ok(sheet: &[u8; MOST_SHEET]) -> bool
    ensures { result ≡ carried_ok sheet.now }
{
    let len = carried_length(sheet);
    is_accepted(&sheet[..len]) && are_at_most(&sheet[len..], 0)
}

// The marks of the units are 0 to 2; past them they are zero.
fn marks_ok(marks: &[u8; MOST_UNITS], units: usize) -> bool
    requires { units ≤ most_units }
    ensures { result ≡ marks_ok units marks.now }
{
    are_at_most(&marks[..units], Mark::HIGHER) && are_at_most(&marks[units..], Mark::EMPTY)
}

// The most that entry j of the published candidates may be: n at a round from 2 to n and a lower of it, else 0.
fn most_published(n: u8, j: u8) -> u8
    ensures { result ≡ cond (is_lower n (j / most_parties + 1) (j % most_parties + 1)) n 0 }
{
    let r = j / LAST_PARTY + 1;
    let k = j % LAST_PARTY + 1;
    if (2..=n).contains(&r) && k < r { n } else { 0 }
}

// It asks every entry, as `are_at_most` does, each for a bound of its own, and counts them in bytes, which is faster.
fn published_ok(published: &[u8; CELLS], n: u8) -> bool
    ensures { result ≡ published_ok n published.now }
{
    published.iter().enumerate().fold(
        true,
        |ok, (j, c)| ok & (*c <= most_published(n, (j % CELLS) as u8)),
    )
}

// A chain of its own: a test of any type's zeros could not say zero as the definition does.
fn proposals_ok(proposals: &[u32; MOST_PARTIES], n: usize) -> bool
    requires { n ≤ most_parties }
    ensures { result ≡ proposals_ok n proposals.now }
{
    proposals[n..].iter().all(|x| *x == 0)
}

// Each test takes what the definition of its name takes, also n, which is the sheet's byte: its bound is shown once, where the sheet is accepted.
impl Party {
    // The round of party i of n, by the place.
    fn round_ok(self, n: u8, i: u8) -> bool
        ensures { result ≡ round_ok n i self }
    {
        if (Place::PUBLISH..=Place::FETCH).contains(&self.place) {
            (2..=n).contains(&self.round) && i <= self.round
        } else {
            self.round == 0
        }
    }

    // The scan number, by the place.
    fn scan_ok(self) -> bool
        ensures { result ≡ scan_ok self }
    {
        if (Place::READ_OWN..=Place::FETCH).contains(&self.place) {
            (1..self.round).contains(&self.k)
        } else {
            self.k == 0
        }
    }

    // Places 1 and 3 are a lower's.
    fn lower_ok(self, i: u8) -> bool
        ensures { result ≡ lower_ok i self }
    {
        match self.place {
            Place::PUBLISH | Place::READ_TOP => i < self.round,
            _ => true,
        }
    }

    // Place 6 is the top's, after a witness that has published.
    fn top_ok(self, published: &[u8; CELLS], i: u8) -> bool
        requires { self.place ≡ 6 → (self.round ≤ most_parties) × (self.k ≤ most_parties) }
        ensures { result ≡ top_ok published.now i self }
    {
        self.place != Place::FETCH
            || (i == self.round && published[cell_of(self.round, self.k)] != 0)
    }

    // Idle exactly at place 0, unless stopped.
    fn idle_ok(self) -> bool
        ensures { result ≡ idle_ok self }
    {
        self.status == Status::STOPPED
            || (self.status == Status::IDLE) == (self.place == Place::ANNOUNCE)
    }

    // No own steps at place 0.
    fn unstarted_ok(self) -> bool
        ensures { result ≡ unstarted_ok self }
    {
        self.place != Place::ANNOUNCE || self.steps == 0
    }

    // The decision is zero unless decided.
    fn decision_ok(self) -> bool
        ensures { result ≡ decision_ok self }
    {
        self.status == Status::DECIDED || self.decision == 0
    }

    // Status, place, own steps and decision.
    fn status_ok(self) -> bool
        ensures { result ≡ status_ok self }
    {
        (self.status == Status::DECIDED) == (self.place == Place::DONE)
            && self.idle_ok()
            && self.unstarted_ok()
            && self.decision_ok()
    }

    // The numbers of a party alone.
    fn ranges_ok(self, n: u8) -> bool
        ensures { result ≡ ranges_ok n self }
    {
        self.status <= Status::STOPPED
            && self.place <= Place::DONE
            && (1..=n).contains(&self.candidate)
            && self.steps <= MOST_STEPS
    }

    // Party i of n.
    fn party_ok(self, n: u8, published: &[u8; CELLS], i: u8) -> bool
        requires { n ≤ most_parties }
        ensures { result ≡ party_ok n published.now i self }
    {
        self.ranges_ok(n)
            && self.round_ok(n, i)
            && self.scan_ok()
            && self.lower_ok(i)
            && self.top_ok(published, i)
            && self.status_ok()
    }

    // An entry past the parties.
    fn unused_ok(self) -> bool
        ensures { result ≡ unused_ok self }
    {
        self == Party::fresh(0)
    }

    // Entry i, where n parties are.
    fn entry_ok(self, n: u8, published: &[u8; CELLS], i: u8) -> bool
        requires { n ≤ most_parties }
        ensures { result ≡ cond (leb i n) (party_ok n published.now i self) (unused_ok self) }
    {
        if i <= n {
            self.party_ok(n, published, i)
        } else {
            self.unused_ok()
        }
    }
}

fn parties_ok(n: u8, published: &[u8; CELLS], parties: &[Party; MOST_PARTIES]) -> bool
    requires { n ≤ most_parties }
    ensures { result ≡ parties_ok n published.now parties.now }
{
    parties
        .iter()
        .zip(1..=LAST_PARTY)
        .all(|(p, i)| p.entry_ok(n, published, i))
}

impl Session {
    // The clauses of marks, published candidates, proposals and parties, on a sheet of n parties and so many units.
    fn contents_ok(&self, n: u8, units: u16) -> bool
        requires { (n ≤ most_parties) × (units ≤ most_units) }
        ensures { result ≡ (marks_ok units self.now.marks && published_ok n self.now.published && proposals_ok n self.now.proposals && parties_ok n self.now.published self.now.parties) }
    {
        marks_ok(&self.marks, units as usize)
            && published_ok(&self.published, n)
            && proposals_ok(&self.proposals, n as usize)
            && parties_ok(n, &self.published, &self.parties)
    }

    // Whether every clause holds.
    pub fn is_well_formed(&self) -> bool
        ensures { result ≡ well_formed self.now }
    {
        if !sheet_ok(&self.sheet) {
            return false;
        }
        let units = u16::from_be_bytes([self.sheet[UNITS_AT], self.sheet[UNITS_LOW_AT]]);
        self.contents_ok(self.sheet[PARTIES_AT], units)
    }
}
