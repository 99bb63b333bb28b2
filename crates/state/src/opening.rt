// Whether a session is opened, and a session filled whole at opening.
ghost use Rattle.std.specs.Prelude.{[], ◌++◌, ◌≡◌, map, ◌-◌, ◌≤◌, min, length, take, replicate};
ghost use Rattle.sheet.specs.Sizes.{most_parties, most_sheet};
ghost use Rattle.sheet.specs.Lists.{from};
ghost use Rattle.answers.specs.Answers.{answer_of};
ghost use Rattle.state.specs.Session.{fresh_party, no_party, filled, fresh_session};
ghost use Rattle.state.specs.Opening.{open_answer, opened, session_given};

use crate::kept::{CELLS, Party, Session};
use answers::Refusal;
use sheet::sizes::{MOST_PARTIES, MOST_SHEET, MOST_UNITS, PARTIES_AT};
use std::array;

// The items, and behind them what fills up to N.
fn filled<T: Copy, const N: usize>(items: &[T], filling: T) -> [T; N]
    requires { length items.now ≤ N }
    ensures { result ≡ items.now ++ replicate (N - length items.now) filling }
{
    let mut copy = [filling; N];
    copy[..items.len()].copy_from_slice(items);
    copy
}

// The first 16 proposals; where there are fewer, zeros behind them.
pub fn proposals_copy(proposals: &[u32]) -> [u32; MOST_PARTIES]
    ensures { result ≡ filled most_parties (take most_parties proposals.now) }
{
    let count = proposals.len().min(MOST_PARTIES);
    filled(&proposals[..count], 0)
}

// Fresh parties 1 to n, at most 16, and unused entries behind them.
pub fn fresh_parties(n: u8) -> [Party; MOST_PARTIES]
    ensures { result ≡ map fresh_party (from 1 (min n most_parties)) ++ replicate (most_parties - n) no_party }
{
    array::from_fn(|at| {
        if at < usize::from(n) {
            Party::fresh(at as u8 + 1)
        } else {
            Party::fresh(0)
        }
    })
}

fn fresh_session(sheet: &[u8], proposals: &[u32], n: u8) -> Session
    requires { (length sheet.now ≤ most_sheet) × (length proposals.now ≤ most_parties) × (n ≤ most_parties) }
    ensures { result ≡ fresh_session sheet.now proposals.now n }
{
    Session {
        sheet: filled(sheet, 0),
        proposals: filled(proposals, 0),
        marks: [0; MOST_UNITS],
        published: [0; CELLS],
        parties: fresh_parties(n),
    }
}

impl Session {
    // A session of zeros, to read another into.
    pub fn blank() -> Self
        ensures { result ≡ fresh_session [] [] 0 }
    {
        Session {
            sheet: [0; MOST_SHEET],
            proposals: [0; MOST_PARTIES],
            marks: [0; MOST_UNITS],
            published: [0; CELLS],
            parties: [Party::fresh(0); MOST_PARTIES],
        }
    }
}

// Whether a session is opened: on an accepted sheet, with a proposal for each party.
pub fn opens(sheet: &[u8], proposals: &[u32]) -> Result<(), Refusal>
    ensures { answer_of result ≡ open_answer sheet.now proposals.now }
{
    rules::check(sheet)?;
    if proposals.len() != usize::from(sheet[PARTIES_AT]) {
        return Err(Refusal::Proposals);
    }
    Ok(())
}

// Opens a session on an accepted sheet with a proposal for each party.
pub fn open_value(sheet: &[u8], proposals: &[u32]) -> Result<Session, Refusal>
    ensures session { session_given result ≡ opened sheet.now proposals.now }
    ensures answer { answer_of result ≡ open_answer sheet.now proposals.now }
{
    opens(sheet, proposals)?;
    Ok(fresh_session(sheet, proposals, sheet[PARTIES_AT]))
}
