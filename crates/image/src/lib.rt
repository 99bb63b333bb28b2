// A session in bytes: it is read out of them and written into them, where they are 3,418.
#![tactic(auto)]

mod entries;
mod parties;
pub mod proposals;
mod sizes;

ghost use Rattle.std.specs.Prelude.{◌≡◌, ◌++◌, cond, ◌&&◌, ◌≤◌, length, take, drop, replicate, eqb, leb};
ghost use Rattle.sheet.specs.Sizes.{most_parties, most_units, most_sheet};
ghost use Rattle.state.specs.Sizes.{cells};
ghost use Rattle.image.specs.Sizes.{session_length, marks_at, entries_at};
ghost use Rattle.state.specs.Session.{filled, of_parts};
ghost use Rattle.image.specs.Image.{parties_bytes, session_bytes, session_of};

use crate::sizes::{ENTRIES_AT, MARKS_AT, PROPOSALS_AT, PUBLISHED_AT};
use sheet::sizes::{MOST_PARTIES, MOST_SHEET};
pub use sizes::SESSION_LENGTH;
use state::{Party, Session};

// The length is asked of any slice in the four public functions, and known in those that they call.
#[inline(always)]
fn read_whole(bytes: &[u8], s: &mut Session)
    requires { length bytes.now ≡ session_length }
    ensures { s.new ≡ session_of bytes.now }
{
    s.sheet.copy_from_slice(&bytes[..MOST_SHEET]);
    entries::read_all(&bytes[PROPOSALS_AT..], &mut s.proposals);
    s.marks.copy_from_slice(&bytes[MARKS_AT..PUBLISHED_AT]);
    s.published
        .copy_from_slice(&bytes[PUBLISHED_AT..ENTRIES_AT]);
    entries::read_all(&bytes[ENTRIES_AT..], &mut s.parties);
}

// Reads the session that the bytes say into one that is lent. It is compiled into its callers: there its copies go into a session of their own, and are no call of `memmove`.
#[inline(always)]
pub fn read(bytes: &[u8], s: &mut Session)
    ensures { s.new ≡ cond (eqb (length bytes.now) session_length) (session_of bytes.now) s.old }
{
    if bytes.len() == SESSION_LENGTH {
        read_whole(bytes, s);
    }
}

fn put_acted(s: &Session, bytes: &mut [u8])
    requires { length bytes.old ≡ session_length }
    ensures { bytes.new ≡ take marks_at bytes.old ++ s.now.marks ++ s.now.published ++ parties_bytes s.now.parties }
{
    bytes[MARKS_AT..PUBLISHED_AT].copy_from_slice(&s.marks);
    bytes[PUBLISHED_AT..ENTRIES_AT].copy_from_slice(&s.published);
    entries::put_all(&mut bytes[ENTRIES_AT..], &s.parties);
}

// What an act may change of a session, over its bytes.
pub fn write_acted(s: &Session, bytes: &mut [u8])
    ensures { bytes.new ≡ cond (eqb (length bytes.old) session_length) (take marks_at bytes.old ++ s.now.marks ++ s.now.published ++ parties_bytes s.now.parties) bytes.old }
{
    if bytes.len() == SESSION_LENGTH {
        put_acted(s, bytes);
    }
}

// The parties of a session, over their bytes.
pub fn write_parties(s: &Session, bytes: &mut [u8])
    ensures { bytes.new ≡ cond (eqb (length bytes.old) session_length) (take entries_at bytes.old ++ parties_bytes s.now.parties) bytes.old }
{
    if bytes.len() == SESSION_LENGTH {
        entries::put_all(&mut bytes[ENTRIES_AT..], &s.parties);
    }
}

// A sheet's bytes, at the start of what is lent. Byte by byte: where both slices are a host's, the library's copy is a call of `memmove`.
fn put_sheet(sheet: &[u8], o: &mut [u8])
    requires { length sheet.now ≤ length o.old }
    ensures { o.new ≡ sheet.now ++ drop (length sheet.now) o.old }
{
    for (j, b) in sheet.iter().enumerate() {
        o[j] = *b;
    }
}

fn put_fresh(
    sheet: &[u8],
    proposals: [u32; MOST_PARTIES],
    parties: [Party; MOST_PARTIES],
    bytes: &mut [u8],
)
    requires { (length sheet.now ≤ most_sheet) × (length bytes.old ≡ session_length) }
    ensures { bytes.new ≡ session_bytes (of_parts (filled most_sheet sheet.now) proposals (replicate most_units 0) (replicate cells 0) parties) }
{
    put_sheet(sheet, bytes);
    bytes[sheet.len()..MOST_SHEET].fill(0);
    entries::put_all(&mut bytes[PROPOSALS_AT..], &proposals);
    bytes[MARKS_AT..ENTRIES_AT].fill(0);
    entries::put_all(&mut bytes[ENTRIES_AT..], &parties);
}

// A session on which no party has acted: the sheet, and zeros to the end of its part, the proposals, no mark, no published candidate, the parties.
pub fn write_fresh(
    sheet: &[u8],
    proposals: [u32; MOST_PARTIES],
    parties: [Party; MOST_PARTIES],
    bytes: &mut [u8],
)
    ensures { bytes.new ≡ cond (eqb (length bytes.old) session_length && leb (length sheet.now) most_sheet) (session_bytes (of_parts (filled most_sheet sheet.now) proposals (replicate most_units 0) (replicate cells 0) parties)) bytes.old }
{
    if bytes.len() != SESSION_LENGTH {
        return;
    }
    if sheet.len() <= MOST_SHEET {
        put_fresh(sheet, proposals, parties, bytes);
    }
}
