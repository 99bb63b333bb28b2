// The header, the lengths and the row rule.
ghost use Rattle.std.specs.Prelude.{◌≡◌};
ghost use Rattle.sheet.specs.Lists.{first_bad};
ghost use Rattle.sheet.specs.Rows.{layout_of, slots, parties_of, is_top};
ghost use Rattle.rules.specs.Rules.{row_fits, row_rule};
ghost use Rattle.rules.specs.Check.{numbers_ok, header_ok, length_ok};
ghost use Rattle.rules.specs.Quick.{number_or_none};
ghost use Rattle.rules.specs.Words.{Rules1, Rules4};

use sheet::kind::Kind;
use sheet::rows::{self, Row, Rows, Slot};
use sheet::sizes::{
    BOUND_AT, KIND_AT, LENGTH_AT, LENGTH_LOW_AT, MOST_BOUND, MOST_PARTIES, MOST_UNITS, PARTIES_AT,
    UNITS_AT, UNITS_LOW_AT,
};

// The most parties and units once more, as wide as the numbers that are tested: a range is of one type.
const PARTIES: u32 = MOST_PARTIES as u32;

const UNITS: u16 = MOST_UNITS as u16;

// Kind 1 or 2, bound 1 to 64, parties 1 to 16.
pub fn numbers_ok(kind: u32, bound: u32, parties: u32) -> bool
    ensures { result ≡ numbers_ok kind bound parties }
{
    Kind::try_from(kind).is_ok()
        && (1..=MOST_BOUND).contains(&bound)
        && (1..=PARTIES).contains(&parties)
}

// A slice that has the header's eight bytes, here and in the two functions below: the header is looked at while its length is still to be tested.
pub(crate) fn header_ok(s: &[u8]) -> bool
    requires { Rules1 s.now }
    ensures { result ≡ header_ok (layout_of s.now) }
{
    numbers_ok(
        u32::from(s[KIND_AT]),
        u32::from(s[BOUND_AT]),
        u32::from(s[PARTIES_AT]),
    ) && (1..=UNITS).contains(&units(s))
}

// How many units a sheet is for.
fn units(s: &[u8]) -> u16
    requires { Rules1 s.now }
    ensures { result ≡ (layout_of s.now).units }
{
    u16::from_be_bytes([s[UNITS_AT], s[UNITS_LOW_AT]])
}

pub(crate) fn length_ok(s: &[u8]) -> bool
    requires { Rules1 s.now }
    ensures { result ≡ length_ok s.now }
{
    let whole = rows::sheet_length(s[PARTIES_AT]);
    usize::from(u16::from_be_bytes([s[LENGTH_AT], s[LENGTH_LOW_AT]])) == whole && s.len() == whole
}

// Whether a row keeps the row rule.
fn row_fits(kind: u8, bound: u8, units: u16, slot: Slot, row: Row) -> bool
    ensures { result ≡ row_fits kind bound units (is_top slot) row }
{
    row.is_legal(kind, bound)
        && row.is_below(units)
        && row.has(row.own)
        && if slot.is_top() {
            row.pair == 0
        } else {
            row.has(row.pair)
        }
}

// The first row, counted from 1, that breaks the row rule.
pub(crate) fn first_bad_row(s: &[u8]) -> Option<usize>
    requires { Rules4 s.now }
    ensures { result ≡ number_or_none (first_bad (row_rule (layout_of s.now)) 1 (slots (parties_of s.now))) }
{
    let kind = s[KIND_AT];
    let bound = s[BOUND_AT];
    let units = units(s);
    Rows::of_sheet(s, s[PARTIES_AT])
        .position(|(slot, row)| !row_fits(kind, bound, units, slot, row))
        .map(|k| k + 1)
}
