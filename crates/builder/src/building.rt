// The sheets that are built, and their bytes.
ghost use Rattle.std.specs.Prelude.{◌≡◌, ◌++◌, ◌+◌, ◌*◌, ◌^◌, ◌≤◌, ◌<◌, length, drop, is_some, IfSome};
ghost use Rattle.sheet.specs.Sizes.{header_length, row_length, most_bound, most_parties};
ghost use Rattle.sheet.specs.Kind.{kind_number};
ghost use Rattle.sheet.specs.Rows.{sheet_length, row_number};
ghost use Rattle.sheet.specs.Words.{IsSlot};
ghost use Rattle.rules.specs.Check.{numbers_ok};
ghost use Rattle.builder.specs.Build.{given, row_bytes, header_bytes, built_units, row2, built_row, built_sheet};
ghost use Rattle.builder.specs.Given.{Given};

use sheet::kind::Kind;
use sheet::rows;
use sheet::rows::{Row, Slot};
use sheet::sizes::{
    BOUND_AT, HEADER_LENGTH, KIND_AT, LENGTH_AT, MASK_AT, OWN_AT, PAIR_AT, PARTIES_AT, ROW_LENGTH,
    START_AT, UNITS_AT, VERSION, VERSION_AT,
};

// Kind 1: the rows, in the sheet's order.
static TABLE: [Row; 5] = [
    Row {
        start: 2,
        mask: 3,
        own: 2,
        pair: 3,
    },
    Row {
        start: 3,
        mask: 7,
        own: 4,
        pair: 0,
    },
    Row {
        start: 14,
        mask: 3,
        own: 14,
        pair: 15,
    },
    Row {
        start: 18,
        mask: 7,
        own: 20,
        pair: 19,
    },
    Row {
        start: 15,
        mask: 31,
        own: 16,
        pair: 0,
    },
];

// 2^j, with the fact that the shift loses nothing.
fn power(j: u16) -> u64
    requires { j < 64 }
    ensures { result ≡ 2 ^ j }
{
    1 << (j as u64)
}

// Kind 2: a row in its round's word.
fn word_row(bound: u16, p: Slot) -> Row
    requires { (IsSlot most_parties p) × (2 * p.round ≤ bound + 1) × (bound ≤ most_bound) }
    ensures { result ≡ row2 bound p }
{
    let r = p.round as u16;
    let i = p.party as u16;
    let w = (r - 2) * bound;
    if i == r {
        Row {
            start: w,
            mask: power(2 * r - 1) - power(r - 1),
            own: w + r - 1,
            pair: 0,
        }
    } else {
        Row {
            start: w,
            mask: power(i - 1) + power(r + i - 1),
            own: w + i - 1,
            pair: w + r + i - 1,
        }
    }
}

// A row's 14 bytes, at the start of what is lent.
fn put_row(o: &mut [u8], w: Row)
    requires { row_length ≤ length o.old }
    ensures { o.new ≡ row_bytes w ++ drop row_length o.old }
{
    o[START_AT..MASK_AT].copy_from_slice(&w.start.to_be_bytes());
    o[MASK_AT..OWN_AT].copy_from_slice(&w.mask.to_be_bytes());
    o[OWN_AT..PAIR_AT].copy_from_slice(&w.own.to_be_bytes());
    o[PAIR_AT..ROW_LENGTH].copy_from_slice(&w.pair.to_be_bytes());
}

// What a sheet is for: numbers in range.
#[derive(Clone, Copy)]
pub(crate) struct Numbers {
    kind: Kind,
    bound: u8,
    parties: u8,
    ghost bound_in_range: { (1 ≤ bound) × (bound ≤ most_bound) },
    ghost parties_in_range: { (1 ≤ parties) × (parties ≤ most_parties) },
}

impl Numbers {
    // The numbers, where they are in range.
    pub(crate) fn new(kind: u32, bound: u32, parties: u32) -> Option<Self>
        ensures in_range { is_some result ≡ numbers_ok kind bound parties }
        ensures same { IfSome result (λ n. (kind_number n.kind ≡ kind) × (n.bound ≡ bound) × (n.parties ≡ parties)) }
    {
        if !rules::numbers_ok(kind, bound, parties) {
            return None;
        }
        let kind = Kind::try_from(kind).ok()?;
        Some(Numbers {
            kind,
            bound: bound as u8,
            parties: parties as u8,
        })
    }

    // Whether there is a sheet for them.
    pub(crate) fn is_given(self) -> bool
        ensures { result ≡ given (kind_number self.kind) self.bound self.parties }
    {
        match (self.kind, self.parties) {
            (Kind::SizeVarying, 1) => true,
            (Kind::SizeVarying, 2) => 3 <= self.bound,
            (Kind::SizeVarying, 3) => 5 <= self.bound,
            (Kind::SizeVarying, _) => false,
            (Kind::Inconsecutive, parties) => 2 * parties - 1 <= self.bound,
        }
    }

    fn units(self) -> u16
        ensures { result ≡ built_units (kind_number self.kind) self.bound self.parties }
    {
        match (self.kind, self.parties) {
            (_, 1) => 1,
            (Kind::SizeVarying, 2) => 6,
            (Kind::SizeVarying, _) => 21,
            (Kind::Inconsecutive, parties) => u16::from(parties - 1) * u16::from(self.bound),
        }
    }

    // Row k, which is p's.
    fn row(self, p: Slot, k: usize) -> Row
        requires { (Given (kind_number self.kind) self.bound self.parties) × (IsSlot self.parties p) × (k + 1 ≡ row_number p) }
        ensures { result ≡ built_row (kind_number self.kind) self.bound p }
    {
        match self.kind {
            Kind::SizeVarying => TABLE[k],
            Kind::Inconsecutive => word_row(u16::from(self.bound), p),
        }
    }

    // The length of the whole sheet.
    pub(crate) fn sheet_length(self) -> usize
        ensures { result ≡ sheet_length self.parties }
    {
        rows::sheet_length(self.parties)
    }

    // The header's 8 bytes.
    fn put_header(self, o: &mut [u8])
        requires { header_length ≤ length o.old }
        ensures { o.new ≡ header_bytes (kind_number self.kind) self.bound self.parties (built_units (kind_number self.kind) self.bound self.parties) ++ drop header_length o.old }
    {
        let length = self.sheet_length() as u16;
        o[LENGTH_AT..VERSION_AT].copy_from_slice(&length.to_be_bytes());
        o[VERSION_AT] = VERSION;
        o[KIND_AT] = u8::from(self.kind);
        o[BOUND_AT] = self.bound;
        o[PARTIES_AT] = self.parties;
        o[UNITS_AT..HEADER_LENGTH].copy_from_slice(&self.units().to_be_bytes());
    }

    // The whole sheet; the bytes past it stay.
    pub(crate) fn put_sheet(self, out: &mut [u8])
        requires { (Given (kind_number self.kind) self.bound self.parties) × (sheet_length self.parties ≤ length out.old) }
        ensures { out.new ≡ built_sheet (kind_number self.kind) self.bound self.parties ++ drop (sheet_length self.parties) out.old }
    {
        self.put_header(out);
        // The slot goes along by hand: rows with their slots come of a sheet that is there.
        let mut p = Slot::first();
        for k in 0..rows::row_count(self.parties) {
            let at = HEADER_LENGTH + ROW_LENGTH * k;
            put_row(&mut out[at..], self.row(p, k));
            p = p.next();
        }
    }
}
