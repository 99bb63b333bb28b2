// The rows of a sheet and the reader that goes from one to the next.
ghost use Rattle.std.specs.Prelude.{⊤, ◌≡◌, cond, eqb, ◌+◌, ◌-◌, ◌*◌, ◌<◌, ◌≤◌, min, IfSome, length, take, drop};
ghost use Rattle.std.specs.Option.{unwrap_or};
ghost use Rattle.std.specs.Iterator.{at_most, YieldsFirst, MakesProgress};
ghost use Rattle.sheet.specs.Sizes.{header_length, row_length, most_rows};
ghost use Rattle.sheet.specs.Reader.{row_or_none, whole_rows, rows_on};
ghost use Rattle.sheet.specs.Rows.{slot, slot_after, row_count, is_top, sheet_length, row_from, row_at, taken, row_place, row_of};

use crate::sizes::{HEADER_LENGTH, MASK_AT, MOST_PARTIES, MOST_ROWS, OWN_AT, PAIR_AT, ROW_LENGTH};

#[derive(Clone, Copy, Default)]
pub struct Row {
    pub start: u16,
    pub mask: u64,
    pub own: u16,
    pub pair: u16,
}

// Whose a row is.
#[derive(Clone, Copy)]
pub struct Slot {
    pub round: usize,
    pub party: usize,
}

// A row that was read, and the next place. Where there is no row, zeros and the same place, and no Option: `taken` says so, and who asks cannot fail.
#[derive(Clone, Copy)]
pub struct Taken {
    pub row: Row,
    pub next: usize,
}

// The lent sheet, and the place of the next row, counted from 0.
#[derive(Clone, Copy)]
pub struct RowReader<'a> {
    pub sheet: &'a [u8],
    pub row: usize,
}

// A reader, whose its next row is, and how many rows are left to give: the sheet has the whole of each.
#[derive(Clone, Copy)]
pub struct Rows<'a> {
    pub reader: RowReader<'a>,
    pub slot: Slot,
    pub left: usize,
    ghost whole: { left ≤ whole_rows (length reader.sheet.now) - reader.row },
}

impl Slot {
    // The first row's.
    pub fn first() -> Self
        ensures { result ≡ slot 2 1 }
    {
        Slot { round: 2, party: 1 }
    }

    // The next row's: the round's next party, or after the top the next round's first; past round 16 the same.
    pub fn next(self) -> Self
        ensures { result ≡ slot_after self }
    {
        let Slot { round, party } = self;
        if MOST_PARTIES < round {
            return self;
        }
        if party < round {
            Slot {
                round,
                party: party + 1,
            }
        } else {
            Slot {
                round: round + 1,
                party: 1,
            }
        }
    }

    // Whether it is the round's top.
    pub fn is_top(self) -> bool
        ensures { result ≡ is_top self }
    {
        self.party == self.round
    }
}

// How many rows a sheet of n parties has.
pub fn row_count(n: u8) -> usize
    ensures value { result ≡ row_count n }
    ensures upper_bound { result < 32768 }
{
    let m = usize::from(n);
    (m * (m + 1) / 2).saturating_sub(1)
}

// The length of a whole sheet.
pub fn sheet_length(n: u8) -> usize
    ensures { result ≡ sheet_length n }
{
    HEADER_LENGTH + ROW_LENGTH * row_count(n)
}

// The N bytes at a place.
fn bytes_at<const N: usize>(s: &[u8], at: usize) -> [u8; N]
    requires { at + N ≤ length s.now }
    ensures { result ≡ take N (drop at s.now) }
{
    *s[at..at + N].first_chunk().unwrap()
}

// The row that 14 bytes say.
fn row_from(s: &[u8], at: usize) -> Row
    requires { at + row_length ≤ length s.now }
    ensures { result ≡ row_from (drop at s.now) }
{
    Row {
        start: u16::from_be_bytes(bytes_at(s, at)),
        mask: u64::from_be_bytes(bytes_at(s, at + MASK_AT)),
        own: u16::from_be_bytes(bytes_at(s, at + OWN_AT)),
        pair: u16::from_be_bytes(bytes_at(s, at + PAIR_AT)),
    }
}

// One of the rows that the largest sheet has, where this sheet has the whole of it.
fn row_within(s: &[u8], row: usize) -> Option<Row>
    requires { row < most_rows }
    ensures { result ≡ row_or_none s.now row }
{
    let at = HEADER_LENGTH + ROW_LENGTH * row;
    if at + ROW_LENGTH <= s.len() {
        Some(row_from(s, at))
    } else {
        None
    }
}

// Row `row` of a sheet, counted from 0, where the sheet has the whole of it.
pub fn row_or_none(s: &[u8], row: usize) -> Option<Row>
    ensures { result ≡ row_or_none s.now row }
{
    if row < MOST_ROWS {
        row_within(s, row)
    } else {
        None
    }
}

// ---- the reader

// A reader at any row.
pub fn rows_from<'a>(sheet: &'a [u8], row: usize) -> RowReader<'a>
    ensures { (result.sheet ≡ sheet.entry) × (result.row ≡ row) }
{
    RowReader { sheet, row }
}

impl<'a> RowReader<'a> {
    // How many whole rows the sheet has from the place on.
    fn whole(self) -> usize
        ensures { result ≡ whole_rows (length self.entry.sheet.now) - self.entry.row }
    {
        (self.sheet.len().saturating_sub(HEADER_LENGTH) / ROW_LENGTH).saturating_sub(self.row)
    }

    // The row at the place, and the place goes on.
    fn read(&mut self) -> Row
        requires { header_length + row_length * (self.old.row + 1) ≤ length self.old.sheet.now }
        ensures row { result ≡ row_at self.old.sheet.now self.old.row }
        ensures sheet { self.new.sheet ≡ self.old.sheet }
        ensures place { self.new.row ≡ self.old.row + 1 }
    {
        let place = self.row;
        self.row = place + 1;
        row_from(self.sheet, HEADER_LENGTH + ROW_LENGTH * place)
    }
}

// The row at the reader's place, and the place goes on; where there is none, it stays.
impl<'a> Iterator for RowReader<'a> {
    ghost use Rattle.sheet.specs.Reader.{Reads};

    type Item = Row;

    ghost next_gives = { Reads };

    ghost remaining = { λ r. at_most (most_rows - r.row) };

    fn next(&mut self) -> Option<Row> {
        let row = row_or_none(self.sheet, self.row)?;
        self.row += 1;
        Some(row)
    }
}

// The row at the reader's place, and the place goes on; where there is none, zeros, and it stays: who asks cannot fail.
pub fn next_row(r: &mut RowReader) -> Row
    ensures { (result ≡ (taken r.old.sheet.now r.old.row).row) × ((r.new.sheet ≡ r.old.sheet) × (r.new.row ≡ (taken r.old.sheet.now r.old.row).next)) }
{
    r.next().unwrap_or_default()
}

// The row at a place and the next place, or zeros and the same place where there is no row.
pub fn row_after(s: &[u8], row: usize) -> Taken
    ensures { result ≡ taken s.now row }
{
    match row_or_none(s, row) {
        Some(w) => Taken {
            row: w,
            next: row + 1,
        },
        None => Taken {
            row: Row::default(),
            next: row,
        },
    }
}

// ---- rows with their slots

impl<'a> Rows<'a> {
    ghost use Rattle.sheet.specs.Left.{rows_left};

    // The rows of a sheet of n parties, as many as the sheet has.
    pub fn of_sheet(sheet: &'a [u8], n: u8) -> Self
        ensures rows { rows_left result ≡ rows_on sheet.entry.now 0 (slot 2 1) (min (row_count n) (whole_rows (length sheet.entry.now))) }
        ensures sheet { result.reader.sheet ≡ sheet.entry }
        ensures place { result.reader.row ≡ 0 }
        ensures slot { result.slot ≡ slot 2 1 }
        ensures left { result.left ≡ min (row_count n) (whole_rows (length sheet.entry.now)) }
        ensures count { result.left < 32768 }
    {
        let reader = rows_from(sheet, 0);
        Rows {
            reader,
            slot: Slot::first(),
            left: row_count(n).min(reader.whole()),
        }
    }

    // The rows of one round of the same sheet, as many as the sheet has; where there can be none, from behind the last, as the definition `row_place` has it.
    pub fn of_round(self, round: usize) -> Self
        ensures rows { rows_left result ≡ rows_on self.entry.reader.sheet.now (row_place round 1) (slot round 1) (min round (whole_rows (length self.entry.reader.sheet.now) - row_place round 1)) }
        ensures sheet { result.reader.sheet ≡ self.entry.reader.sheet }
        ensures place { result.reader.row ≡ row_place round 1 }
        ensures slot { result.slot ≡ slot round 1 }
        ensures left { result.left ≡ min round (whole_rows (length self.entry.reader.sheet.now) - row_place round 1) }
    {
        let reader = rows_from(self.reader.sheet, row_place(round, 1).unwrap_or(MOST_ROWS));
        Rows {
            reader,
            slot: Slot { round, party: 1 },
            left: round.min(reader.whole()),
        }
    }
}

// Each row with its slot.
impl<'a> Iterator for Rows<'a> {
    ghost use Rattle.sheet.specs.Left.{rows_left};

    type Item = (Slot, Row);

    ghost next_gives = { YieldsFirst rows_left };

    ghost remaining = { λ r. at_most r.left };

    fn next(&mut self) -> Option<(Slot, Row)>
        ensures steps { YieldsFirst rows_left self.old result self.new }
        ensures goes { MakesProgress (λ _. ⊤) (λ r. at_most r.left) self.old result self.new }
        ensures sheet { self.new.reader.sheet ≡ self.old.reader.sheet }
        ensures place { self.new.reader.row ≡ self.old.reader.row + min self.old.left 1 }
        ensures slot { self.new.slot ≡ cond (eqb self.old.left 0) self.old.slot (slot_after self.old.slot) }
        ensures left { self.new.left ≡ self.old.left - 1 }
    {
        if self.left == 0 {
            return None;
        }
        let row = self.reader.read();
        let slot = self.slot;
        self.slot = slot.next();
        self.left -= 1;
        Some((slot, row))
    }
}

// The place of a party's row of a round, or none where there can be no row.
fn row_place(round: usize, party: usize) -> Option<usize>
    ensures value { row_place round party ≡ unwrap_or result most_rows }
    ensures below { IfSome result (λ k. k < most_rows) }
{
    if (2..=MOST_PARTIES).contains(&round) && (1..=round).contains(&party) {
        Some(round * (round - 1) / 2 - 1 + party - 1)
    } else {
        None
    }
}

// A party's row of a round, or zeros where there can be none: `row_of` says so, and who asks cannot fail.
pub fn row_of(s: &[u8], round: usize, party: usize) -> Row
    ensures { result ≡ row_of s.now round party }
{
    row_place(round, party)
        .and_then(|place| row_within(s, place))
        .unwrap_or_default()
}
