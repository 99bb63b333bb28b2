// The writer rule over a whole sheet: within each round, and across rounds only where they do not ascend in memory.
ghost use Rattle.std.specs.Prelude.{◌≡◌, ◌||◌, true, eqb};
ghost use Rattle.std.specs.List.{fold};
ghost use Rattle.sheet.specs.Lists.{first_bad};
ghost use Rattle.sheet.specs.Sets.{apart};
ghost use Rattle.sheet.specs.Rows.{layout_of, slots, parties_of};
ghost use Rattle.sheet.specs.Left.{rows_left};
ghost use Rattle.rules.specs.Rules.{writer_rule};
ghost use Rattle.rules.specs.Words.{Rules5};
ghost use Rattle.rules.specs.Quick.{beside, edge, edge_after, number_or_none, beside_rows, clear_of_rows, quick_row, first_not};

use sheet::rows::{Row, Rows, Slot};
use sheet::sizes::PARTIES_AT;

// What the rows so far say of where rounds lie: rows of this round must start at or past `limit`, and all rows so far end before `end`.
#[derive(Drop)]
pub(crate) struct Edge {
    // A flag, and no Option of the rest: the pass asks every row and branches at none.
    pub ok: bool,
    pub limit: u32,
    pub end: u32,
}

// One row more: `first` where it is its round's first.
fn edge_after(e: Edge, first: bool, row: Row) -> Edge
    ensures { result ≡ edge_after e first row }
{
    let start = u32::from(row.start);
    let limit = if first { e.end } else { e.limit };
    Edge {
        ok: e.ok && limit <= start,
        limit,
        end: e.end.max(start + row.bits()),
    }
}

// Whether each round lies past the rounds before it: one pass, with no early exit.
fn ascends(rows: Rows) -> bool
    ensures { result ≡ (fold (λ e x. edge_after e (eqb x.0.party 1) x.1) (edge true 0 0) (rows_left rows.entry)).ok }
{
    let start = Edge {
        ok: true,
        limit: 0,
        end: 0,
    };
    rows.fold(start, |e, (slot, row)| edge_after(e, slot.party == 1, row))
        .ok
}

// A row beside another party's row of the same round. A slot and its row go as the pair that `Rows` yields, here and below.
fn is_beside(slot: Slot, row: Row, party: usize, other: Row) -> bool
    ensures { result ≡ beside slot.round slot.party row party other }
{
    if slot.party == party {
        return true;
    }
    if other.has(row.own) {
        return false;
    }
    if slot.is_top() {
        return true;
    }
    if party == slot.round {
        other.has(row.pair)
    } else {
        !other.has(row.pair)
    }
}

// A row beside all rows of its round.
fn alone_in_round(mut round: Rows, slot: Slot, row: Row) -> bool
    ensures { result ≡ beside_rows (rows_left round.entry) slot row }
{
    round.all(|(seat, other)| is_beside(slot, row, seat.party, other))
}

// A row of one round beside a row of another; rows of the same round are not looked at here.
fn is_clear(round: usize, row: Row, other_round: usize, other: Row) -> bool
    ensures { result ≡ (eqb round other_round || apart row.start row.mask other.start other.mask) }
{
    round == other_round || row.is_apart(other)
}

// A row of one round, and the rows of all other rounds.
fn clear_of_rounds(mut rows: Rows, round: usize, row: Row) -> bool
    ensures { result ≡ clear_of_rows (rows_left rows.entry) round row }
{
    rows.all(|(slot, other)| is_clear(round, row, slot.round, other))
}

// Whether one of a sheet's rows keeps the writer rule. The other rounds are looked at only where rounds do not ascend.
fn writer_fits(rows: Rows, ascending: bool, slot: Slot, row: Row) -> bool
    ensures { result ≡ quick_row rows.entry ascending slot row }
{
    alone_in_round(rows.of_round(slot.round), slot, row)
        && (ascending || clear_of_rounds(rows, slot.round, row))
}

// The first row, counted from 1, that breaks the writer rule by that test.
fn first_clash(rows: Rows, ascending: bool) -> Option<usize>
    ensures { result ≡ first_not (λ x. quick_row rows.entry ascending x.0 x.1) (rows_left rows.entry) }
{
    let mut left = rows;
    left.position(|(slot, row)| !writer_fits(rows, ascending, slot, row))
        .map(|k| k + 1)
}

// The first row, counted from 1, that breaks the writer rule, where all rows keep the row rule.
pub(crate) fn first_bad_writer(s: &[u8]) -> Option<usize>
    requires { Rules5 s.now }
    ensures { result ≡ number_or_none (first_bad (writer_rule (layout_of s.now)) 1 (slots (parties_of s.now))) }
{
    let rows = Rows::of_sheet(s, s[PARTIES_AT]);
    first_clash(rows, ascends(rows))
}
