// One act of a live party on the lent memory: one function for each place, and the dispatch.
ghost use Rattle.std.specs.Prelude.{◌≡◌, cond, ℕ, ◌-◌, ◌≤◌, ◌<◌, get_or, set, T, eqb};
ghost use Rattle.sheet.specs.Sizes.{most_parties, most_units};
ghost use Rattle.state.specs.Sizes.{most_steps};
ghost use Rattle.sheet.specs.Rows.{layout_of, slot, writes};
ghost use Rattle.state.specs.Session.{cell};
ghost use Rattle.steps.specs.Step.{goes, won, next_k, lowers_win, counted, mark_at, announced, after_publish, after_write, after_top, after_own, after_pair, after_fetch, decided, place_of, party_acted, marks_after, published_after, stamped, written};
ghost use Rattle.steps.specs.Ready.{Ready, ReadyAt};

use sheet::rows::{self, Row};
use sheet::sizes::{MOST_PARTIES, MOST_UNITS};
use state::{CELLS, Mark, Party, Place, Status};

// A party at its act: how many parties there are, its number, and its entries before the act.
#[derive(Clone, Copy)]
struct Actor {
    parties: u8,
    number: u8,
    party: Party,
    ghost few: { parties ≤ most_parties },
    ghost number_most: { number ≤ parties },
    ghost round_most: { party.round ≤ parties },
    ghost scan_most: { party.k ≤ parties },
    ghost candidate_least: { 1 ≤ party.candidate },
    ghost candidate_most: { party.candidate ≤ parties },
    ghost steps_most: { party.steps ≤ most_steps },
}

// One mark in all units of a row's set.
fn mark_set(marks: &mut [u8; MOST_UNITS], row: Row, mark: u8)
    requires { (u : ℕ) → T (writes row u) → u < most_units }
    ensures { marks.new ≡ stamped (writes row) mark 0 marks.old }
{
    let Row { start, mask, .. } = row;
    for j in 0..64 {
        if (mask >> j) % 2 == 1 {
            marks[start as usize + j] = mark;
        }
    }
}

impl Actor {
    // The party runs on, one own step later.
    fn go_to(self, place: u8, round: u8, k: u8, candidate: u8) -> Party
        ensures { result ≡ counted (goes self.party place round k candidate) }
    {
        Party {
            status: Status::RUNNING,
            place,
            round,
            k,
            candidate,
            steps: self.party.steps + 1,
            ..self.party
        }
    }

    // A round is won: the next one, or the decision.
    #[tactic(auto, unfolding(steps::specs::Step::won))]
    fn win(self, round: u8, candidate: u8) -> Party
        ensures { result ≡ counted (won self.parties self.party round candidate) }
    {
        if round < self.parties {
            self.go_to(Place::PUBLISH, round + 1, 0, candidate)
        } else {
            self.go_to(Place::DECIDE, 0, 0, candidate)
        }
    }

    // Next k, or after k = r - 1 the top wins.
    #[tactic(auto, unfolding(steps::specs::Step::next_k))]
    fn next_k(self) -> Party
        ensures { result ≡ counted (next_k self.parties self.party) }
    {
        let k = self.party.k + 1;
        let round = self.party.round;
        if k < round {
            self.go_to(Place::READ_OWN, round, k, self.party.candidate)
        } else {
            self.win(round, round)
        }
    }

    // The lowers win: a lower goes on, the top fetches first.
    #[tactic(auto, unfolding(steps::specs::Step::lowers_win))]
    fn lowers_win(self) -> Party
        ensures { result ≡ counted (lowers_win self.parties self.number self.party) }
    {
        let round = self.party.round;
        if self.number < round {
            self.win(round, self.party.candidate)
        } else {
            self.go_to(Place::FETCH, round, self.party.k, self.party.candidate)
        }
    }

    fn announce(self) -> Party
        ensures { result ≡ counted (announced self.parties self.number self.party) }
    {
        let candidate = self.party.candidate;
        if self.parties == 1 {
            self.go_to(Place::DECIDE, 0, 0, candidate)
        } else if self.number == 1 {
            self.go_to(Place::PUBLISH, 2, 0, candidate)
        } else {
            self.go_to(Place::WRITE, self.number, 0, candidate)
        }
    }

    fn publish(self, published: &mut [u8; CELLS]) -> Party
        ensures after { result ≡ counted (after_publish self.party) }
        ensures stored { published.new ≡ set published.old (cell self.party.round self.number) self.party.candidate }
    {
        let at = state::cell_of(self.party.round, self.number);
        published[at] = self.party.candidate;
        self.go_to(Place::WRITE, self.party.round, 0, self.party.candidate)
    }

    // A party's row of the round. What `ReadyAt` asks is no fact of who acts: each act asks for another party's row.
    fn row(self, sheet: &[u8], party: u8) -> Row
        requires { ReadyAt sheet.now party self.party }
        ensures row { result ≡ (layout_of sheet.now).row (slot self.party.round party) }
        ensures own_inside { result.own < most_units }
        ensures pair_inside { party < self.party.round → result.pair < most_units }
        ensures set_inside { (u : ℕ) → T (writes result u) → u < most_units }
    {
        rows::row_of(sheet, self.party.round as usize, party as usize)
    }

    // The mark that the party writes in its round.
    fn mark(self) -> u8
        ensures { result ≡ cond (eqb self.number self.party.round) 2 1 }
    {
        if self.number == self.party.round {
            Mark::HIGHER
        } else {
            Mark::LOWER
        }
    }

    fn write(self, sheet: &[u8], marks: &mut [u8; MOST_UNITS]) -> Party
        requires { ReadyAt sheet.now self.number self.party }
        ensures after { result ≡ counted (after_write self.number self.party) }
        ensures marked { marks.new ≡ written (layout_of sheet.now) self.number self.party marks.old }
    {
        let round = self.party.round;
        mark_set(marks, self.row(sheet, self.number), self.mark());
        if self.number == round {
            self.go_to(Place::READ_OWN, round, 1, self.party.candidate)
        } else {
            self.go_to(Place::READ_TOP, round, 0, self.party.candidate)
        }
    }

    fn read_top(self, sheet: &[u8], marks: &[u8; MOST_UNITS]) -> Party
        requires { ReadyAt sheet.now self.party.round self.party }
        ensures { result ≡ counted (after_top self.parties self.number (mark_at marks.now ((layout_of sheet.now).row (slot self.party.round self.party.round)).own) self.party) }
    {
        let round = self.party.round;
        let top = self.row(sheet, round).own as usize;
        if marks[top] == Mark::EMPTY {
            self.lowers_win()
        } else {
            self.go_to(Place::READ_OWN, round, 1, self.party.candidate)
        }
    }

    fn read_own(self, sheet: &[u8], marks: &[u8; MOST_UNITS]) -> Party
        requires { ReadyAt sheet.now self.party.k self.party }
        ensures { result ≡ counted (after_own self.parties (mark_at marks.now ((layout_of sheet.now).row (slot self.party.round self.party.k)).own) self.party) }
    {
        let k = self.party.k;
        let row = self.row(sheet, k);
        let own = row.own as usize;
        if marks[own] == Mark::EMPTY {
            self.next_k()
        } else {
            self.go_to(Place::READ_PAIR, self.party.round, k, self.party.candidate)
        }
    }

    fn read_pair(self, sheet: &[u8], marks: &[u8; MOST_UNITS]) -> Party
        requires row { ReadyAt sheet.now self.party.k self.party }
        requires lower { self.party.k < self.party.round }
        ensures { result ≡ counted (after_pair self.parties self.number (mark_at marks.now ((layout_of sheet.now).row (slot self.party.round self.party.k)).pair) self.party) }
    {
        let row = self.row(sheet, self.party.k);
        let pair = row.pair as usize;
        if marks[pair] == Mark::HIGHER {
            self.lowers_win()
        } else {
            self.next_k()
        }
    }

    fn fetch(self, published: &[u8; CELLS]) -> Party
        ensures { result ≡ counted (after_fetch self.parties (get_or published.now (cell self.party.round self.party.k) 0) self.party) }
    {
        let at = state::cell_of(self.party.round, self.party.k);
        self.win(self.party.round, published[at])
    }

    fn decide(self, proposals: &[u32; MOST_PARTIES]) -> Party
        ensures { result ≡ counted (decided (get_or proposals.now (self.party.candidate - 1) 0) self.party) }
    {
        let at = self.party.candidate as usize - 1;
        Party {
            status: Status::DECIDED,
            place: Place::DONE,
            round: 0,
            k: 0,
            steps: self.party.steps + 1,
            decision: proposals[at],
            ..self.party
        }
    }
}

// The act of party i, which is p and live, by its place.
// The lent memory stays four parameters: each act takes the part that it reads or writes, and only this function takes all.
#[tactic(auto, unfolding(steps::specs::Step::seen, steps::specs::Step::party_after, steps::specs::Step::marks_after, steps::specs::Step::published_after))]
pub(crate) fn act(
    sheet: &[u8],
    proposals: &[u32; MOST_PARTIES],
    marks: &mut [u8; MOST_UNITS],
    published: &mut [u8; CELLS],
    p: Party,
    i: u8,
    n: u8,
) -> Party
    requires { Ready sheet.now published.old i p n }
    ensures { (result ≡ counted (party_acted (layout_of sheet.now) proposals.now marks.old published.old i p (place_of p.place))) × ((marks.new ≡ marks_after (layout_of sheet.now) i p marks.old (place_of p.place)) × (published.new ≡ published_after i p published.old (place_of p.place))) }
{
    let actor = Actor {
        parties: n,
        number: i,
        party: p,
    };
    // By the number, as document 01 asks: an entry may hold any, and `well_formed` is what excludes it.
    let place = p.place;
    match place {
        Place::ANNOUNCE => actor.announce(),
        Place::PUBLISH => actor.publish(published),
        Place::WRITE => actor.write(sheet, marks),
        Place::READ_TOP => actor.read_top(sheet, marks),
        Place::READ_OWN => actor.read_own(sheet, marks),
        Place::READ_PAIR => actor.read_pair(sheet, marks),
        Place::FETCH => actor.fetch(published),
        Place::DECIDE => actor.decide(proposals),
        _ => p,
    }
}
