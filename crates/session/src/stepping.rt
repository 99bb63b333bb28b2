// A step of a session that is lent, why a call for a party is refused, and what a stop makes of a party.
ghost use Rattle.std.specs.Prelude.{◌≡◌, cond, eqb, OnOk};
ghost use Rattle.sheet.specs.Lists.{within};
ghost use Rattle.steps.specs.Step.{stopped_party};
ghost use Rattle.steps.specs.Ready.{Past};
ghost use Rattle.steps.specs.Calls.{told_by, told_of, unless_refused, step_told, stepped};

use crate::act;
use answers::Refusal;
use sheet::sizes::PARTIES_AT;
use state::{Party, Place, Session, Status, wellformed};

fn is_party(n: u8, party: u32) -> bool
    ensures { result ≡ within 1 n party }
{
    (1..=u32::from(n)).contains(&party)
}

// Why a call for a party is refused: 9, then 10.
pub fn asked(s: &Session, party: u32) -> Result<(), Refusal>
    ensures refused { told_by (λ _. 0) result ≡ unless_refused s.now party 0 }
    ensures past { OnOk result (Past s.now party) }
{
    if !s.is_well_formed() {
        return Err(Refusal::Session);
    }
    if !is_party(s.sheet[PARTIES_AT], party) {
        return Err(Refusal::Party);
    }
    Ok(())
}

// A step of party `party`: the place acted on, or 8 where nothing changes. What it shares with a stop is `asked` and the index of the party's entry.
pub fn step_in(s: &mut Session, party: u32) -> Result<u8, Refusal>
    ensures session_after { s.new ≡ stepped s.old party }
    ensures reply_value { told_of result ≡ step_told s.old party }
{
    asked(s, party)?;
    let at = party as usize - 1;
    let p = s.parties[at];
    if Status::DECIDED <= p.status {
        return Ok(Place::DONE);
    }
    let n = s.sheet[PARTIES_AT];
    let sheet = &s.sheet[..wellformed::carried_length(&s.sheet)];
    s.parties[at] = act::act(
        sheet,
        &s.proposals,
        &mut s.marks,
        &mut s.published,
        p,
        party as u8,
        n,
    );
    Ok(p.place)
}

// A party that has decided stays so; any other is stopped.
fn status_after(status: u8) -> u8
    ensures { result ≡ cond (eqb status 2) 2 3 }
{
    if status == Status::DECIDED {
        Status::DECIDED
    } else {
        Status::STOPPED
    }
}

// What a stop makes of a party.
pub fn stop_party(p: Party) -> Party
    ensures { result ≡ stopped_party p }
{
    Party {
        status: status_after(p.status),
        ..p
    }
}
