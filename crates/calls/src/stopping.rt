// Stop and live on a session that is lent.
ghost use Rattle.std.specs.Prelude.{◌≡◌, count_by};
ghost use Rattle.steps.specs.Step.{is_live};
ghost use Rattle.steps.specs.Calls.{told_of, stop_told, stopped, live_told};

use answers::Refusal;
use session::stepping;
use sheet::sizes::PARTIES_AT;
use state::{Party, Session, Status};

// A stop of party `party`: its status afterwards. What it shares with a step is `asked` and the index of the party's entry.
pub fn stop_in(s: &mut Session, party: u32) -> Result<u8, Refusal>
    ensures session_after { s.new ≡ stopped s.old party }
    ensures reply_value { told_of result ≡ stop_told s.old party }
{
    stepping::asked(s, party)?;
    let at = party as usize - 1;
    let p = stepping::stop_party(s.parties[at]);
    s.parties[at] = p;
    Ok(p.status)
}

fn count_live(parties: &[Party]) -> usize
    ensures { result ≡ count_by is_live parties.now }
{
    parties
        .iter()
        .filter(|p| p.status < Status::DECIDED)
        .count()
}

// How many parties are live.
pub fn live_in(s: &Session) -> Result<u8, Refusal>
    ensures { told_of result ≡ live_told s.now }
{
    if !s.is_well_formed() {
        return Err(Refusal::Session);
    }
    let n = s.sheet[PARTIES_AT] as usize;
    Ok(count_live(&s.parties[..n]) as u8)
}
