// The calls: stop and live on a session that is lent, and the forms of step, stop and live, lent and by value. Document 01 names the forms: step and stop by `&mut Session`,
// thin over those on values.
#![tactic(auto)]

pub mod stopping;
pub mod values;

ghost use Rattle.std.specs.Prelude.{◌≡◌};
ghost use Rattle.steps.specs.Calls.{told_of, step_told, stepped, stop_told, stopped, live_told};

use answers::Refusal;
use state::Session;
use values::After;

// A step of a session that is lent: the place acted on, or 8 where nothing changes.
pub fn step(s: &mut Session, party: u32) -> Result<u8, Refusal>
    ensures { (s.new ≡ stepped s.old party) × (told_of result ≡ step_told s.old party) }
{
    let v = values::step_value(*s, party);
    *s = v.session;
    v.reply
}

// A stop of a party of a session that is lent: its status afterwards.
pub fn stop(s: &mut Session, party: u32) -> Result<u8, Refusal>
    ensures { (s.new ≡ stopped s.old party) × (told_of result ≡ stop_told s.old party) }
{
    let v = values::stop_value(*s, party);
    *s = v.session;
    v.reply
}

// How many parties of a session that is lent are live.
pub fn live(s: &Session) -> Result<u8, Refusal>
    ensures { told_of result ≡ live_told s.now }
{
    values::live_value(*s)
}

// A session by value, lent to `step`.
pub fn step_on(s: Session, party: u32) -> After
    ensures { (result.session ≡ stepped s party) × (told_of result.reply ≡ step_told s party) }
{
    let mut t = s;
    let reply = step(&mut t, party);
    After { session: t, reply }
}

// A session by value, lent to `stop`.
pub fn stop_on(s: Session, party: u32) -> After
    ensures { (result.session ≡ stopped s party) × (told_of result.reply ≡ stop_told s party) }
{
    let mut t = s;
    let reply = stop(&mut t, party);
    After { session: t, reply }
}

// A session by value, lent to `live`.
pub fn live_on(s: Session) -> Result<u8, Refusal>
    ensures { told_of result ≡ live_told s }
{
    live(&s)
}
