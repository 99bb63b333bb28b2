// The calls on a session by value. Step and stop stay two functions, as document 01 names them: one that takes the call as a closure would be no shorter.
ghost use Rattle.std.specs.Prelude.{◌≡◌};
ghost use Rattle.steps.specs.Calls.{told_of, step_told, stepped, stop_told, stopped, live_told};

use crate::stopping;
use answers::Refusal;
use session::stepping;
use state::Session;

// A session after a call, and its answer.
#[derive(Drop)]
pub struct After {
    pub session: Session,
    pub reply: Result<u8, Refusal>,
}

// A step of party `party`: the place acted on, or 8 where nothing changes.
pub fn step_value(s: Session, party: u32) -> After
    ensures { (result.session ≡ stepped s party) × (told_of result.reply ≡ step_told s party) }
{
    let mut session = s;
    let reply = stepping::step_in(&mut session, party);
    After { session, reply }
}

// A stop of party `party`: its status afterwards.
pub fn stop_value(s: Session, party: u32) -> After
    ensures { (result.session ≡ stopped s party) × (told_of result.reply ≡ stop_told s party) }
{
    let mut session = s;
    let reply = stopping::stop_in(&mut session, party);
    After { session, reply }
}

// How many parties are live.
pub fn live_value(s: Session) -> Result<u8, Refusal>
    ensures { told_of result ≡ live_told s }
{
    stopping::live_in(&s)
}
