// The calls on bytes that are lent: a session is read out of them, and what a call changes is written back.
ghost use Rattle.std.specs.Prelude.{◌≡◌, ◌≢◌, ◌<◌, length, IfErr, OnOk};
ghost use Rattle.answers.specs.Answers.{answer_of};
ghost use Rattle.answers.specs.declared.Refusal.TheVariants as Refusal;
ghost use Rattle.steps.specs.Calls.{told_of};
ghost use Rattle.steps.specs.Run.{run_answer};
ghost use Rattle.image.specs.Sizes.{session_length};
ghost use Rattle.host.specs.Calls.{host_open, open_bytes, host_step, step_bytes, host_stop, stop_bytes, host_live, last_index, heard, host_run, run_bytes};

use answers::Refusal;
use calls::stopping;
use image::{SESSION_LENGTH, proposals};
use session::{runs, stepping};
use sheet::sizes::PARTIES_AT;
use state::{Session, opening};

// The last index that an answer has room for; a schedule's byte there is bad.
const LAST_INDEX: usize = 4294967295;

// Opens a session on a sheet, with a proposal of 4 bytes for each party.
pub(crate) fn open(sheet: &[u8], proposals: &[u8], session: &mut [u8]) -> Result<(), Refusal>
    ensures answer { answer_of result ≡ host_open sheet.now proposals.now (length session.old) }
    ensures session_after { session.new ≡ open_bytes sheet.now proposals.now session.old }
{
    let given = proposals::proposals_from(proposals);
    opening::opens(sheet, given.as_slice())?;
    if session.len() != SESSION_LENGTH {
        return Err(Refusal::Output);
    }
    let parties = opening::fresh_parties(sheet[PARTIES_AT]);
    image::write_fresh(sheet, given.numbers, parties, session);
    Ok(())
}

// 9 where the bytes are of another length than a session's: asked before there is a session to read them into.
fn sized(bytes: &[u8]) -> Result<(), Refusal>
    ensures refused { IfErr result (λ r. (r ≡ Refusal.Session) × (length bytes.now ≢ session_length)) }
    ensures length { OnOk result (length bytes.now ≡ session_length) }
{
    if bytes.len() != SESSION_LENGTH {
        return Err(Refusal::Session);
    }
    Ok(())
}

// A step of a party: the place acted on, or 8 where nothing changes.
pub(crate) fn step(session: &mut [u8], party: u32) -> Result<u8, Refusal>
    ensures reply { told_of result ≡ host_step session.old party }
    ensures session_after { session.new ≡ step_bytes session.old party }
{
    sized(session)?;
    let mut s = Session::blank();
    image::read(session, &mut s);
    let place = stepping::step_in(&mut s, party)?;
    image::write_acted(&s, session);
    Ok(place)
}

// A stop of a party: its status afterwards.
pub(crate) fn stop(session: &mut [u8], party: u32) -> Result<u8, Refusal>
    ensures reply { told_of result ≡ host_stop session.old party }
    ensures session_after { session.new ≡ stop_bytes session.old party }
{
    sized(session)?;
    let mut s = Session::blank();
    image::read(session, &mut s);
    let status = stopping::stop_in(&mut s, party)?;
    image::write_parties(&s, session);
    Ok(status)
}

// How many parties are live.
pub(crate) fn live(session: &[u8]) -> Result<u8, Refusal>
    ensures { told_of result ≡ host_live session.now }
{
    sized(session)?;
    let mut s = Session::blank();
    image::read(session, &mut s);
    stopping::live_in(&s)
}

// A schedule that has a byte at the last index: never obeyed, so it is run as far as that byte with no room for a record.
fn run_long(sheet: &[u8], proposals: &[u32], schedule: &[u8]) -> Result<(), Refusal>
    requires { last_index < length schedule.now }
    ensures { answer_of result ≡ run_answer sheet.now proposals.now (heard schedule.now) 0 }
{
    let mut none = [0u8; 1];
    // In two steps: with one pattern for both, the arm for the rest does not know that it is not this refusal.
    match runs::run(sheet, proposals, &schedule[..LAST_INDEX], &mut none) {
        Ok(()) => Ok(()),
        Err(refusal) => match refusal {
            Refusal::Output => Err(Refusal::Schedule(LAST_INDEX)),
            _ => Err(refusal),
        },
    }
}

// Runs a schedule and writes its record.
pub(crate) fn run(
    sheet: &[u8],
    proposals: &[u8],
    schedule: &[u8],
    out: &mut [u8],
) -> Result<(), Refusal>
    ensures answer { answer_of result ≡ host_run sheet.now proposals.now schedule.now (length out.old) }
    ensures out_after { out.new ≡ run_bytes sheet.now proposals.now schedule.now out.old }
{
    let given = proposals::proposals_from(proposals);
    if LAST_INDEX < schedule.len() {
        return run_long(sheet, given.as_slice(), schedule);
    }
    runs::run(sheet, given.as_slice(), schedule, out)
}
