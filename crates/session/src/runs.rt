// The run of a whole schedule.
ghost use Rattle.std.specs.Prelude.{◌≡◌, ◌+◌, ◌≤◌, length, T, MatchOption};
ghost use Rattle.sheet.specs.Sizes.{most_parties};
ghost use Rattle.sheet.specs.Rows.{parties_of};
ghost use Rattle.sheet.specs.Lists.{all, first_bad};
ghost use Rattle.rules.specs.Words.{Rules6};
ghost use Rattle.answers.specs.Answers.{answer_of};
ghost use Rattle.steps.specs.Run.{byte_ok, ran, run_answer, run_out};

use crate::{act, stepping};
use answers::Refusal;
use sheet::sizes::{MOST_PARTIES, MOST_UNITS, PARTIES_AT};
use state::{CELLS, Party, Status, opening};

// Whether a schedule byte is a step or a stop of one of n parties, by its party alone: no branch on which of the two it is. n is an accepted sheet's, so at most 16.
fn byte_ok(n: u8, b: u8) -> bool
    requires { n ≤ most_parties }
    ensures { result ≡ byte_ok n b }
{
    (1..=n).contains(&(b % 128))
}

// The first bad byte, counted from 0: one pass with no early exit tells whether there is one, and only then is it looked for.
fn first_bad_byte(schedule: &[u8], n: u8) -> Option<usize>
    requires { n ≤ most_parties }
    ensures { MatchOption result (first_bad (byte_ok n) 1 schedule.now ≡ 0) (λ k. first_bad (byte_ok n) 1 schedule.now ≡ k + 1) }
{
    if schedule.iter().fold(false, |bad, b| bad | !byte_ok(n, *b)) {
        schedule.iter().position(|b| !byte_ok(n, *b))
    } else {
        None
    }
}

// Obeys a schedule of good bytes on an accepted sheet, from a fresh session: the parties at the end.
fn obey(sheet: &[u8], proposals: &[u32], schedule: &[u8], n: u8) -> [Party; MOST_PARTIES]
    requires { (Rules6 sheet.now) × (n ≡ parties_of sheet.now) × (length proposals.now ≡ n) × (T (all (byte_ok n) schedule.now)) }
    ensures { result ≡ (ran sheet.now proposals.now schedule.now).parties }
{
    let kept = opening::proposals_copy(proposals);
    let mut parties = opening::fresh_parties(n);
    let mut marks = [0u8; MOST_UNITS];
    let mut published = [0u8; CELLS];
    // A step or a stop by the range of its byte, as document 01 asks.
    for &b in schedule {
        let i = b % 128;
        let at = i as usize - 1;
        let p = parties[at];
        if p.status < Status::DECIDED {
            parties[at] = match b {
                0..=127 => act::act(sheet, &kept, &mut marks, &mut published, p, i, n),
                _ => stepping::stop_party(p),
            };
        }
    }
    parties
}

// Opens a session, obeys each byte in turn and writes the record; bytes past it keep their content, and a refusal changes nothing.
pub fn run(sheet: &[u8], proposals: &[u32], schedule: &[u8], out: &mut [u8]) -> Result<(), Refusal>
    ensures result_value { answer_of result ≡ run_answer sheet.now proposals.now schedule.now (length out.old) }
    ensures out_after { out.new ≡ run_out sheet.now proposals.now schedule.now out.old }
{
    opening::opens(sheet, proposals)?;
    let n = sheet[PARTIES_AT];
    if let Some(at) = first_bad_byte(schedule, n) {
        return Err(Refusal::Schedule(at));
    }
    if out.len() < record::record_length(n) {
        return Err(Refusal::Output);
    }
    let parties = obey(sheet, proposals, schedule, n);
    record::put_record(out, n, parties);
    Ok(())
}
