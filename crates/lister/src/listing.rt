// The text of a schedule's run: kind 1, B = 3, N = 2, proposals 500 and 600.
ghost use Rattle.std.specs.Prelude.{◌≡◌, ◌++◌, ◌≤◌, length, drop};
ghost use Rattle.lister.specs.Listed.{listed};

use crate::text;
use record::{HEAD_LENGTH, PARTY_LENGTH};
use session::runs;
use sheet::sizes::{HEADER_LENGTH, ROW_LENGTH};

// The sheet of two parties, and the record.
const SHEET: usize = HEADER_LENGTH + 2 * ROW_LENGTH;

const RECORD: usize = HEAD_LENGTH + 2 * PARTY_LENGTH;

// Runs a schedule, and puts the text at the front of out; bytes past it keep their content.
pub(crate) fn list(schedule: &[u8], out: &mut [u8]) -> usize
    requires { 512 ≤ length out.old }
    ensures value { result ≡ length (listed schedule.now) }
    ensures out_after { out.new ≡ listed schedule.now ++ drop (length (listed schedule.now)) out.old }
{
    let mut layout = [0u8; SHEET];
    let _ = builder::build(1, 3, 2, &mut layout);
    let mut bytes = [0u8; RECORD];
    match runs::run(&layout, &[500, 600], schedule, &mut bytes) {
        Ok(()) => text::put_listing(out, &bytes, schedule.len()),
        Err(refusal) => text::put_refused(out, refusal.number(), refusal.position()),
    }
}
