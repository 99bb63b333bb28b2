// The calls for a host in C: numbers and byte slices, and one word as the answer.
#![tactic(auto)]

mod lent;
mod words;

ghost use Rattle.std.specs.Prelude.{◌≡◌, length};
ghost use Rattle.rules.specs.Check.{check_answer};
ghost use Rattle.builder.specs.Build.{build_answer, out_after};
ghost use Rattle.host.specs.Word.{answer_word, told_word};
ghost use Rattle.host.specs.Calls.{host_open, open_bytes, host_step, step_bytes, host_stop, stop_bytes, host_live, host_run, run_bytes};

// Whether a sheet is accepted.
#[unsafe(no_mangle)]
pub extern "C" fn sepalsail_check(sheet: &[u8]) -> u64
    ensures { result ≡ answer_word (check_answer sheet.now) }
{
    words::done(rules::check(sheet))
}

// Writes the sheet for these numbers; bytes past it keep their content, and a refusal changes nothing.
#[unsafe(no_mangle)]
pub extern "C" fn sepalsail_build(kind: u32, bound: u32, parties: u32, out: &mut [u8]) -> u64
    ensures value { result ≡ answer_word (build_answer kind bound parties (length out.old)) }
    ensures out_after { out.new ≡ out_after kind bound parties out.old }
{
    words::done(builder::build(kind, bound, parties, out))
}

// Opens a session on a sheet, with a proposal of 4 bytes for each party, and fills its 3,418 bytes; a refusal changes nothing.
#[unsafe(no_mangle)]
pub extern "C" fn sepalsail_open(sheet: &[u8], proposals: &[u8], session: &mut [u8]) -> u64
    ensures value { result ≡ answer_word (host_open sheet.now proposals.now (length session.old)) }
    ensures session_after { session.new ≡ open_bytes sheet.now proposals.now session.old }
{
    words::done(lent::open(sheet, proposals, session))
}

// A step of a party: the place acted on, or 8 where nothing changes.
#[unsafe(no_mangle)]
pub extern "C" fn sepalsail_step(session: &mut [u8], party: u32) -> u64
    ensures value { result ≡ told_word (host_step session.old party) }
    ensures session_after { session.new ≡ step_bytes session.old party }
{
    words::told(lent::step(session, party))
}

// A stop of a party: its status afterwards.
#[unsafe(no_mangle)]
pub extern "C" fn sepalsail_stop(session: &mut [u8], party: u32) -> u64
    ensures value { result ≡ told_word (host_stop session.old party) }
    ensures session_after { session.new ≡ stop_bytes session.old party }
{
    words::told(lent::stop(session, party))
}

// How many parties are live.
#[unsafe(no_mangle)]
pub extern "C" fn sepalsail_live(session: &[u8]) -> u64
    ensures { result ≡ told_word (host_live session.now) }
{
    words::told(lent::live(session))
}

// Runs a schedule and writes its record; bytes past it keep their content, and a refusal changes nothing.
#[unsafe(no_mangle)]
pub extern "C" fn sepalsail_run(
    sheet: &[u8],
    proposals: &[u8],
    schedule: &[u8],
    out: &mut [u8],
) -> u64
    ensures value { result ≡ answer_word (host_run sheet.now proposals.now schedule.now (length out.old)) }
    ensures out_after { out.new ≡ run_bytes sheet.now proposals.now schedule.now out.old }
{
    words::done(lent::run(sheet, proposals, schedule, out))
}
