// An agreement of three parties, by the calls that are lent a session: a line for each call, and for each party in the end.
#![tactic(auto)]

mod told;

ghost use Rattle.std.specs.Prelude.{◌≡◌};
ghost use Rattle.steps.specs.Trace.{call, called};

use sheet::sizes::{HEADER_LENGTH, ROW_LENGTH};
use state::{Session, opening};
use std::io;
use told::{Line, Lines, Told};

// How many parties there are, and their sheet.
const PARTIES: u32 = 3;

const SHEET: usize = HEADER_LENGTH + 5 * ROW_LENGTH;

// A call as a schedule's byte says it, by the byte's range, as document 01 asks: byte i is a step of party i, byte 128 + i its stop.
fn call_by(lines: &mut Lines, s: Session, b: u8) -> Session
    ensures { result ≡ call s b }
{
    let (name, party, word, after) = match b {
        0..=127 => ("step", b, " at ", calls::step_on(s, b as u32)),
        _ => ("stop", b - 128, " now ", calls::stop_on(s, b as u32 - 128)),
    };
    let reply = after.reply;
    let told = Told { word, reply };
    lines.line(format_args!("{name} {party}{told}"));
    after.session
}

// The calls of a schedule, one after the other.
fn call_all(lines: &mut Lines, s: Session, schedule: &[u8]) -> Session
    ensures { result ≡ called s schedule.now }
{
    let mut t = s;
    for &b in schedule {
        t = call_by(lines, t, b);
    }
    t
}

// How many parties are live.
fn live(lines: &mut Lines, s: Session) {
    let reply = calls::live_on(s);
    lines.line(Told {
        word: "live ",
        reply,
    });
}

// Party 3 has written in its round when party 2 is stopped. Then 1 and 3 go on until they have decided, and one step more of 1 changes nothing.
fn main(rt: HostRuntime) -> io::Result<()> {
    let mut lines = Lines::new(rt);
    let mut sheet = [0u8; SHEET];
    let _ = builder::build(1, 5, PARTIES, &mut sheet);
    let opened = opening::open_value(&sheet, &[500, 600, 700]).unwrap_or_else(|_| Session::blank());
    let first = call_all(&mut lines, opened, &[1, 1, 2, 3, 3, 130]);
    live(&mut lines, first);
    let last = call_all(
        &mut lines,
        first,
        &[1, 1, 1, 1, 1, 1, 1, 1, 1, 1, 3, 3, 3, 3],
    );
    live(&mut lines, last);
    for (number, &party) in (1..=PARTIES).zip(&last.parties) {
        lines.line(Line { number, party });
    }
    lines.outcome()
}
