// The text of a run, written into a lent buffer.
ghost use Rattle.std.specs.Prelude.{◌≡◌, [], ◌∷◌, ◌++◌, ◌+◌, ◌≤◌, length, drop};
ghost use Rattle.sheet.specs.Bytes.{num};
ghost use Rattle.sheet.specs.Sizes.{most_parties};
ghost use Rattle.record.specs.Record.{record_length, party_length, parties_in, steps_at, decision_at};
ghost use Rattle.lister.specs.Text.{newline, space, status_word, decimal, counts_line, decision_word, party_line};
ghost use Rattle.lister.specs.Text.{record_line, listing, refused_text, Put};

use record::{DECISION_AT, HEAD_LENGTH, PARTIES_AT, PARTY_LENGTH, STEPS_AT};
use state::Status;

// Puts a word at a place; answers the place behind it.
fn put_word(out: &mut [u8], at: usize, word: &[u8]) -> usize
    requires { at + length word.now ≤ length out.old }
    ensures { Put out.old at word.now out.new result }
{
    let next = at + word.len();
    out[at..next].copy_from_slice(word);
    next
}

// Puts a number's decimal digits: all but the last, and the last behind them.
fn put_decimal(out: &mut [u8], at: usize, n: usize) -> usize
    requires { at + length (decimal n) ≤ length out.old }
    ensures { Put out.old at (decimal n) out.new result }
{
    if n < 10 {
        out[at] = b'0' + n as u8;
        return at + 1;
    }
    let next = put_decimal(out, at, n / 10);
    out[next] = b'0' + (n % 10) as u8;
    next + 1
}

// Puts a number and one byte behind it.
fn put_number(out: &mut [u8], at: usize, n: usize, end: u8) -> usize
    requires { at + length (decimal n ++ (end ∷ [])) ≤ length out.old }
    ensures { Put out.old at (decimal n ++ (end ∷ [])) out.new result }
{
    let next = put_decimal(out, at, n);
    out[next] = end;
    next + 1
}

// Puts a status word and a space.
fn put_status(out: &mut [u8], at: usize, status: u8) -> usize
    requires { at + length (status_word status ++ space) ≤ length out.old }
    ensures { Put out.old at (status_word status ++ space) out.new result }
{
    match status {
        Status::IDLE => put_word(out, at, b"idle "),
        Status::RUNNING => put_word(out, at, b"running "),
        Status::DECIDED => put_word(out, at, b"decided "),
        _ => put_word(out, at, b"stopped "),
    }
}

// Puts the decision of a party that has decided, or a dash, and ends the line.
fn put_decision(out: &mut [u8], at: usize, status: u8, decision: u32) -> usize
    requires { at + length (decision_word status decision ++ newline) ≤ length out.old }
    ensures { Put out.old at (decision_word status decision ++ newline) out.new result }
{
    if status == Status::DECIDED {
        put_number(out, at, decision as usize, b'\n')
    } else {
        put_word(out, at, b"-\n")
    }
}

// A line of two words, each with a number behind it, at the front of out.
fn put_counts(out: &mut [u8], v: &[u8], x: usize, w: &[u8], y: usize) -> usize
    requires { length (counts_line v.now x w.now y) ≤ length out.old }
    ensures { Put out.old 0 (counts_line v.now x w.now y) out.new result }
{
    let a = put_word(out, 0, v);
    let b = put_decimal(out, a, x);
    let c = put_word(out, b, w);
    put_number(out, c, y, b'\n')
}

// A party's line.
fn put_line(out: &mut [u8], at: usize, party: usize, status: u8, steps: u16, decision: u32) -> usize
    requires { at + length (party_line party status steps decision) ≤ length out.old }
    ensures { Put out.old at (party_line party status steps decision) out.new result }
{
    let a = put_number(out, at, party, b' ');
    let b = put_status(out, a, status);
    let c = put_number(out, b, usize::from(steps), b' ');
    put_decision(out, c, status, decision)
}

// The own steps of the party whose bytes stand at a place.
fn steps_from(bytes: &[u8], place: usize) -> u16
    requires { place + party_length ≤ length bytes.now }
    ensures { result ≡ num bytes.now (place + steps_at) 2 }
{
    let at = place + STEPS_AT;
    u16::from_be_bytes([bytes[at], bytes[at + 1]])
}

// Its decision.
fn decision_from(bytes: &[u8], place: usize) -> u32
    requires { place + party_length ≤ length bytes.now }
    ensures { result ≡ num bytes.now (place + decision_at) 4 }
{
    let at = place + DECISION_AT;
    u32::from_be_bytes([bytes[at], bytes[at + 1], bytes[at + 2], bytes[at + 3]])
}

// The line of the party after k others.
fn put_party(out: &mut [u8], at: usize, bytes: &[u8], k: usize) -> usize
    requires { (record_length (k + 1) ≤ length bytes.now) × (at + length (record_line bytes.now k) ≤ length out.old) }
    ensures { Put out.old at (record_line bytes.now k) out.new result }
{
    let place = HEAD_LENGTH + PARTY_LENGTH * k;
    let status = bytes[place];
    let steps = steps_from(bytes, place);
    let decision = decision_from(bytes, place);
    put_line(out, at, k + 1, status, steps, decision)
}

// The text of a record, at the front of out, which has room for 16 parties; bytes past it keep their content.
pub(crate) fn put_listing(out: &mut [u8], bytes: &[u8], entries: usize) -> usize
    requires { (parties_in bytes.now ≤ most_parties) × (record_length (parties_in bytes.now) ≤ length bytes.now) × (512 ≤ length out.old) }
    ensures value { result ≡ length (listing bytes.now entries) }
    ensures out_after { out.new ≡ listing bytes.now entries ++ drop (length (listing bytes.now entries)) out.old }
{
    let n = usize::from(bytes[PARTIES_AT]);
    let mut at = put_counts(out, b"parties ", n, b" entries ", entries);
    for k in 0..n {
        at = put_party(out, at, bytes, k);
    }
    at
}

// The line of a refusal, likewise.
pub(crate) fn put_refused(out: &mut [u8], number: u8, position: usize) -> usize
    requires { 512 ≤ length out.old }
    ensures value { result ≡ length (refused_text number position) }
    ensures out_after { out.new ≡ refused_text number position ++ drop (length (refused_text number position)) out.old }
{
    put_counts(out, b"refused ", usize::from(number), b" at ", position)
}
