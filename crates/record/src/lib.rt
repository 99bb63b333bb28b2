// The record of a run, written into bytes that are lent.
#![tactic(auto)]

ghost use Rattle.std.specs.Prelude.{◌≡◌, ◌++◌, ◌&&◌, cond, ◌≤◌, leb, length, drop};
ghost use Rattle.sheet.specs.Sizes.{most_parties};
ghost use Rattle.record.specs.Record.{head_length, party_length, party_record, record_length, record_head, record_bytes};

use sheet::sizes::MOST_PARTIES;
use state::Party;

// ---- how long a record's parts are, and where its fields stand

pub const HEAD_LENGTH: usize = 4;

const VERSION_AT: usize = 2;

pub const PARTIES_AT: usize = 3;

// The one version of a record.
const VERSION: u8 = 1;

pub const PARTY_LENGTH: usize = 7;

// From the first of a party's bytes, its status.
pub const STEPS_AT: usize = 1;

pub const DECISION_AT: usize = 3;

// How many bytes the record of n parties takes.
pub fn record_length(n: u8) -> usize
    ensures { result ≡ record_length n }
{
    HEAD_LENGTH + PARTY_LENGTH * usize::from(n)
}

// The record's first four bytes. That n is at most 16 is tested once, by `put_record`.
fn put_head(o: &mut [u8], n: u8)
    requires { (n ≤ most_parties) × (head_length ≤ length o.old) }
    ensures { o.new ≡ record_head n ++ drop head_length o.old }
{
    let len = record_length(n) as u16;
    o[..VERSION_AT].copy_from_slice(&len.to_be_bytes());
    o[VERSION_AT] = VERSION;
    o[PARTIES_AT] = n;
}

// A party's seven bytes, at the start of what is lent. A session's entry has eleven, and these at other places.
fn put_party(o: &mut [u8], p: Party)
    requires { party_length ≤ length o.old }
    ensures { o.new ≡ party_record p ++ drop party_length o.old }
{
    o[0] = p.status;
    o[STEPS_AT..DECISION_AT].copy_from_slice(&p.steps.to_be_bytes());
    o[DECISION_AT..PARTY_LENGTH].copy_from_slice(&p.decision.to_be_bytes());
}

// The record of the first n of a session's 16 entries; the bytes past it stay.
fn put_whole(out: &mut [u8], n: u8, parties: [Party; MOST_PARTIES])
    requires { (n ≤ most_parties) × (record_length n ≤ length out.old) }
    ensures { out.new ≡ record_bytes n parties ++ drop (record_length n) out.old }
{
    put_head(out, n);
    for (p, party) in parties[..usize::from(n)].iter().enumerate() {
        put_party(&mut out[HEAD_LENGTH + PARTY_LENGTH * p..], *party);
    }
}

// Writes the record of the first n parties, where n is at most 16 and it fits; the bytes past it stay, and else all stay.
pub fn put_record(out: &mut [u8], n: u8, parties: [Party; MOST_PARTIES])
    ensures { out.new ≡ cond (leb n most_parties && leb (record_length n) (length out.old))
        (record_bytes n parties ++ drop (record_length n) out.old)
        out.old }
{
    if usize::from(n) <= MOST_PARTIES && record_length(n) <= out.len() {
        put_whole(out, n, parties);
    }
}
