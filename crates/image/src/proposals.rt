// Proposals in bytes, 4 each.
ghost use Rattle.std.specs.Prelude.{◌≡◌, ◌≤◌, ◌%◌, ◌/◌, ◌&&◌, cond, leb, eqb, length, take, refl};
ghost use Rattle.sheet.specs.Bytes.{num, bytes_of};
ghost use Rattle.sheet.specs.Sizes.{most_parties};
ghost use Rattle.image.specs.Sizes.{proposal_length, proposals_length};
ghost use Rattle.state.specs.Session.{filled};
ghost use Rattle.image.specs.Image.{proposal_count, proposals_in};

use crate::entries::{self, Entry};
use crate::sizes::{PROPOSAL_LENGTH, PROPOSALS_LENGTH};
use sheet::sizes::MOST_PARTIES;

impl Entry for u32 {
    const LENGTH: usize = PROPOSAL_LENGTH;

    ghost LENGTH = { proposal_length };

    ghost image = { bytes_of proposal_length };

    ghost of_bytes = { λ b. num b 0 proposal_length };

    ghost long = { λ _. refl };

    fn read(s: &[u8]) -> u32 {
        u32::from_be_bytes([s[0], s[1], s[2], s[3]])
    }

    fn put(self, o: &mut [u8]) {
        o[..PROPOSAL_LENGTH].copy_from_slice(&self.to_be_bytes());
    }
}

// The proposals that a slice holds, and zeros behind them: an array with a count, as there is no heap.
#[derive(Drop)]
pub struct Proposals {
    pub count: usize,
    pub numbers: [u32; MOST_PARTIES],
    ghost few: { count ≤ most_parties },
}

impl Proposals {
    pub fn as_slice(&self) -> &[u32]
        ensures { result.now ≡ take self.now.count self.now.numbers }
    {
        &self.numbers[..self.count]
    }
}

// How many proposals a slice of this length holds, where it is of a sheet's.
fn proposals_count(len: usize) -> Option<usize>
    ensures { result ≡ cond (leb len proposals_length && eqb (len % proposal_length) 0) (Some (len / proposal_length)) None }
{
    if len <= PROPOSALS_LENGTH && len % PROPOSAL_LENGTH == 0 {
        Some(len / PROPOSAL_LENGTH)
    } else {
        None
    }
}

// The proposals of a slice: as many as it holds, or none where it is of no sheet's length.
#[tactic(auto, using(crate::proofs::Filling::filled_front))]
pub fn proposals_from(s: &[u8]) -> Proposals
    ensures count_value { result.count ≡ proposal_count (length s.now) }
    ensures numbers_value { result.numbers ≡ filled most_parties (proposals_in s.now) }
{
    let count = proposals_count(s.len()).unwrap_or(0);
    let mut numbers = [0; MOST_PARTIES];
    entries::read_all(s, &mut numbers[..count]);
    Proposals { count, numbers }
}
