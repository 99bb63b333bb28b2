// Parties in bytes, 11 each.
ghost use Rattle.std.specs.Prelude.{refl};
ghost use Rattle.image.specs.Sizes.{entry_length};
ghost use Rattle.image.specs.Image.{party_image, party_from};

use crate::entries::Entry;
use crate::sizes::ENTRY_LENGTH;
use state::Party;

impl Entry for Party {
    const LENGTH: usize = ENTRY_LENGTH;

    ghost LENGTH = { entry_length };

    ghost image = { party_image };

    ghost of_bytes = { party_from };

    ghost long = { λ _. refl };

    fn read(s: &[u8]) -> Party {
        Party {
            status: s[0],
            place: s[1],
            round: s[2],
            k: s[3],
            candidate: s[4],
            steps: u16::from_be_bytes([s[5], s[6]]),
            decision: u32::from_be_bytes([s[7], s[8], s[9], s[10]]),
        }
    }

    fn put(self, o: &mut [u8]) {
        o[0] = self.status;
        o[1] = self.place;
        o[2] = self.round;
        o[3] = self.k;
        o[4] = self.candidate;
        o[5..7].copy_from_slice(&self.steps.to_be_bytes());
        o[7..11].copy_from_slice(&self.decision.to_be_bytes());
    }
}
