// Write sets: a row's start and mask.
ghost use Rattle.std.specs.Prelude.{◌≡◌, ◌-◌, ◌≤◌, ◌^◌};
ghost use Rattle.sheet.specs.Sets.{in_set, size_varying, inconsecutive, legal, below, apart};
ghost use Rattle.sheet.specs.Length.{bit_length};

use crate::rows::Row;

impl Row {
    // Whether a unit is in the set.
    pub fn has(self, unit: u16) -> bool
        ensures { result ≡ in_set self.start self.mask unit }
    {
        let Row { start, mask, .. } = self;
        if unit < start {
            return false;
        }
        let j = unit - start;
        if 63 < j {
            return false;
        }
        (mask >> j) % 2 == 1
    }

    // How many bits the mask takes, up to its highest.
    pub fn bits(self) -> u32
        ensures value { result ≡ bit_length self.mask }
        ensures upper_bound { result ≤ 64 }
    {
        u64::BITS - self.mask.leading_zeros()
    }

    fn is_size_varying(self, bound: u8) -> bool
        ensures { result ≡ size_varying bound self.start self.mask }
    {
        let Row { start, mask, .. } = self;
        let b = self.bits();
        if b == 0 {
            return false;
        }
        if u32::from(bound) < b {
            return false;
        }
        if mask != ones(b) {
            return false;
        }
        u32::from(start) % b == 0
    }

    fn is_inconsecutive(self, bound: u8) -> bool
        ensures { result ≡ inconsecutive bound self.start self.mask }
    {
        if self.mask == 0 {
            return false;
        }
        if u32::from(bound) < self.bits() {
            return false;
        }
        self.start % u16::from(bound) == 0
    }

    // Whether the set is legal for the kind. Its number, and not a `Kind`: `legal` speaks of each number, and all but 1 are taken as 2.
    pub fn is_legal(self, kind: u8, bound: u8) -> bool
        ensures { result ≡ legal kind bound self.start self.mask }
    {
        if kind == 1 {
            self.is_size_varying(bound)
        } else {
            self.is_inconsecutive(bound)
        }
    }

    // Whether every unit of the set is below the unit count.
    pub fn is_below(self, units: u16) -> bool
        ensures { result ≡ below units self.start self.mask }
    {
        if self.mask == 0 {
            return true;
        }
        u32::from(self.start) + self.bits() <= u32::from(units)
    }

    // Whether the set shares no unit with another.
    pub fn is_apart(self, other: Row) -> bool
        ensures { result ≡ apart self.start self.mask other.start other.mask }
    {
        if self.start <= other.start {
            return clear_of_later(self.mask, other.start - self.start, other.mask);
        }
        clear_of_later(other.mask, self.start - other.start, self.mask)
    }
}

// 2^b - 1, with no shift by 64.
fn ones(b: u32) -> u64
    requires { (1 ≤ b) × (b ≤ 64) }
    ensures { result ≡ 2 ^ b - 1 }
{
    u64::MAX >> (64 - b)
}

// Whether a mask shares no unit with a later one, which starts d units past it: one shift and one `&`.
fn clear_of_later(mask: u64, d: u16, later: u64) -> bool
    ensures { result ≡ apart 0 mask d later }
{
    if 63 < d {
        return true;
    }
    (mask >> d) & later == 0
}
