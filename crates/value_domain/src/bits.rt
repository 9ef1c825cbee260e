//! Known bits.

ghost use Rattle.std.specs.Prelude.{◌≡◌, ◌<◌, ◌^◌, Option};
ghost use Rattle.value_domain.specs.Bitmasks.{and_known, or_known, xor_known, bits_joined, bits_below, bits_met};

/// The bits in `mask` are known, and are those of `value`, which is 0 outside the mask.
#[derive(Clone, Copy, Debug, PartialEq, Eq)]
pub struct Bits {
    pub mask: u64,
    pub value: u64,
}

impl Bits {
    /// The bits that are known alike on both sides. Takes no memory.
    pub fn join(self, other: Bits) -> Bits
        ensures { result ≡ bits_joined self other }
    {
        let both = self.mask & other.mask;
        Bits {
            mask: both ^ ((self.value ^ other.value) & both),
            value: self.value & other.value,
        }
    }

    /// The bits that are known on a side; None exactly where a bit is known on both and differs. Takes no memory.
    pub fn meet(self, other: Bits) -> Option<Bits>
        ensures { result ≡ bits_met self other }
    {
        let both = self.mask & other.mask;
        if (self.value ^ other.value) & both == 0 {
            Some(Bits {
                mask: self.mask | other.mask,
                value: self.value | other.value,
            })
        } else {
            None
        }
    }

    pub(crate) fn leq(self, other: Bits) -> bool
        ensures { result ≡ bits_below self other }
    {
        self.mask & other.mask == other.mask && self.value & other.mask == other.value
    }

    pub(crate) fn and(self, other: Bits) -> Bits
        ensures { result ≡ and_known self other }
    {
        Bits {
            mask: (self.mask & other.mask) | (self.mask ^ self.value) | (other.mask ^ other.value),
            value: self.value & other.value,
        }
    }

    pub(crate) fn or(self, other: Bits) -> Bits
        ensures { result ≡ or_known self other }
    {
        Bits {
            mask: (self.mask & other.mask) | self.value | other.value,
            value: self.value | other.value,
        }
    }

    pub(crate) fn xor(self, other: Bits) -> Bits
        ensures { result ≡ xor_known self other }
    {
        let both = self.mask & other.mask;
        Bits {
            mask: both,
            value: (self.value ^ other.value) & both,
        }
    }
}
