//! The word of a domain.

ghost use Rattle.std.specs.Prelude.{◌≡◌, Some, IfSome};
ghost use Rattle.um_words.specs.Packed.{FitsDomain, packed_domain, domain_of};

/// What stands in the word of a domain.
#[derive(Clone, Copy)]
pub struct DomWord {
    pub init: bool,
    /// Whether a thread has claimed it to change its partitions.
    pub writer: bool,
    /// How many claims to read keep its partitions as they are, below 128.
    pub readers: u8,
    /// How often its partitions were written, below 2^20.
    pub version: u32,
    /// How many steps the word has taken, below 2^28.
    pub number: u32,
}

impl DomWord {
    /// Its 64 bits, which `unpack` takes apart.
    pub fn pack(&self) -> u64
        requires { FitsDomain self.now }
        ensures value { result ≡ packed_domain self.now }
        ensures back { domain_of result ≡ Some (self.now) }
    {
        let claims = u64::from(self.init)
            + 2 * u64::from(self.writer)
            + 4 * u64::from(self.readers);
        claims + 0x200 * u64::from(self.version) + 0x10_0000_0000 * u64::from(self.number)
    }

    /// Reads a word: `None` if a bit is set that has to be zero.
    pub fn unpack(word: u64) -> Option<DomWord>
        ensures value { result ≡ domain_of word }
        ensures back { IfSome result (λ d. packed_domain d ≡ word) }
        ensures fits { IfSome result FitsDomain }
    {
        if word / 0x2000_0000 % 128 != 0 {
            return None;
        }
        Some(DomWord {
            init: word % 2 == 1,
            writer: word / 2 % 2 == 1,
            readers: (word / 4 % 128) as u8,
            version: (word / 0x200 % 0x10_0000) as u32,
            number: (word / 0x10_0000_0000) as u32,
        })
    }
}
