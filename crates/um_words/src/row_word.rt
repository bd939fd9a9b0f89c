//! The word of a row.

ghost use Rattle.std.specs.Prelude.{◌≡◌, Some};
ghost use Rattle.um_words.specs.Packed.{FitsRow, packed_row, row_of};

use crate::permissions::Permissions;

/// The stage of a row's object: there is none, it stands, it is gone while claims are left, or it is being cleaned.
#[derive(Clone, Copy, PartialEq, Eq)]
pub enum Stage {
    Free,
    Live,
    Dying,
    Cleaning,
}

/// What stands in the word of a row.
#[derive(Clone, Copy)]
pub struct RowWord {
    pub permissions: Permissions,
    pub init: bool,
    pub public: bool,
    pub dynamic: bool,
    pub stage: Stage,
    /// How many claims on the object haven't ended, below 128.
    pub claims: u8,
    /// How many steps the word has taken, below 2^20.
    pub number: u32,
}

impl Stage {
    fn code(self) -> u64
        ensures { result ≡ Rattle.um_words.specs.Packed.stage_code self }
    {
        match self {
            Stage::Free => 0,
            Stage::Live => 1,
            Stage::Dying => 2,
            Stage::Cleaning => 3,
        }
    }

    fn of(code: u64) -> Stage
        ensures { result ≡ Rattle.um_words.specs.Packed.stage_of code }
    {
        match code {
            0 => Stage::Free,
            1 => Stage::Live,
            2 => Stage::Dying,
            _ => Stage::Cleaning,
        }
    }
}

impl RowWord {
    /// Its 64 bits, which `unpack` takes apart.
    pub fn pack(&self) -> u64
        requires { FitsRow self.now }
        ensures value { result ≡ packed_row self.now }
        ensures back { row_of result ≡ self.now }
    {
        let flags = u64::from(self.permissions.bits())
            + 0x1_0000_0000 * u64::from(self.init)
            + 0x2_0000_0000 * u64::from(self.public)
            + 0x4_0000_0000 * u64::from(self.dynamic);
        let counts = flags
            + 0x8_0000_0000 * self.stage.code()
            + 0x20_0000_0000 * u64::from(self.claims);
        counts + 0x1000_0000_0000 * u64::from(self.number)
    }

    /// Reads a word. Each bit has a meaning, so every word can be read.
    pub fn read(word: u64) -> RowWord
        ensures value { result ≡ row_of word }
        ensures back { packed_row result ≡ word }
        ensures fits { FitsRow result }
    {
        RowWord {
            permissions: Permissions::from_bits((word % 0x1_0000_0000) as u32),
            init: word / 0x1_0000_0000 % 2 == 1,
            public: word / 0x2_0000_0000 % 2 == 1,
            dynamic: word / 0x4_0000_0000 % 2 == 1,
            stage: Stage::of(word / 0x8_0000_0000 % 4),
            claims: (word / 0x20_0000_0000 % 128) as u8,
            number: (word / 0x1000_0000_0000) as u32,
        }
    }

    /// The same, with the signature that all words have.
    pub fn unpack(word: u64) -> Option<RowWord>
        ensures { result ≡ Some (row_of word) }
    {
        Some(RowWord::read(word))
    }
}
