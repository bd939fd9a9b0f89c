//! The word of a cell.

ghost use Rattle.std.specs.Prelude.{◌≡◌, Some};
ghost use Rattle.um_words.specs.Packed.{FitsCell, packed_cell, cell_of};

/// What stands in the word of a cell. Only the scheduler's cell counts threads.
#[derive(Clone, Copy)]
pub struct CellWord {
    /// Whether a seat has the cell's turn.
    pub turn: bool,
    /// How many threads stand in the ready list.
    pub ready: u8,
    /// How many threads processors run.
    pub running: u8,
    /// How many marks are owed, below 2^19.
    pub owed: u32,
    /// How many steps the word has taken, below 2^28.
    pub number: u32,
}

impl CellWord {
    /// Its 64 bits, which `unpack` takes apart.
    pub fn pack(&self) -> u64
        requires { FitsCell self.now }
        ensures value { result ≡ packed_cell self.now }
        ensures back { cell_of result ≡ self.now }
    {
        let threads = u64::from(self.turn)
            + 2 * u64::from(self.ready)
            + 0x200 * u64::from(self.running);
        threads + 0x2_0000 * u64::from(self.owed) + 0x10_0000_0000 * u64::from(self.number)
    }

    /// Reads a word. Each bit has a meaning, so every word can be read.
    pub fn read(word: u64) -> CellWord
        ensures value { result ≡ cell_of word }
        ensures back { packed_cell result ≡ word }
        ensures fits { FitsCell result }
    {
        CellWord {
            turn: word % 2 == 1,
            ready: (word / 2 % 0x100) as u8,
            running: (word / 0x200 % 0x100) as u8,
            owed: (word / 0x2_0000 % 0x8_0000) as u32,
            number: (word / 0x10_0000_0000) as u32,
        }
    }

    /// The same, with the signature that all words have.
    pub fn unpack(word: u64) -> Option<CellWord>
        ensures { result ≡ Some (cell_of word) }
    {
        Some(CellWord::read(word))
    }
}
