//! The words that may stand at a key, and how variables are aligned.

ghost use Rattle.std.specs.Prelude.{◌≡◌, ◌≤◌};
ghost use Rattle.um_document.specs.Words as words;

use crate::description::Alignment;
use crate::shape::Choice;
use um_vocabulary::{given_attr_named, kind_named, mode_named, mpu_named, policy_named};

/// Whether it is one of the words that may stand there.
pub fn is_word(choice: Choice, word: &[u8]) -> bool
    ensures { result ≡ words.is_word choice word.now }
{
    match choice {
        Choice::Mpu => mpu_named(word).is_some(),
        Choice::Policy => policy_named(word).is_some(),
        Choice::Attr => given_attr_named(word).is_some(),
        Choice::Kind => kind_named(word).is_some(),
        Choice::Mode => mode_named(word).is_some(),
    }
}

const ALIGNMENTS: [Alignment; 6] = [
    Alignment::One,
    Alignment::Two,
    Alignment::Four,
    Alignment::Eight,
    Alignment::Sixteen,
    Alignment::ThirtyTwo,
];

impl Alignment {
    /// The number of bytes of which an offset is to be a multiple.
    pub fn bytes(self) -> u32
        ensures value { result ≡ words.alignment_bytes self }
        ensures some { 1 ≤ result }
        ensures few { result ≤ 32 }
    {
        match self {
            Alignment::One => 1,
            Alignment::Two => 2,
            Alignment::Four => 4,
            Alignment::Eight => 8,
            Alignment::Sixteen => 16,
            Alignment::ThirtyTwo => 32,
        }
    }
}

/// The alignment of so many bytes.
pub fn alignment_of(number: i64) -> Option<Alignment>
    ensures { result ≡ words.alignment_of number }
{
    ALIGNMENTS
        .iter()
        .copied()
        .find(|alignment| number == alignment.bytes() as i64)
}
