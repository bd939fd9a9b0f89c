//! Operands, one method for each form.

ghost use Rattle.std.specs.Prelude.{◌≡◌, Ok, Err, MatchResult};
ghost use Rattle.um_script.specs.{Cursor.{words_left}, Faults.{Gives}};
ghost use Rattle.um_script.specs.Numbers as numbers;
ghost use Rattle.um_script.specs.Operands as operands;

use crate::fault::{LineFault, LineKind};
use crate::words::{Word, Words};
use crate::{choices, numbers, partitions, terms};
use um_base::{Kind, NAMED_PARTITIONS, Options, PartRef, PartRefs, Ref, Term, Timeout};

impl Word<'_> {
    /// What was read of this word, with a fault at its column.
    fn placed<T>(&self, read: Result<T, LineKind>) -> Result<T, LineFault>
        ensures { MatchResult read (λ x. result ≡ Ok x) (λ k. result ≡ Err (record { kind = k; column = self.now.column })) }
    {
        match read {
            Ok(value) => Ok(value),
            Err(kind) => Err(LineFault {
                kind,
                column: self.column,
            }),
        }
    }
}

impl Words<'_> {
    /// How often lines are repeated.
    #[tactic(auto, unfolding(crate::specs::Operands::one))]
    pub fn times(&mut self) -> Result<u16, LineFault>
        ensures { Gives result (operands.one numbers.times (words_left self.old)) (words_left self.new) }
    {
        let word = self.word()?;
        word.placed(numbers::times(word.bytes))
    }

    /// A register.
    #[tactic(auto, unfolding(crate::specs::Operands::one))]
    pub fn register(&mut self) -> Result<u8, LineFault>
        ensures { Gives result (operands.one operands.register (words_left self.old)) (words_left self.new) }
    {
        let word = self.word()?;
        word.placed(terms::register(word.bytes))
    }

    /// How many bytes are loaded or stored.
    #[tactic(auto, unfolding(crate::specs::Operands::one))]
    pub fn size(&mut self) -> Result<u8, LineFault>
        ensures { Gives result (operands.one operands.size (words_left self.old)) (words_left self.new) }
    {
        let word = self.word()?;
        word.placed(choices::size(word.bytes))
    }

    /// A place, a register or a number.
    #[tactic(auto, unfolding(crate::specs::Operands::one))]
    pub fn term(&mut self) -> Result<Term, LineFault>
        ensures { Gives result (operands.one operands.term (words_left self.old)) (words_left self.new) }
    {
        let word = self.word()?;
        word.placed(terms::term(word.bytes))
    }

    /// The name of a domain or of a script.
    #[tactic(auto, unfolding(crate::specs::Operands::one))]
    pub fn named(&mut self) -> Result<Ref, LineFault>
        ensures { Gives result (operands.one operands.named (words_left self.old)) (words_left self.new) }
    {
        let word = self.word()?;
        word.placed(terms::named(word.bytes))
    }

    /// A partition.
    #[tactic(auto, unfolding(crate::specs::Operands::one))]
    pub fn part(&mut self) -> Result<PartRef, LineFault>
        ensures { Gives result (operands.one operands.part (words_left self.old)) (words_left self.new) }
    {
        let word = self.word()?;
        word.placed(partitions::part(word.bytes))
    }

    /// As many partitions as there are, up to four.
    pub fn parts(&mut self) -> Result<PartRefs, LineFault>
        ensures { Gives result (operands.parts NAMED_PARTITIONS (words_left self.old)) (words_left self.new) }
    {
        let mut parts = PartRefs::new();
        for _ in 0..NAMED_PARTITIONS {
            match self.next() {
                Some(word) => parts.push(&word.placed(partitions::part(word.bytes))?),
                None => return Ok(parts),
            }
        }
        Ok(parts)
    }

    /// A kind of object that can be allocated.
    #[tactic(auto, unfolding(crate::specs::Operands::one))]
    pub fn kind(&mut self) -> Result<Kind, LineFault>
        ensures { Gives result (operands.one operands.kind (words_left self.old)) (words_left self.new) }
    {
        let word = self.word()?;
        word.placed(choices::kind(word.bytes))
    }

    /// How long a call waits.
    #[tactic(auto, unfolding(crate::specs::Operands::one))]
    pub fn timeout(&mut self) -> Result<Timeout, LineFault>
        ensures { Gives result (operands.one operands.timeout (words_left self.old)) (words_left self.new) }
    {
        let word = self.word()?;
        word.placed(choices::timeout(word.bytes))
    }

    /// Whether all are woken, or one.
    #[tactic(auto, unfolding(crate::specs::Operands::one))]
    pub fn how_many(&mut self) -> Result<bool, LineFault>
        ensures { Gives result (operands.one operands.how_many (words_left self.old)) (words_left self.new) }
    {
        let word = self.word()?;
        word.placed(choices::how_many(word.bytes))
    }

    /// A priority.
    #[tactic(auto, unfolding(crate::specs::Operands::one))]
    pub fn priority(&mut self) -> Result<i8, LineFault>
        ensures { Gives result (operands.one numbers.priority (words_left self.old)) (words_left self.new) }
    {
        let word = self.word()?;
        word.placed(numbers::priority(word.bytes))
    }

    /// The options of a new thread.
    #[tactic(auto, unfolding(crate::specs::Operands::one))]
    pub fn options(&mut self) -> Result<Options, LineFault>
        ensures { Gives result (operands.one operands.options (words_left self.old)) (words_left self.new) }
    {
        let word = self.word()?;
        word.placed(choices::options(word.bytes))
    }
}
