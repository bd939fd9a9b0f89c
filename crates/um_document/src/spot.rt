//! Where a fault stands, as text.

ghost use Rattle.std.specs.Prelude.{◌≡◌, string_bytes, IfOk};

use std::alloc::Global;
use std::marker::Model;
use um_base::OutOfMemory;

/// The text of a place in a description, or the word of what is counted there.
#[derive(Drop)]
pub struct Spot {
    text: String,
}

impl Model for Spot {
    ghost use Rattle.std.specs.Prelude.{List, ℕ, string_bytes};

    ghost Value = { List ℕ };

    ghost view = { λ s. string_bytes s.text };
}

impl Spot {
    /// The spot of this text. It takes no memory.
    pub fn new(text: String) -> Spot
        ensures { result ≡ string_bytes text }
    {
        Spot { text }
    }

    /// The spot of a copy of this text.
    pub fn of_text(alloc: Global, text: &str) -> Result<Spot, OutOfMemory>
        ensures { IfOk result (λ spot. spot ≡ text.now) }
    {
        Ok(Spot {
            text: String::from_str(alloc, text)?,
        })
    }

    /// The text.
    pub fn as_str(&self) -> &str
        ensures { result.now ≡ self.now }
    {
        self.text.as_str()
    }
}
