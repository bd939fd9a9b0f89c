//! Texts that stood before.

ghost use Rattle.std.specs.Prelude.{◌≡◌, [], ◌∷◌, IfOk, OnOk, List, ℕ};
ghost use Rattle.um_description.specs.{Names.{is_among}, Duplicates.{SameTexts}};

use std::alloc::Global;
use std::collections::BTreeSet;
use std::marker::Model;
use um_base::OutOfMemory;

/// A set of texts.
#[derive(Drop)]
pub struct Seen {
    texts: BTreeSet<Vec<u8>>,
}

impl Model for Seen {
    ghost use Rattle.std.specs.{Prelude.{List, ℕ, map, Vec}, declared.alloc.Global.{Global}};

    ghost Value = { List (List ℕ) };

    ghost view = { λ s. map (λ (t : Vec ℕ Global). t.items) s.texts.keys };
}

impl Seen {
    /// None.
    pub fn new(alloc: Global) -> Seen
        ensures { result ≡ [] }
    {
        Seen {
            texts: BTreeSet::new(alloc),
        }
    }

    /// One more text, and whether it was there before.
    pub fn add(&mut self, alloc: Global, text: &[u8]) -> Result<bool, OutOfMemory>
        ensures again { IfOk result (λ again. again ≡ is_among text.now self.old) }
        ensures added { OnOk result (SameTexts self.new (text.now ∷ self.old)) }
    {
        let mut copy = Vec::new(alloc);
        copy.extend_from_slice(text)?;
        let is_new = self.texts.insert(copy)?;
        Ok(!is_new)
    }

    /// Whether a text is there.
    #[tactic(auto, using(crate::proofs::SeenLemmas::among_keys))]
    pub fn has(&self, text: &[u8]) -> bool
        ensures { result ≡ is_among text.now self.now }
    {
        self.texts.contains(text)
    }
}
