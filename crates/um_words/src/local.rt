//! Which step a seat may make next.

/// A rule for a board: words change by lawful steps only, and each seat makes only the steps that it may make next.
pub trait Local {
    ghost use Rattle.std.specs.Prelude.{ℕ, List};
    ghost use Rattle.um_base.specs.declared.image.Image.{Image};
    ghost use Rattle.um_words.specs.declared.made.Made.{Made};

    /// Whether the seat of that name, after the steps of this list, may make that step next, on a board of this image.
    ghost goes: { Image → List ℕ → List Made → Made → Type 0 };
}

/// The rule by which each seat may make every lawful step, whatever it made before.
pub struct AnyStep;

impl Local for AnyStep {
    ghost goes = { λ image name list made. Unit {0} };
}
