//! Contents of cells.

/// What a cell of a board has in it.
pub trait Content {
    ghost use Rattle.std.specs.Prelude.{ℕ};
    ghost use Rattle.um_base.specs.declared.image.Image.{Image};
    ghost use Rattle.um_words.specs.{declared.fine.FineAct.{FineAct}, Exchanges.{Exchange}};

    /// These are the contents with which the cell at this site opens.
    ghost opens: { Image → ℕ → Self → Type 0 };

    /// A step with this act and this exchange turns the first contents into the second.
    ghost follows: { Self → FineAct → Exchange → Self → Type 0 };
}

/// Empty contents, for a board without cells.
impl Content for () {
    ghost opens = { λ image site contents. Unit {0} };

    ghost follows = { λ old act moved new. Unit {0} };
}
