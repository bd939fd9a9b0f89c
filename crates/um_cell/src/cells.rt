//! Some cells of a board.

ghost use Rattle.std.specs.Prelude.{◌≤◌, ◌+◌};

use std::marker::PhantomData;

/// Cells at consecutive sites that were filled.
#[derive(Drop)]
pub struct Cells<T> {
    /// The site of the first one.
    pub first: u16,
    /// How many cells there are.
    pub count: u16,
    pub contents: PhantomData<T>,
    pub ghost cells: { 168 ≤ first },
}
