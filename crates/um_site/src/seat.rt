//! A seat at a board.

ghost use Rattle.std.specs.Prelude.{◌≡◌, ℕ, ◌+◌, true, [], length};

use crate::view::View;
use atomic_table::Seat as Token;

/// The right to step on a board. Contracts know what its holder has seen and done; in memory it is two counts and a flag.
#[derive(Drop)]
pub struct Seat<T> {
    pub token: Token<Option<T>, View>,
    /// How many seats it, and the seats that it joined, have split off.
    pub split: u32,
    /// How many seats it, and the seats that it joined, have joined.
    pub joined: u32,
    pub first: bool,
    /// Only a board gives a seat out.
    pub(crate) sealed: (),
    pub ghost live: { token.me.0.live ≡ true },
    pub ghost counted: { split ≡ joined + length token.me.0.children },
    pub ghost is_first: { first ≡ true → token.me.0.name ≡ [] },
}
