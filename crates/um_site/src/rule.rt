//! The rule of a board.

use crate::view::View;
use atomic_table::TableRule;
use std::marker::PhantomData;
use std::snapshot::Snapshot;
use um_base::Image;
use um_words::{Content, Local};

/// What a board is made for: an image, and the words with which it opens.
pub type Opening = (Snapshot<Image>, Snapshot<Vec<u64>>);

/// One history for the words, for all seats and for the contents of the cells.
pub struct Ruled<L> {
    local: PhantomData<L>,
}

impl<T: Content, L: Local> TableRule<Option<T>, View, Opening> for Ruled<L> {
    ghost use Rattle.um_site.specs.{Cells.{Rule}, History.{opening_view}};

    ghost holds = { λ key s. Rule T.opens T.follows
        (L.goes key.0.value) key.0.value key.1.value.items s.words s.homes s.views };

    ghost first = { λ key. opening_view key.0.value key.1.value.items };
}
