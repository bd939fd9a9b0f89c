//! What a seat knows.

use crate::turn::Turn;
use std::collections::LinkedList;
use um_base::Image;
use um_words::Made;

/// The name of a seat. The first seat's name is empty. The k-th seat that a seat splits off, counted from 0, has that seat's name with k
/// appended.
pub type Name = LinkedList<u64>;

/// What contracts know of a seat. It is ghost data: no value of it exists at run time.
pub struct View {
    /// Whether the seat is still in use. False once another one has joined it.
    pub live: bool,
    /// The image that the board was made for.
    pub image: Image,
    /// The words with which the board opened.
    pub opening: LinkedList<u64>,
    pub name: Name,
    /// How many seats it has split off itself.
    pub splits: u64,
    /// The steps that it made, in order.
    pub made: LinkedList<Made>,
    /// The steps of the seats that it joined, each list under its seat's name.
    pub joined: LinkedList<(Name, LinkedList<Made>)>,
    /// The words that it read or wrote, with their sites, the newest first.
    pub got: LinkedList<(u16, u64)>,
    /// The seats that it, or a seat that it joined, split off and that aren't joined yet.
    pub children: LinkedList<Name>,
    /// The cell's turn that it has, if any.
    pub turn: Option<Turn>,
    /// The cells of which it knows that they were filled.
    pub filled: LinkedList<u16>,
}
