//! The sites of the fine machine on a board of shared words: what its cells have in them, how it opens, and how a processor makes its
//! steps there.
#![tactic(auto)]

mod contents;
mod fine;
mod first_board;
mod first_contents;
mod first_words;
mod kind;
mod looks;
mod next_step;
mod object_room;
mod places;
mod seated;
mod sites;

pub use contents::{Contents, Counts, Kept};
pub use fine::{AsMade, Fine};
pub use first_board::opening;
pub use next_step::NextStep;
pub use object_room::ObjectRoom;
pub use seated::{Seated, Turn};
