//! A seat at a board of words alone that makes calls on the word that stands, by itself and in as many threads as it is asked for: what
//! the bench of the board and its tests share.
#![tactic(auto)]

mod blank;
mod jobs;
mod play;
mod seated;
mod tally;
mod work;

pub use blank::{board_of, empty_image, last_word, words_with};
pub use jobs::worked;
pub use seated::{LAST, OBJECT, Seated};
pub use tally::Tally;
pub use work::Job;
