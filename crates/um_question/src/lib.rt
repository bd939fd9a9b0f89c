//! Questions about all runs of an image: what each asks, whether the last event of a run and the state behind it meet one, and how a
//! question is written.
#![tactic(auto)]

mod accesses;
mod asking;
mod forms;
mod meeting;
mod names;
mod numbers;
mod places;
mod question;
mod reading;
mod words;

pub use asking::Asking;
pub use forms::fits;
pub use meeting::meets;
pub use question::Question;
pub use reading::read_question;
