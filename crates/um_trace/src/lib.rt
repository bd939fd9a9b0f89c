//! Texts of an image and of a run of the machine: the addresses of the image, a line for each event with the dump of the last state, and
//! how much the run did.
#![tactic(auto)]

mod answers;
mod domains;
mod dump;
mod heap;
mod indexed;
mod layout;
mod lines;
mod memory;
mod names;
mod objects;
mod pairs;
mod room;
mod stops;
mod summary;
mod threads;
mod time;
mod trace;
mod wakes;
mod words;

pub use dump::DUMP_ROOM;
pub use layout::{layout_room, layout_text};
pub use lines::{LINE_ROOM, THREADS_ROOM, dump_text, line_text, thread_beginning, threads_text};
pub use summary::{SUMMARY_ROOM, summary_text};
pub use trace::{text_room, trace_text};
