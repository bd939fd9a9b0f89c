//! A board: a word for each site, which seats change by lawful steps, and one history of all steps that were made.
#![tactic(auto)]

mod asked;
mod board;
mod closed;
mod opening;
mod place;
mod plays;
mod rule;
mod seat;
mod sites;
mod turn;
mod turns;
mod view;

pub use asked::Asked;
pub use board::{Board, Changed, StillOut};
pub use closed::Closed;
pub use opening::{are_unstepped, have_no_turn};
pub use place::Place;
pub use plays::Step;
pub use rule::{Opening, Ruled};
pub use seat::Seat;
pub use sites::{domain_site, site_of, thread_site};
pub use turn::Turn;
pub use view::{Name, View};
