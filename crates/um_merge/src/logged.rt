//! Steps as processors note them.

use um_base::Event;

/// How many processors there are at most.
pub const PROCESSORS: usize = 8;

/// How many sites there are.
pub const SITES: usize = 309;

/// A step as its processor noted it.
#[derive(Clone, Copy)]
pub struct Logged {
    /// Which processor made it, 0 to 7.
    pub cpu: u8,
    /// At which site, 0 to 308.
    pub site: u16,
    /// Which of that site's steps it is, from 1 on.
    pub number: u32,
    /// What a trace shows of it.
    pub event: Option<Event>,
}

/// The same without the event, in eight bytes.
#[derive(Clone, Copy)]
pub(crate) struct Short {
    pub cpu: u8,
    /// Whether a trace shows an event of it.
    pub shows: bool,
    pub site: u16,
    pub number: u32,
}
