//! Commands and their options.

/// The options of a run.
#[derive(Clone, Copy, Debug, PartialEq, Eq)]
pub struct Options {
    /// How many logical processors there are, 1 to 8.
    pub cpus: u8,
    /// The number that picks the order in which they go, if one is given.
    pub pick: Option<u64>,
}

/// What the program is asked to do.
#[derive(Clone, Copy, Debug, PartialEq, Eq)]
pub enum Command {
    /// Run a description on logical processors.
    Sim(Options),
    /// Run a description on so many processors that are threads, 1 to 8.
    Run { cpus: u8 },
    /// Tell the addresses.
    Layout,
    /// Generate the description of this number.
    Gen { number: u64 },
    /// Run a description, and tell counts.
    Summary(Options),
    /// Print a description in version 2.
    Upgrade,
    /// Say whether a trace is that of a complete run of a description.
    Audit,
}
