//! The kinds of words, and which sites have them.

ghost use Rattle.std.specs.Prelude.{◌≡◌};
ghost use Rattle.um_words.specs.Steps.{cell_kind_at, kind_at, number, number_in};

/// The greatest step number of every word but a row's. A word that has reached it takes no step.
pub(crate) const LAST: u32 = 0xfff_ffff;

/// How many sites there are: rows, threads, domains and cells.
pub const SITES: u16 = 309;

/// What a cell keeps.
#[derive(Clone, Copy, PartialEq, Eq)]
pub enum CellKind {
    Object,
    Domain,
    Memory,
    Heap,
    Scheduler,
    Clock,
    Join,
    /// Nothing: it takes no step.
    Unused,
}

impl CellKind {
    /// The kind of the cell at a site.
    fn at(site: u16) -> CellKind
        ensures { result ≡ cell_kind_at site }
    {
        match site {
            0..296 => CellKind::Object,
            296..304 => CellKind::Domain,
            304 => CellKind::Memory,
            305 => CellKind::Heap,
            306 => CellKind::Scheduler,
            307 => CellKind::Clock,
            308 => CellKind::Join,
            _ => CellKind::Unused,
        }
    }
}

/// What a site's word stands for.
#[derive(Clone, Copy, PartialEq, Eq)]
pub enum WordKind {
    Row,
    Thread,
    Domain,
    Cell(CellKind),
}

impl WordKind {
    /// The kind of the word at a site.
    pub fn at(site: u16) -> WordKind
        ensures { result ≡ kind_at site }
    {
        match site {
            0..128 => WordKind::Row,
            128..160 => WordKind::Thread,
            160..168 => WordKind::Domain,
            _ => WordKind::Cell(CellKind::at(site)),
        }
    }
}

/// The step number in a site's word.
pub fn step_number(site: u16, word: u64) -> u32
    ensures { result ≡ number site word }
{
    match WordKind::at(site) {
        WordKind::Row => (word / 0x1000_0000_0000) as u32,
        WordKind::Thread => (word / 0x10_0000_0000) as u32,
        WordKind::Domain => (word / 0x10_0000_0000) as u32,
        WordKind::Cell(_) => (word / 0x10_0000_0000) as u32,
    }
}
