//! The state that is read off sites, as a dump reads it.
#![tactic(auto, using(crate::proofs::Numbers::readings))]

ghost use Rattle.std.specs.Prelude.{◌≡◌, ◌<◌};
ghost use Rattle.um_machine.specs.State.{thread_at};
ghost use Rattle.um_refinement.specs.Objects.{status_of};
ghost use Rattle.um_closing.specs.ReadOff.{read_off, thread_off};

use crate::read_sites::ReadSites;
use um_base::{Image, Kind, Mode, Parts, ROWS, STATIC_ROWS, THREADS, Waiter};
use um_machine::{Contents, Life, Status};
use um_steps::Dumped;
use um_tables::kind_of;
use um_words::{Stage, ThreadWord};

/// The word of a thread index where nothing was started.
const UNBORN: ThreadWord = ThreadWord {
    life: Life::Unborn,
    doomed: false,
    held: false,
    mode: Mode::User,
    domain: 0,
    aborted: false,
    suspended: false,
    note: None,
    number: 0,
};

/// Sites of an image, at which no processor has a step left. A dump reads the state that is read off them.
#[derive(Drop)]
pub struct Closing<'a, S: ReadSites> {
    image: &'a Image,
    sites: &'a S,
}

/// The status of a row at this stage, which has a reserved object or none.
fn status_of(stage: Stage, is_reserved: bool) -> Status
    ensures { result ≡ status_of stage is_reserved }
{
    match stage {
        Stage::Live => Status::Live,
        Stage::Dying | Stage::Cleaning => Status::Gone,
        Stage::Free if is_reserved => Status::Reserved,
        Stage::Free => Status::Free,
    }
}

impl<'a, S: ReadSites> Closing<'a, S> {
    /// The state that is read off these sites.
    pub fn new(image: &'a Image, sites: &'a S) -> Closing<'a, S>
        ensures { read_off result.image.now (S.sites result.sites.now)
            ≡ read_off image.now (S.sites sites.now) }
    {
        Closing { image, sites }
    }

    /// The word of a thread. Past the last one nothing was started.
    fn word(&self, thread: usize) -> ThreadWord
        ensures { let state = read_off self.now.image.now (S.sites self.now.sites.now) in
            thread_at state thread ≡ thread_off result (thread_at state thread).priority }
    {
        if thread < THREADS {
            self.sites.read_thread(thread)
        } else {
            UNBORN
        }
    }
}

impl<'a, S: ReadSites> Dumped for Closing<'a, S> {
    ghost use Rattle.um_closing.specs.ReadOff.{read_off};

    ghost state = { λ c. read_off c.image.now (S.sites c.sites.now) };

    fn life(&self, thread: usize) -> Life {
        self.word(thread).life
    }

    fn is_doomed(&self, thread: usize) -> bool {
        self.word(thread).doomed
    }

    fn mode(&self, thread: usize) -> Mode {
        self.word(thread).mode
    }

    fn priority(&self, thread: usize) -> i8 {
        if thread < THREADS {
            self.sites.read_scheduler().priority(thread)
        } else {
            0
        }
    }

    fn domain(&self, thread: usize) -> u8 {
        self.word(thread).domain
    }

    fn rows(&self) -> usize {
        let _ = &self.sites;
        ROWS
    }

    fn status(&self, row: usize) -> Status {
        let is_reserved = row >= STATIC_ROWS && !self.sites.read_heap().is_free(row);
        status_of(self.sites.read_row(row).stage, is_reserved)
    }

    fn kind(&self, row: usize) -> Option<Kind> {
        let kind = kind_of(self.image, row);
        if self.status(row) == Status::Free {
            None
        } else {
            kind
        }
    }

    fn is_public(&self, row: usize) -> bool {
        self.sites.read_row(row).public
    }

    fn is_initialised(&self, row: usize) -> bool {
        self.sites.read_row(row).init
    }

    fn contents(&self, row: usize) -> Option<&Contents> {
        match self.sites.read_object(row) {
            Some(cell) => Some(&cell.contents),
            None => None,
        }
    }

    fn waiters(&self, row: usize) -> &[Waiter] {
        match self.sites.read_object(row) {
            Some(cell) => cell.waiters.as_slice(),
            None => &[],
        }
    }

    fn joins(&self) -> &[Waiter] {
        self.sites.read_joins().waiters().as_slice()
    }

    fn futexes(&self) -> &[Waiter] {
        self.sites.read_memory().futexes().as_slice()
    }

    fn has_pair(&self, thread: usize, row: usize) -> bool {
        self.sites.read_row(row).permissions.has(thread as u8)
    }

    fn partitions(&self, domain: usize) -> Option<&Parts> {
        if domain < self.image.domains.len() {
            self.sites.read_parts(domain)
        } else {
            None
        }
    }

    fn left_in_pool(&self, pool: usize) -> u32 {
        self.sites.read_heap().left_in_pool(pool)
    }

    fn memory(&self) -> &[u8] {
        self.sites.read_memory().memory()
    }

    fn stacks(&self) -> &[u8] {
        self.sites.read_memory().stacks()
    }
}
