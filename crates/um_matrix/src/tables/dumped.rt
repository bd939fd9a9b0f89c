//! Tables as a dump reads them.

use crate::tables::Tables;
use um_base::{Kind, Mode, Parts, Waiter};
use um_machine::{Contents, Life, Status};
use um_steps::Dumped;

impl<'a> Dumped for Tables<'a> {
    ghost state = { λ m. m };

    fn life(&self, thread: usize) -> Life {
        match self.threads.get(thread) {
            Some(me) => me.life,
            None => Life::Unborn,
        }
    }

    fn is_doomed(&self, thread: usize) -> bool {
        match self.threads.get(thread) {
            Some(me) => me.doomed,
            None => false,
        }
    }

    fn mode(&self, thread: usize) -> Mode {
        match self.threads.get(thread) {
            Some(me) => me.mode,
            None => Mode::User,
        }
    }

    fn priority(&self, thread: usize) -> i8 {
        match self.threads.get(thread) {
            Some(me) => me.priority,
            None => 0,
        }
    }

    fn domain(&self, thread: usize) -> u8 {
        match self.threads.get(thread) {
            Some(me) => me.domain,
            None => 0,
        }
    }

    fn rows(&self) -> usize {
        self.pairs.len()
    }

    fn status(&self, row: usize) -> Status {
        self.objects.row(row).status
    }

    fn kind(&self, row: usize) -> Option<Kind> {
        self.objects.row(row).kind
    }

    fn is_public(&self, row: usize) -> bool {
        self.objects.row(row).public
    }

    fn is_initialised(&self, row: usize) -> bool {
        self.objects.row(row).init
    }

    fn contents(&self, row: usize) -> Option<&Contents> {
        Some(&self.objects.row(row).contents)
    }

    fn waiters(&self, row: usize) -> &[Waiter] {
        self.objects.row(row).waiters.as_slice()
    }

    fn joins(&self) -> &[Waiter] {
        self.joins.as_slice()
    }

    fn futexes(&self) -> &[Waiter] {
        self.futexes.as_slice()
    }

    fn has_pair(&self, thread: usize, row: usize) -> bool {
        self.pairs[row][thread]
    }

    fn partitions(&self, domain: usize) -> Option<&Parts> {
        match self.domains.get(domain) {
            Some(Some(parts)) => Some(parts),
            _ => None,
        }
    }

    fn left_in_pool(&self, pool: usize) -> u32 {
        match self.pools.get(pool) {
            Some(left) => *left,
            None => 0,
        }
    }

    fn memory(&self) -> &[u8] {
        self.memory.as_slice()
    }

    fn stacks(&self) -> &[u8] {
        self.stacks.as_slice()
    }
}
