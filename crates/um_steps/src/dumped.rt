//! What a dump reads of a state of the machine, wherever it is kept.

ghost use Rattle.std.specs.Prelude.{◌≡◌, ◌<◌, ◌≤◌, None, Some, MatchOption, length, slice_index, slice_index_or};
ghost use Rattle.um_base.specs.declared.limits.TheConstants.{ROWS, THREADS};
ghost use Rattle.um_machine.specs.{declared.contents.Contents.{Contents}, State.{object_at, pair_at, thread_at}};

use um_base::{Kind, Mode, Parts, Waiter};
use um_machine::{Contents, Life, Status};

/// A state of the machine that can be dumped.
pub trait Dumped {
    ghost use Rattle.um_machine.specs.State.{State};

    /// The state. Where a dump reads nothing of a field, the field may have any value.
    ghost state: { Self → State };

    /// How a thread index is in its life. Past the last one nothing was started.
    fn life(&self, thread: usize) -> Life
        ensures { result ≡ (thread_at (state self.now) thread).life };

    /// Whether a thread is doomed.
    fn is_doomed(&self, thread: usize) -> bool
        ensures { result ≡ (thread_at (state self.now) thread).doomed };

    /// The mode of a thread.
    fn mode(&self, thread: usize) -> Mode
        ensures { result ≡ (thread_at (state self.now) thread).mode };

    /// The priority of a thread, -16 to 14. A lower number is a higher priority.
    fn priority(&self, thread: usize) -> i8
        ensures { result ≡ (thread_at (state self.now) thread).priority };

    /// The domain of a thread.
    fn domain(&self, thread: usize) -> u8
        ensures { result ≡ (thread_at (state self.now) thread).domain };

    /// How many rows there are.
    fn rows(&self) -> usize
        ensures value { result ≡ length (state self.now).objects }
        ensures few { result ≤ ROWS };

    /// The status of a row.
    fn status(&self, row: usize) -> Status
        requires { row < ROWS }
        ensures { result ≡ (object_at (state self.now) row).status };

    /// The kind of the object of a row.
    fn kind(&self, row: usize) -> Option<Kind>
        requires { row < ROWS }
        ensures { result ≡ (object_at (state self.now) row).kind };

    /// Whether everybody may use the object of a row.
    fn is_public(&self, row: usize) -> bool
        requires { row < ROWS }
        ensures { result ≡ (object_at (state self.now) row).public };

    /// Whether the object of a row is initialised.
    fn is_initialised(&self, row: usize) -> bool
        requires { row < ROWS }
        ensures { result ≡ (object_at (state self.now) row).init };

    /// What the object of a row keeps. `None` stands for nothing.
    fn contents(&self, row: usize) -> Option<&Contents>
        requires { row < ROWS }
        ensures { MatchOption result ((object_at (state self.now) row).contents ≡ Contents.Nothing)
            (λ kept. (object_at (state self.now) row).contents ≡ kept.now) };

    /// Who waits on the object of a row.
    fn waiters(&self, row: usize) -> &[Waiter]
        requires { row < ROWS }
        ensures { result.now ≡ (object_at (state self.now) row).waiters };

    /// Who waits for the end of a thread.
    fn joins(&self) -> &[Waiter]
        ensures { result.now ≡ (state self.now).joins };

    /// Who waits on a futex.
    fn futexes(&self) -> &[Waiter]
        ensures { result.now ≡ (state self.now).futexes };

    /// Whether a thread has a pair with the object of a row.
    fn has_pair(&self, thread: usize, row: usize) -> bool
        requires thread { thread < THREADS }
        requires row { row < ROWS }
        ensures { result ≡ pair_at (state self.now) thread row };

    /// The partitions of a domain, where it is initialised.
    fn partitions(&self, domain: usize) -> Option<&Parts>
        ensures { MatchOption result (slice_index_or (state self.now).domains domain None ≡ None)
            (λ parts. slice_index_or (state self.now).domains domain None ≡ Some parts.now) };

    /// How many bytes are left in a pool.
    fn left_in_pool(&self, pool: usize) -> u32
        ensures { result ≡ slice_index (state self.now).pools pool };

    /// The bytes of the area of the partitions.
    fn memory(&self) -> &[u8]
        ensures { result.now ≡ (state self.now).memory };

    /// The bytes of the area of the thread stacks.
    fn stacks(&self) -> &[u8]
        ensures { result.now ≡ (state self.now).stacks };
}
