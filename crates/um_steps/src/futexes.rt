//! Futexes: where they are, and what calls on them answer.

ghost use Rattle.std.specs.Prelude.{◌≡◌, ◌==◌};
ghost use Rattle.um_base.specs.Lawful.{futex_addr};
ghost use Rattle.um_machine.specs.Futexes.{is_futex, futex_wait, may_wait, wake_answer};

use um_base::{Answer, Errno, Futex, Image, Reply, Timeout};

/// Whether a futex is at this address.
fn is_at(image: &Image, a: u32, futex: &Futex) -> bool
    ensures { result ≡ (futex_addr image.now futex.now == a) }
{
    match image.partitions.as_slice().get(futex.partition as usize) {
        None => futex.offset == a,
        Some(partition) => partition.range.start.0 as u64 + futex.offset as u64 == a as u64,
    }
}

/// Whether there is a futex at this address.
pub fn is_futex(image: &Image, a: u32) -> bool
    ensures { result ≡ is_futex image.now a }
{
    image
        .futexes
        .as_slice()
        .iter()
        .any(|futex| is_at(image, a, futex))
}

/// What a call says that may wait.
fn may_wait(timeout: Timeout) -> Answer
    ensures { result ≡ may_wait timeout }
{
    match timeout {
        Timeout::NoWait => Answer::Now(Reply::Fail(Errno::ETIMEDOUT)),
        Timeout::Forever | Timeout::Ticks(_) => Answer::Wait,
    }
}

/// What a wait for a number says, where another may be found, or where it is refused.
pub fn futex_wait(value: u32, found: u32, timeout: Timeout, refusal: Option<Errno>) -> Answer
    ensures { result ≡ futex_wait value found timeout refusal }
{
    match refusal {
        Some(error) => Answer::Now(Reply::Fail(error)),
        None if found == value => may_wait(timeout),
        None => Answer::Now(Reply::Fail(Errno::EAGAIN)),
    }
}

/// What a wake says that woke so many, or is refused.
pub fn wake_answer(refusal: Option<Errno>, woken: u32) -> Answer
    ensures { result ≡ wake_answer refusal woken }
{
    match refusal {
        Some(error) => Answer::Now(Reply::Fail(error)),
        None => Answer::Now(Reply::Num(woken)),
    }
}
