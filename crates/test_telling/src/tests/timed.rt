//! Whole runs of one thread over virtual time.

use super::image_of;
use std::process::Abort;
use std::test::Fail;
use um_matrix::Matrix;
use um_samples::described;
use um_trace::{text_room, trace_text};

/// A thread waits for a semaphore that nobody gives.
const LATE: &str = described!(
    "partition = [{name = \"p\", size = 32, attr = \"P_RW_U_RW\"}]
domain = [{name = \"d\", partitions = [\"p\"]}]
object = [{name = \"a\", kind = \"thread\"}, {name = \"sa\", kind = \"thread_stack\", size = 64}, {name = \"s\", kind = \"sem\", count = 0, limit = 1}]
boot = [{thread = \"a\", stack = \"sa\", script = \"m\", priority = 0, domain = \"d\", grants = [\"s\"]}]
script = [{name = \"m\", lines = [\"k_sem_take @s K_TICKS(5)\"]}]
"
);

/// It is told so at its deadline.
const LATE_TEXT: &str = "a begin m 1
a check s sem init ok
a arm 5
a act s wait
a tick 5
a timeout a
a resume
a reply EAGAIN
a exit
a drop a a kept
a drop a s kept
a uninit sa
a uninit a
dump
thread a ended user 0 d
object a thread uninit private - -
object sa thread_stack uninit private - -
object s sem init private - 0/1
domain d 0x20000000/32/P_RW_U_RW
";

/// A thread starts a timer twice, and waits for it.
const AGAIN: &str = described!(
    "partition = [{name = \"p\", size = 32, attr = \"P_RW_U_RW\"}]
domain = [{name = \"d\", partitions = [\"p\"]}]
object = [{name = \"a\", kind = \"thread\"}, {name = \"sa\", kind = \"thread_stack\", size = 64}, {name = \"tm\", kind = \"timer\"}]
boot = [{thread = \"a\", stack = \"sa\", script = \"m\", priority = 0, domain = \"d\", grants = [\"tm\"]}]
script = [{name = \"m\", lines = [\"k_timer_start @tm 2\", \"k_timer_start @tm 4\", \"k_timer_status_sync @tm r0\"]}]
"
);

/// The timer runs out at the later deadline alone.
const AGAIN_TEXT: &str = "a begin m 1
a check tm timer init ok
a arm 2
a act tm void
a reply void
a begin m 2
a check tm timer init ok
a arm 4
a act tm void
a reply void
a begin m 3
a check tm timer init ok
a act tm wait
a tick 2
a tick 4
a expire tm wake a 1
a resume
a reply 1
a exit
a drop a a kept
a drop a tm kept
a uninit sa
a uninit a
dump
thread a ended user 0 d
object a thread uninit private - -
object sa thread_stack uninit private - -
object tm timer init private - 0/stopped
domain d 0x20000000/32/P_RW_U_RW
";

/// A thread starts a timer and ends.
const ALONE: &str = described!(
    "partition = [{name = \"p\", size = 32, attr = \"P_RW_U_RW\"}]
domain = [{name = \"d\", partitions = [\"p\"]}]
object = [{name = \"a\", kind = \"thread\"}, {name = \"sa\", kind = \"thread_stack\", size = 64}, {name = \"tm\", kind = \"timer\"}]
boot = [{thread = \"a\", stack = \"sa\", script = \"m\", priority = 0, domain = \"d\", grants = [\"tm\"]}]
script = [{name = \"m\", lines = [\"k_timer_start @tm 3\"]}]
"
);

/// Time goes on to the deadline all the same.
const ALONE_TEXT: &str = "a begin m 1
a check tm timer init ok
a arm 3
a act tm void
a reply void
a exit
a drop a a kept
a drop a tm kept
a uninit sa
a uninit a
a tick 3
a expire tm
dump
thread a ended user 0 d
object a thread uninit private - -
object sa thread_stack uninit private - -
object tm timer init private - 1/stopped
domain d 0x20000000/32/P_RW_U_RW
";

/// The first event that is a step, again and again to the end, tells this text.
fn tells<R: Abort + AllocGlobal>(rt: &R, description: &str, text: &str) -> Result<(), Fail> {
    let image = image_of(rt.alloc(), description)?;
    let mut matrix = Matrix::boot(rt.alloc(), &image)?;
    let mut events = Vec::new(rt.alloc());
    for _ in 0..64usize {
        if let Some(event) = matrix.next_event() {
            assert!(rt; matrix.apply(&event).is_ok());
            events.push(event)?;
        }
    }
    assert!(rt; matrix.is_final());
    let mut room = Vec::with_capacity(rt.alloc(), text_room(&events))?;
    trace_text(&image, &events, matrix.tables(), &mut room);
    assert_eq!(rt; room.as_slice(), text.as_bytes());
    Ok(())
}

#[test]
fn a_wait_ends_at_its_deadline(rt: HostRuntime) -> Result<(), Fail> {
    tells(&rt, LATE, LATE_TEXT)
}

#[test]
fn a_timer_that_is_started_again_runs_to_the_later_deadline(rt: HostRuntime) -> Result<(), Fail> {
    tells(&rt, AGAIN, AGAIN_TEXT)
}

#[test]
fn a_timer_runs_out_behind_the_last_thread(rt: HostRuntime) -> Result<(), Fail> {
    tells(&rt, ALONE, ALONE_TEXT)
}
