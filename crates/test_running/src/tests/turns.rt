//! The turns of processors, as a gate sees them: each comes, and each processor has a thread of its own.

use super::answered;
use super::lines::place_of;
use std::sync::atomic::{AtomicU64, Ordering};
use std::test::Fail;
use std::thread::yield_now;
use um_app::Status;
use um_io::Gate;
use um_samples::{GRANT_RACE, described};

/// How often all processors that are held look for the others.
const MOST_LOOKS: u64 = 10_000_000;

/// A gate that holds each processor before its first turn until so many have come.
#[derive(Drop)]
struct Gathering {
    cpus: u64,
    came: AtomicU64,
    looks: AtomicU64,
}

impl Gathering {
    fn of(cpus: u64) -> Gathering {
        Gathering {
            cpus,
            came: AtomicU64::new(0),
            looks: AtomicU64::new(0),
        }
    }

    /// Whether all came, and none went on because it had looked too often.
    fn has_met(&self) -> bool {
        self.came.load(Ordering::SeqCst) == self.cpus
            && self.looks.load(Ordering::SeqCst) < MOST_LOOKS
    }
}

impl Gate for Gathering {
    fn pause(&self, _cpu: u32, step: u64) {
        if step > 0 {
            return;
        }
        let _ = self.came.fetch_add(1, Ordering::SeqCst);
        for _ in 0..MOST_LOOKS {
            if self.came.load(Ordering::SeqCst) >= self.cpus
                || self.looks.fetch_add(1, Ordering::SeqCst) >= MOST_LOOKS
            {
                return;
            }
            yield_now();
        }
    }
}

#[test]
fn each_of_many_processors_is_a_thread(rt: HostRuntime) -> Result<(), Fail> {
    for cpus in [1, 4, 8] {
        let gate = Gathering::of(cpus);
        let line = format!(in rt.alloc(); "run --cpus {cpus}")?;
        let ended = answered(&rt, &line, GRANT_RACE, &gate)?;
        assert_eq!(rt; ended.status, Status::Done);
        assert!(rt; gate.has_met(), "{cpus} processors");
    }
    Ok(())
}

/// A thread that makes 700 lines, in more turns than that.
const MANY_TURNS: &str = described!(
    "domain = [{name = \"d\", partitions = []}]
object = [{name = \"a\", kind = \"thread\"}, {name = \"sa\", kind = \"thread_stack\", size = 64}]
boot = [{thread = \"a\", stack = \"sa\", script = \"m\", priority = 0, domain = \"d\"}]
script = [{name = \"m\", lines = [\"repeat 700\", \"set r0 0\", \"end\"]}]
"
);

/// A gate for one processor that counts its calls, and those that don't have the number of turns before them.
#[derive(Drop)]
struct Counting {
    calls: AtomicU64,
    strays: AtomicU64,
}

impl Gate for Counting {
    fn pause(&self, cpu: u32, step: u64) {
        let before = self.calls.fetch_add(1, Ordering::SeqCst);
        if cpu != 0 || step != before {
            let _ = self.strays.fetch_add(1, Ordering::SeqCst);
        }
    }
}

/// How many lines stand before this place of a text.
fn lines_before(text: &[u8], place: usize) -> u64 {
    let mut count: u64 = 0;
    for k in 0..place.min(text.len()) {
        if text[k] == b'\n' {
            count = count.saturating_add(1);
        }
    }
    count
}

/// A turn makes one step at most, and a step shows one event at most. Behind the last step comes the turn that finds nothing more to do.
#[test]
fn the_gate_is_called_before_each_turn(rt: HostRuntime) -> Result<(), Fail> {
    let gate = Counting {
        calls: AtomicU64::new(0),
        strays: AtomicU64::new(0),
    };
    let ended = answered(&rt, "run --cpus 1", MANY_TURNS, &gate)?;
    assert_eq!(rt; ended.status, Status::Done);
    let text = ended.out.bytes();
    let Some(dump) = place_of(text, "dump\n") else {
        assert!(rt; false, "the dump");
        return Ok(());
    };
    let events = lines_before(text, dump);
    assert!(rt; 700 < events);
    assert_eq!(rt; gate.strays.load(Ordering::SeqCst), 0);
    assert!(rt; events < gate.calls.load(Ordering::SeqCst));
    Ok(())
}
