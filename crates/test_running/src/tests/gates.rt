//! Processors that are held at gates, which shows that each is a thread of its own.

use super::lines::place_of;
use super::{Ended, answered};
use std::hint::spin_loop;
use std::sync::Wait;
use std::sync::atomic::{AtomicU64, Ordering};
use std::test::Fail;
use std::thread::Threads;
use um_app::Status;
use um_io::Gate;
use um_samples::GRANT_RACE;

/// How many turns the processors are held in all.
const MOST_TURNS: u64 = 100_000_000;

/// The turn of a hold that isn't there.
const NEVER: u64 = u64::MAX;

/// A processor is held before its turn of this number, until the gate was called for another one with that one's turn.
#[derive(Clone, Copy)]
pub struct Hold {
    pub cpu: u32,
    pub turn: u64,
    pub other: u32,
    pub until: u64,
}

impl Hold {
    /// No hold.
    pub fn none() -> Hold {
        Hold {
            cpu: 0,
            turn: NEVER,
            other: 0,
            until: 0,
        }
    }
}

/// A gate for up to three processors, which holds them up to four times.
#[derive(Drop)]
pub struct Meeting {
    holds: [Hold; 4],
    /// For each processor, how many calls have come.
    calls: [AtomicU64; 3],
    /// How many turns they were held.
    turns: AtomicU64,
}

impl Meeting {
    pub fn new(holds: [Hold; 4]) -> Meeting {
        Meeting {
            holds,
            calls: [AtomicU64::new(0), AtomicU64::new(0), AtomicU64::new(0)],
            turns: AtomicU64::new(0),
        }
    }

    /// A gate for two processors, with a hold of each: before its turn of this number, until the other one has come to that turn.
    fn of_two(zero: (u64, u64), one: (u64, u64)) -> Meeting {
        let zero = Hold {
            cpu: 0,
            turn: zero.0,
            other: 1,
            until: zero.1,
        };
        let one = Hold {
            cpu: 1,
            turn: one.0,
            other: 0,
            until: one.1,
        };
        Meeting::new([zero, one, Hold::none(), Hold::none()])
    }

    /// A gate that holds processor 1 at its first call until processor 0 has come to this turn.
    pub fn behind(turn: u64) -> Meeting {
        Meeting::of_two((NEVER, 0), (0, turn))
    }

    /// Whether the gate was called for a processor with this turn.
    fn has_come(&self, cpu: u32, turn: u64) -> bool {
        match self.calls.get(cpu as usize) {
            Some(calls) => turn < calls.load(Ordering::SeqCst),
            None => false,
        }
    }

    /// Holds the caller until the other processor has come, or all turns are used up.
    fn hold(&self, hold: Hold) {
        for _ in 0..MOST_TURNS {
            if self.has_come(hold.other, hold.until)
                || self.turns.fetch_add(1, Ordering::SeqCst) >= MOST_TURNS
            {
                return;
            }
            spin_loop();
        }
    }

    /// Whether each processor came to its holds, and no hold ended because its turns were used up.
    pub fn has_met(&self) -> bool {
        for hold in &self.holds {
            if hold.turn != NEVER && !self.has_come(hold.cpu, hold.turn) {
                return false;
            }
        }
        self.turns.load(Ordering::SeqCst) < MOST_TURNS
    }
}

impl Gate for Meeting {
    fn pause(&self, cpu: u32, step: u64) {
        if let Some(calls) = self.calls.get(cpu as usize) {
            calls.store(step.saturating_add(1), Ordering::SeqCst);
        }
        for hold in &self.holds {
            if hold.cpu == cpu && hold.turn == step {
                self.hold(*hold);
            }
        }
    }
}

/// The race of a grant and a check on two processors.
fn race<R: AllocGlobal + Threads + Wait + Sync>(rt: &R, gate: &Meeting) -> Result<Ended, Fail> {
    answered(rt, "run --cpus 2", GRANT_RACE, gate)
}

#[test]
fn each_processor_waits_for_the_other(rt: HostRuntime) -> Result<(), Fail> {
    let gate = Meeting::of_two((0, 0), (0, 0));
    let ended = race(&rt, &gate)?;
    assert_eq!(rt; ended.status, Status::Done);
    assert!(rt; gate.has_met());
    Ok(())
}

/// The place of the check by the thread on processor 1, if it is made while processor 0 is held before its step with this number. Processor
/// 0 takes a thread, begins a line, checks the target of the grant, checks the object, and grants, each in one step. Then it runs its
/// thread on, while the other processor has nothing left to run and asks again and again.
#[test]
fn a_check_stands_where_it_was_made(rt: HostRuntime) -> Result<(), Fail> {
    let refused = "t1 check s0 sem init EPERM\n";
    let passed = "t1 check s0 sem init ok\n";
    let check = "t0 check s0 any any ok\n";
    let grant = "t0 grant t1 s0 ok\n";
    for (step, lines) in [
        (3, [refused, check, grant]),
        (4, [check, refused, grant]),
        (5, [check, grant, passed]),
    ] {
        let gate = Meeting::of_two((step, 400), (0, step));
        let ended = race(&rt, &gate)?;
        assert_eq!(rt; ended.status, Status::Done);
        assert!(rt; gate.has_met(), "step {step}");
        let text = ended.out.bytes();
        let [first, second, third] = lines;
        let first = place_of(text, first);
        assert!(rt; first.is_some(), "step {step}");
        assert!(rt; first < place_of(text, second), "step {step}");
        assert!(rt;
            place_of(text, second) < place_of(text, third),
            "step {step}"
        );
    }
    Ok(())
}
