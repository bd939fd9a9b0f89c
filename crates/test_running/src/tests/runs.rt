//! Runs: what holds of every order.

ghost use Rattle.um_base.specs.Lawful.{IsLawful};

use super::answered;
use super::gates::{Hold, Meeting};
use super::lines::{drops_once, place_of};
use std::alloc::Global;
use std::sync::Wait;
use std::test::Fail;
use std::thread::Threads;
use um_app::Status;
use um_base::Image;
use um_cpu::{Ran, run_events};
use um_image::{read_image, weight};
use um_io::NoGate;
use um_matrix::Matrix;
use um_samples::{FUTEX_WAKE, INHERITANCE, LAST_BYTE, LAST_RELEASE, LATER_LIFE};

/// How often a description is run. In the run of number k processor 1 begins when processor 0 has come to step k.
const RUNS: u64 = 20;

#[test]
fn one_thread_writes_what_sim_writes(rt: HostRuntime) -> Result<(), Fail> {
    for description in [LAST_BYTE, INHERITANCE] {
        let run = answered(&rt, "run --cpus 1", description, &NoGate)?;
        let sim = answered(&rt, "sim", description, &NoGate)?;
        assert_eq!(rt; run.status, Status::Done);
        assert_eq!(rt; sim.status, Status::Done);
        assert_eq!(rt; run.out.bytes(), sim.out.bytes());
        assert!(rt; run.board);
        assert!(rt; !sim.board);
    }
    Ok(())
}

#[test]
fn one_of_two_releases_is_the_last_one(rt: HostRuntime) -> Result<(), Fail> {
    for k in 0..RUNS {
        let gate = Meeting::behind(k);
        let ended = answered(&rt, "run --cpus 2", LAST_RELEASE, &gate)?;
        assert_eq!(rt; ended.status, Status::Done);
        assert!(rt; gate.has_met());
        drops_once(&rt, ended.out.bytes());
    }
    Ok(())
}

/// Whether the events of a run on two processors are those of a complete run.
fn is_complete<R: Threads + Wait + Sync>(
    rt: &R,
    alloc: Global,
    image: &Image,
    gate: &Meeting,
) -> Result<bool, Fail>
    requires { IsLawful image.now }
{
    let Ran { events, closed } = run_events(rt, alloc, image, 2, weight(image) as usize, gate)?;
    closed.free();
    let mut judge = Matrix::boot(alloc, image)?;
    Ok(judge.judge(events.as_slice()).is_ok() && judge.is_final())
}

#[test]
fn a_judge_accepts_the_events(rt: HostRuntime) -> Result<(), Fail> {
    let alloc = rt.alloc();
    for description in [LAST_RELEASE, FUTEX_WAKE] {
        let image = match read_image(alloc, description.as_bytes()) {
            Ok(image) => image,
            Err(_) => return Err(Fail::new("refused")),
        };
        for k in 0..RUNS {
            assert!(rt; is_complete(&rt, alloc, &image, &Meeting::behind(k))?);
        }
    }
    Ok(())
}

/// A hold of a processor before its turn of this number, until the other one has come to that turn.
fn hold(cpu: u32, turn: u64, other: u32, until: u64) -> Hold {
    Hold {
        cpu,
        turn,
        other,
        until,
    }
}

/// Processor 0 has thread `b` wait in 7 turns. Processor 1 then aborts it, and is held before its look, while processor 2 makes all other steps:
/// `b` is woken, ends, is created again and waits in the same place. The look finds nobody.
#[test]
fn a_look_finds_nobody_of_a_later_life(rt: HostRuntime) -> Result<(), Fail> {
    let gate = Meeting::new([
        hold(1, 0, 0, 7),
        hold(2, 0, 1, 4),
        hold(0, 7, 2, 400),
        hold(1, 4, 2, 400),
    ]);
    let ended = answered(&rt, "run --cpus 3", LATER_LIFE, &gate)?;
    assert_eq!(rt; ended.status, Status::Done);
    assert!(rt; gate.has_met());
    let text = ended.out.bytes();
    for line in [
        "a abort b ok\n",
        "b killed\n",
        "c start b\n",
        "a reply void\n",
        "thread b waits:s supervisor 0 d\n",
    ] {
        assert!(rt; place_of(text, line).is_some(), "{line}");
    }
    assert!(rt; place_of(text, "a cut b\n").is_none());
    Ok(())
}
