//! Runs on several processors in one thread: what holds of every order.

use super::lines::{drops_once, place_of};
use super::{Ended, answered};
use std::sync::Wait;
use std::test::Fail;
use std::thread::Threads;
use um_app::{Status, sim_events};
use um_base::ThreadIx;
use um_image::read_image;
use um_io::NoGate;
use um_samples::{GRANT_RACE, LAST_RELEASE};

/// A run on two processors.
fn run_of<R: AllocGlobal + Threads + Wait + Sync>(
    rt: &R,
    description: &str,
    pick: u32,
) -> Result<Ended, Fail> {
    let words = format!(in rt.alloc(); "sim --cpus 2 --pick {pick}")?;
    answered(rt, &words, description, &NoGate)
}

#[test]
fn a_check_says_ok_behind_the_grant_alone(rt: HostRuntime) -> Result<(), Fail> {
    for pick in 0..32 {
        let ended = run_of(&rt, GRANT_RACE, pick)?;
        assert_eq!(rt; ended.status, Status::Done);
        let text = ended.out.bytes();
        let grant = place_of(text, "t0 grant t1 s0 ok\n");
        match place_of(text, "t1 check s0 sem init ok\n") {
            Some(check) => {
                assert!(rt; grant.is_some());
                assert!(rt; grant < Some(check));
            }
            None => {
                assert!(rt; place_of(text, "t1 check s0 sem init EPERM\n").is_some());
                assert!(rt; place_of(text, "t1 fatal 3 EPERM\n").is_some());
            }
        }
    }
    Ok(())
}

#[test]
fn one_drop_is_the_last_one(rt: HostRuntime) -> Result<(), Fail> {
    for pick in 0..32 {
        let ended = run_of(&rt, LAST_RELEASE, pick)?;
        assert_eq!(rt; ended.status, Status::Done);
        drops_once(&rt, ended.out.bytes());
    }
    Ok(())
}

#[test]
fn two_processors_go_one_after_another(rt: HostRuntime) -> Result<(), Fail> {
    let image = match read_image(rt.alloc(), GRANT_RACE.as_bytes()) {
        Ok(image) => image,
        Err(_) => return Err(Fail::new("refused")),
    };
    let events = sim_events(rt.alloc(), &image, 2, None)?;
    match events.as_slice() {
        [first, second, third, ..] => {
            assert!(rt; first.thread == ThreadIx(0));
            assert!(rt; second.thread == ThreadIx(1));
            assert!(rt; third.thread == ThreadIx(0));
        }
        _ => assert!(rt; false),
    }
    Ok(())
}
