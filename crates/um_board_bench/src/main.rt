//! Makes steps on a board, or the same work on plain atomic words or under locks, in as many threads as it is asked for, and
//! prints how many steps were made. The measurement of the speed of the board runs it.
#![tactic(auto)]

mod plain;

use plain::{atomics, changes_by, exchanges_by, locks};
use std::alloc::Global;
use std::env::{self, Env};
use std::process::ExitCode;
use std::sync::Wait;
use std::thread::Threads;
use um_base::OutOfMemory;
use um_seated::{Job, words_with, worked};

/// The words of a board without cells.
const WORDS: u16 = 168;

/// What is measured: the board, plain atomic words, or words under locks.
#[derive(Clone, Copy)]
enum Kind {
    Board,
    Atomic,
    Lock,
}

/// What the words of the command ask for.
#[derive(Clone, Copy)]
struct Asked {
    kind: Kind,
    threads: u8,
    /// Whether each thread has a word of its own.
    own: bool,
    /// The steps of each thread.
    times: u32,
}

fn read_asked<R: Env + AllocGlobal>(rt: &R) -> Option<Asked> {
    let mut words = env::args(rt).ok()?;
    let kind = match words.nth(1)?.as_str() {
        "board" => Kind::Board,
        "atomic" => Kind::Atomic,
        "lock" => Kind::Lock,
        _ => return None,
    };
    let threads = words.next()?.parse().ok()?;
    let own = match words.next()?.as_str() {
        "own" => true,
        "one" => false,
        _ => return None,
    };
    let times = words.next()?.parse().ok()?;
    Some(Asked {
        kind,
        threads,
        own,
        times,
    })
}

/// How many steps were made.
fn made<R: Threads + Wait + Sync>(rt: &R, alloc: Global, asked: Asked) -> Result<u32, OutOfMemory> {
    match asked.kind {
        Kind::Board => {
            let words = words_with(alloc, WORDS, 0, 0)?;
            let job = Job::Read {
                own: asked.own,
                times: asked.times,
            };
            match worked(rt, alloc, words, job, asked.threads, 128)? {
                Some((tally, _)) => Ok(tally.steps),
                None => Ok(0),
            }
        }
        Kind::Atomic => {
            let words = atomics(alloc)?;
            let words = words.as_slice();
            Ok(exchanges_by(rt, words, asked.threads, asked.own, asked.times))
        }
        Kind::Lock => {
            let words = locks(alloc)?;
            let words = words.as_slice();
            Ok(changes_by(rt, words, asked.threads, asked.own, asked.times))
        }
    }
}

fn main(rt: HostRuntime) -> ExitCode {
    let Some(asked) = read_asked(&rt) else {
        return ExitCode::from(2);
    };
    let Ok(steps) = made(&rt, rt.alloc(), asked) else {
        return ExitCode::from(1);
    };
    match println!(rt; "{steps}") {
        Ok(()) => ExitCode::from(0),
        Err(_) => ExitCode::from(1),
    }
}
