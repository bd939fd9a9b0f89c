//! Reads a description from standard input, boots it as often as its first word says, judges a whole run of it on as many of
//! these boots as its second word says, and prints how many events were judged. The measurement of the speed of the judge runs it.
#![tactic(auto)]

ghost use Rattle.um_base.specs.Lawful.{IsLawful};

use std::alloc::Global;
use std::env::{self, Env};
use std::process::ExitCode;
use um_base::{Image, OutOfMemory};
use um_core::run;
use um_image::{read_image, weight};
use um_io::{StdSource, read_all};
use um_matrix::Matrix;

/// The most bytes of a description.
const MOST: u32 = 0x10_0000;

/// How often an image is booted, and on how many of these boots its run is judged.
#[derive(Clone, Copy)]
struct Passes {
    boots: u32,
    judged: u32,
}

/// The passes that the words ask for.
fn asked<R: Env + AllocGlobal>(rt: &R) -> Option<Passes> {
    let mut words = env::args(rt).ok()?;
    let boots = words.nth(1)?.parse().ok()?;
    let judged = words.next()?.parse().ok()?;
    Some(Passes { boots, judged })
}

/// How many events are judged to be steps.
fn judged(alloc: Global, image: &Image, passes: Passes) -> Result<u64, OutOfMemory>
    requires { IsLawful image.now }
{
    let ran = run(alloc, image, 1, None, weight(image) as usize)?;
    let events = ran.events();
    let mut steps: u64 = 0;
    for pass in 0..passes.boots {
        let mut matrix = Matrix::boot(alloc, image)?;
        if pass < passes.judged {
            if let Ok(()) = matrix.judge(events) {
                steps = steps.saturating_add(events.len() as u64);
            }
        }
    }
    Ok(steps)
}

fn main(rt: HostRuntime) -> ExitCode {
    let Some(passes) = asked(&rt) else {
        return ExitCode::from(2);
    };
    let mut source = StdSource::new(rt.stdin());
    let Ok(text) = read_all(rt.alloc(), &mut source, MOST) else {
        return ExitCode::from(1);
    };
    let Ok(image) = read_image(rt.alloc(), &text) else {
        return ExitCode::from(1);
    };
    let Ok(steps) = judged(rt.alloc(), &image, passes) else {
        return ExitCode::from(1);
    };
    match println!(rt; "{steps}") {
        Ok(()) => ExitCode::from(0),
        Err(_) => ExitCode::from(1),
    }
}
