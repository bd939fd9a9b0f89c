//! Parses the lines of standard input as often as its word says, and prints how many give an instruction and how many
//! are refused. The measurement of the speed of script lines runs it.
#![tactic(auto)]

ghost use Rattle.std.specs.Prelude.{◌≤◌, ◌-◌, ◌<◌, ◌^◌, length};

use std::env::{self, Env};
use std::process::ExitCode;
use um_io::{StdSource, read_all};
use um_script::parse_line;

/// The most bytes of the lines together.
const MOST: u32 = 0x100_0000;

/// How many lines give an instruction, and how many are refused.
#[derive(Drop)]
struct Counts {
    given: u64,
    refused: u64,
}

impl Counts {
    /// Counts one line.
    fn add(&mut self, line: &[u8])
        requires { length line.now < 2 ^ 32 - 1 }
    {
        match parse_line(line) {
            Ok(_) => self.given = self.given.saturating_add(1),
            Err(_) => self.refused = self.refused.saturating_add(1),
        }
    }

    /// Counts the lines of a text.
    fn add_lines(&mut self, text: &[u8])
        requires { length text.now ≤ 2 ^ 24 }
    {
        for line in text.split(|byte| *byte == b'\n') {
            self.add(line);
        }
    }
}

/// How often the lines are to be parsed.
fn passes<R: Env + AllocGlobal>(rt: &R) -> Option<u32> {
    let mut words = env::args(rt).ok()?;
    words.nth(1)?.parse().ok()
}

fn main(rt: HostRuntime) -> ExitCode {
    let Some(passes) = passes(&rt) else {
        return ExitCode::from(2);
    };
    let mut source = StdSource::new(rt.stdin());
    let Ok(text) = read_all(rt.alloc(), &mut source, MOST) else {
        return ExitCode::from(1);
    };
    let mut counts = Counts {
        given: 0,
        refused: 0,
    };
    for _ in 0..passes {
        counts.add_lines(&text);
    }
    match println!(rt; "{} {}", counts.given, counts.refused) {
        Ok(()) => ExitCode::from(0),
        Err(_) => ExitCode::from(1),
    }
}
