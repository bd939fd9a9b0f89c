//! The program: it hands its words and the standard streams to the top call, and ends with its status.
#![tactic(auto)]

use std::env::{self, Env};
use std::io;
use std::process::ExitCode;
use um_answers::Status;
use um_io::{StdSink, StdSource, write_all};

/// The words after the program's name: those that aren't text are no command.
fn words<R: Env + AllocGlobal>(rt: &R) -> Result<Vec<String>, Status> {
    match env::args(rt) {
        Ok(args) => match args.skip(1).collect(rt.alloc()) {
            Ok(words) => Ok(words),
            Err(_) => Err(Status::NoMemory),
        },
        Err(error) if error.kind() == io::ErrorKind::OutOfMemory => Err(Status::NoMemory),
        Err(_) => Err(Status::Usage),
    }
}

fn main(rt: HostRuntime) -> ExitCode {
    let mut err = StdSink::new(rt.stderr());
    let status = match words(&rt) {
        Ok(words) => {
            let mut source = StdSource::new(rt.stdin());
            let mut out = StdSink::new(rt.stdout());
            um_answers::explore(&rt, &words, &mut source, &mut out, &mut err)
        }
        Err(status) => {
            let _ = write_all(&mut err, status.line().as_bytes());
            status
        }
    };
    ExitCode::from(status.code())
}
