//! What the commands write.

use super::{Ended, in_pieces, is_ended};
use std::alloc::Global;
use std::process::Abort;
use std::sync::Wait;
use std::test::Fail;
use std::thread::Threads;
use um_app::Status;
use um_samples::{LAST_BYTE, LAST_BYTE_CANONICAL, LAST_BYTE_RUN, described};

/// The top of a description.
const TOP: &str = described!("");

const USAGE: &str =
    "zumode: usage: sim [--cpus N] [--pick N] | run [--cpus N] | layout | gen N | summary [--cpus N] [--pick N] | upgrade | audit\n";

/// The addresses of a partition, a thread and its stack.
const ADDRESSES: &str = "partition p 0x20000000 32 P_RW_U_RW
object a thread 0x40000000
object sa thread_stack 0x20080000 64
";

/// The counts of a store to the last byte of a partition, and a load past it.
const COUNTS: &str = "events 8
begins 2
checks 0
refused 0
fatals 1
waits 0
recycles 0
ended 1
waiting 0
";

#[test]
fn a_run_reads_and_writes_in_pieces(rt: HostRuntime) -> Result<(), Fail> {
    let alloc = rt.alloc();
    for piece in [1, 7, 4096] {
        let ended = in_pieces(&rt, "sim", LAST_BYTE.as_bytes().to_vec(alloc)?, piece)?;
        is_ended(&rt, &ended, Status::Done, LAST_BYTE_RUN.as_bytes(), b"");
    }
    Ok(())
}

/// A command over memory ends with this status, writes this, and tells this.
fn ends<R: Abort + AllocGlobal + Threads + Wait + Sync>(
    rt: &R,
    line: &str,
    input: &str,
    status: Status,
    out: &str,
    err: &str,
) -> Result<(), Fail> {
    let ended = in_pieces(rt, line, input.as_bytes().to_vec(rt.alloc())?, 64)?;
    is_ended(rt, &ended, status, out.as_bytes(), err.as_bytes());
    Ok(())
}

#[test]
fn each_command_writes_its_text(rt: HostRuntime) -> Result<(), Fail> {
    let cases = [
        ("sim --pick 7 --cpus 08", LAST_BYTE_RUN),
        ("layout", ADDRESSES),
        ("summary", COUNTS),
        ("upgrade", LAST_BYTE_CANONICAL),
        ("summary --cpus 3", COUNTS),
    ];
    for (words, text) in cases {
        ends(&rt, words, LAST_BYTE, Status::Done, text, "")?;
    }
    Ok(())
}

#[test]
fn wrong_words_are_no_command(rt: HostRuntime) -> Result<(), Fail> {
    for words in [
        "Sim",
        "sim --cpus 9",
        "gen",
        "gen 18446744073709551616",
        "layout layout",
        "run --pick 1",
    ] {
        ends(&rt, words, LAST_BYTE, Status::Usage, "", USAGE)?;
    }
    Ok(())
}

#[test]
fn a_description_without_a_thread_runs(rt: HostRuntime) -> Result<(), Fail> {
    let alloc = rt.alloc();
    let ended = in_pieces(&rt, "sim --cpus 8", TOP.as_bytes().to_vec(alloc)?, 64)?;
    assert_eq!(rt; ended.status, Status::Done);
    assert_eq!(rt; ended.out.bytes(), b"dump\n".as_slice());
    Ok(())
}

/// The counts of the run of a generated description.
fn counts_of<R: AllocGlobal + Threads + Wait + Sync>(
    rt: &R,
    alloc: Global,
    words: &str,
) -> Result<Ended, Fail> {
    let made = in_pieces(rt, words, Vec::new(alloc), 4096)?;
    let input = made.out.bytes().to_vec(alloc)?;
    in_pieces(rt, "summary --cpus 2 --pick 3", input, 4096)
}

#[test]
fn a_generated_description_runs_the_same_again(rt: HostRuntime) -> Result<(), Fail> {
    let alloc = rt.alloc();
    let first = counts_of(&rt, alloc, "gen 1")?;
    let second = counts_of(&rt, alloc, "gen 1")?;
    assert_eq!(rt; first.status, Status::Done);
    assert_eq!(rt; first.out.bytes(), second.out.bytes());
    Ok(())
}

#[test]
fn refusals_are_told(rt: HostRuntime) -> Result<(), Fail> {
    let cases = [
        ("", "zumode: refused: Version\n"),
        ("version = \"1", "zumode: refused: NotToml\n"),
        (
            "version = 1\nregions = 8\noops = \"abort\"\n",
            "zumode: refused: MissingKey mpu\n",
        ),
        (
            "version = 1\nmpu = \"pmsav7\"\nregions = 3\noops = \"abort\"\n",
            "zumode: refused: Limit regions 4 regions\n",
        ),
    ];
    for (input, line) in cases {
        for words in ["sim", "layout", "summary --pick 1"] {
            ends(&rt, words, input, Status::Refused, "", line)?;
        }
    }
    Ok(())
}

#[test]
fn one_byte_past_the_greatest_length_is_refused(rt: HostRuntime) -> Result<(), Fail> {
    let alloc = rt.alloc();
    let ended = in_pieces(&rt, "sim", vec![in alloc; b'#'; 1_048_576]?, 4096)?;
    assert_eq!(rt; ended.status, Status::Refused);
    assert_eq!(rt; ended.err.bytes(), b"zumode: refused: Version\n".as_slice());
    let ended = in_pieces(&rt, "sim", vec![in alloc; b'#'; 1_048_577]?, 4096)?;
    is_ended(
        &rt,
        &ended,
        Status::TooLong,
        b"",
        b"zumode: input too long\n",
    );
    Ok(())
}
