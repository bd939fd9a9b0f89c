//! Which words are which command.

use super::*;
use std::alloc::Global;
use std::test::Fail;

fn read(alloc: Global, words: &[&str]) -> Result<Option<Command>, Fail> {
    let mut owned = Vec::new(alloc);
    for word in words {
        owned.push(String::from_str(alloc, *word)?)?;
    }
    Ok(read_command(&owned))
}

fn sim(cpus: u8, pick: Option<u64>) -> Option<Command> {
    Some(Command::Sim(Options { cpus, pick }))
}

fn generated(number: u64) -> Option<Command> {
    Some(Command::Gen { number })
}

#[test]
fn words_are_commands(rt: HostRuntime) -> Result<(), Fail> {
    let all_options: &[&str] = &["summary", "--cpus", "4", "--pick", "18446744073709551615"];
    let summary = Options {
        cpus: 4,
        pick: Some(18_446_744_073_709_551_615),
    };
    let cases: [(&[&str], Option<Command>); 13] = [
        (&["run"], Some(Command::Run { cpus: 1 })),
        (&["run", "--cpus", "4"], Some(Command::Run { cpus: 4 })),
        (&["sim"], sim(1, None)),
        (&["sim", "--cpus", "8"], sim(8, None)),
        (&["sim", "--pick", "7", "--cpus", "08"], sim(8, Some(7))),
        (&["sim", "--pick", "0", "--cpus", "1"], sim(1, Some(0))),
        (all_options, Some(Command::Summary(summary))),
        (&["layout"], Some(Command::Layout)),
        (&["upgrade"], Some(Command::Upgrade)),
        (&["audit"], Some(Command::Audit)),
        (&["gen", "5"], generated(5)),
        (&["gen", "00000000000000000007"], generated(7)),
        (
            &["gen", "18446744073709551615"],
            generated(18_446_744_073_709_551_615),
        ),
    ];
    for (words, command) in cases {
        assert_eq!(rt; read(rt.alloc(), words)?, command);
    }
    Ok(())
}

#[test]
fn wrong_words_are_no_commands(rt: HostRuntime) -> Result<(), Fail> {
    let cases: [&[&str]; 29] = [
        &[],
        &["sim", "--cpus", "9"],
        &["sim", "--cpus", "0"],
        &["sim", "--cpus=4"],
        &["sim", "--cpus", "1", "--cpus", "1"],
        &["sim", "--pick", "1", "--pick", "1"],
        &["sim", "--cpus"],
        &["sim", "--"],
        &["sim", "1"],
        &["sim", "--cpus", "--pick"],
        &["gen"],
        &["gen", "5", "6"],
        &["gen", "-1"],
        &["gen", "18446744073709551616"],
        &["gen", "000000000000000000001"],
        &["gen", ""],
        &["layout", "x"],
        &["upgrade", "x"],
        &["upgrade", "--cpus", "1"],
        &["audit", "x"],
        &["audit", "--cpus", "1"],
        &["layout", "--cpus", "1"],
        &["run", "1"],
        &["run", "--pick", "1"],
        &["run", "--cpus", "2", "--pick", "1"],
        &["Sim"],
        &["sim "],
        &["--cpus", "1", "sim"],
        &["gen", "+5"],
    ];
    for words in cases {
        assert_eq!(rt; read(rt.alloc(), words)?, None);
    }
    Ok(())
}
