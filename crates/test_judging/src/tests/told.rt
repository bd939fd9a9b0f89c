//! Verdicts are told as lines.

use std::test::Fail;
use um_audit::{Verdict, verdict_text};

#[test]
fn verdicts_are_told_as_lines(rt: HostRuntime) -> Result<(), Fail> {
    for (verdict, line) in [
        (Verdict::Yes, "yes\n"),
        (Verdict::NoStep { line: 3 }, "no step 3\n"),
        (Verdict::NotComplete, "not complete\n"),
        (
            Verdict::NoDump {
                line: 4_294_967_295,
            },
            "no dump 4294967295\n",
        ),
    ] {
        let told = verdict_text(rt.alloc(), verdict)?;
        assert_eq!(rt; told.as_slice(), line.as_bytes());
    }
    Ok(())
}
