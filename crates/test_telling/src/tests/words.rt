//! Numbers and words, as lines show them.

use super::are_told;
use std::process::Abort;
use std::test::Fail;
use um_base::{Act, Addr, Attr, Cause, Errno, Kind, Leftover, Range, Reply, ThreadIx, Want};

/// The line of an act, after its thread and a space.
fn is_told<R: Abort + AllocGlobal>(rt: &R, act: Act, want: &str) -> Result<(), Fail> {
    let wanted = format!(in rt.alloc(); "a {want}\n")?;
    are_told(rt, &[act], &wanted)
}

#[test]
fn numbers_are_shown(rt: HostRuntime) -> Result<(), Fail> {
    for (n, address, value, decimal) in [
        (0, "0x00000000", "0x0", "0"),
        (9, "0x00000009", "0x9", "9"),
        (10, "0x0000000a", "0xa", "10"),
        (0x100, "0x00000100", "0x100", "256"),
        (0x2008_0000, "0x20080000", "0x20080000", "537395200"),
        (0xdead_beef, "0xdeadbeef", "0xdeadbeef", "3735928559"),
        (u32::MAX, "0xffffffff", "0xffffffff", "4294967295"),
    ] {
        let load = Act::Load {
            addr: Addr(n),
            size: 4,
            value: n,
        };
        let loaded = format!(in rt.alloc(); "load {address} 4 {value}")?;
        is_told(&rt, load, &loaded)?;
        let answer = Act::Answered {
            reply: Reply::Num(n),
        };
        let answered = format!(in rt.alloc(); "reply {decimal}")?;
        is_told(&rt, answer, &answered)?;
    }
    Ok(())
}

/// The line of a check of the address 0, for this kind and with this verdict, each with its word.
fn is_checked<R: Abort + AllocGlobal>(
    rt: &R,
    kind: (Option<Kind>, &str),
    verdict: (Option<Errno>, &str),
) -> Result<(), Fail> {
    let check = Act::Check {
        addr: Addr(0),
        kind: kind.0,
        want: Want::Any,
        verdict: verdict.0,
    };
    let told = format!(in rt.alloc(); "check 0x00000000 {} any {}", kind.1, verdict.1)?;
    is_told(rt, check, &told)
}

#[test]
fn errors_and_kinds_are_shown(rt: HostRuntime) -> Result<(), Fail> {
    for error in [
        (None, "ok"),
        (Some(Errno::EPERM), "EPERM"),
        (Some(Errno::EBADF), "EBADF"),
        (Some(Errno::EINVAL), "EINVAL"),
        (Some(Errno::EADDRINUSE), "EADDRINUSE"),
        (Some(Errno::EFAULT), "EFAULT"),
        (Some(Errno::EBUSY), "EBUSY"),
        (Some(Errno::EAGAIN), "EAGAIN"),
        (Some(Errno::ENOMEM), "ENOMEM"),
        (Some(Errno::ENOMSG), "ENOMSG"),
        (Some(Errno::ENOSPC), "ENOSPC"),
        (Some(Errno::ENOENT), "ENOENT"),
        (Some(Errno::EPIPE), "EPIPE"),
        (Some(Errno::ECANCELED), "ECANCELED"),
    ] {
        is_checked(&rt, (None, "any"), error)?;
    }
    for kind in [
        (Some(Kind::Thread), "thread"),
        (Some(Kind::ThreadStack), "thread_stack"),
        (Some(Kind::Sem), "sem"),
        (Some(Kind::Mutex), "mutex"),
        (Some(Kind::Msgq), "msgq"),
        (Some(Kind::Stack), "stack"),
        (Some(Kind::Pipe), "pipe"),
    ] {
        is_checked(&rt, kind, (None, "ok"))?;
    }
    Ok(())
}

#[test]
fn attributes_leftovers_and_causes_are_shown(rt: HostRuntime) -> Result<(), Fail> {
    for (attr, want) in [
        (Attr::P_RW_U_RW, "P_RW_U_RW"),
        (Attr::P_RW_U_RO, "P_RW_U_RO"),
        (Attr::P_RW_U_NA, "P_RW_U_NA"),
        (Attr::P_RO_U_RO, "P_RO_U_RO"),
        (Attr::P_RO_U_NA, "P_RO_U_NA"),
        (Attr::P_RX_U_RX, "P_RX_U_RX"),
        (Attr::P_RWX_U_RWX, "P_RWX_U_RWX"),
    ] {
        let add = Act::DomAdd {
            domain: 0,
            range: Range {
                start: Addr(0x2000_0000),
                size: 32,
            },
            attr,
            reply: Reply::Num(0),
        };
        let told = format!(in rt.alloc(); "domain add d 0x20000000/32/{want} 0")?;
        is_told(&rt, add, &told)?;
    }
    let drop = Act::DropPair {
        who: ThreadIx(0),
        addr: Addr(0x4000_0000),
        left: Leftover::NoPair,
    };
    is_told(&rt, drop, "drop a a none")?;
    let fatal = Act::Fatal {
        reason: 0,
        cause: Cause::PriorityHigher,
    };
    is_told(&rt, fatal, "fatal 0 priority_higher")
}
