//! Lines of events over a small image, as worked examples show them.

use super::are_told;
use std::test::Fail;
use um_base::{
    Access, Act, Addr, Answer, Attr, Cause, Errno, Event, Found, Given, Kind, Leftover, Range,
    Replies, Reply, Row, SetSaid, ThreadIx, Want,
};
use um_trace::text_room;

#[test]
fn acts_of_threads_are_shown(rt: HostRuntime) -> Result<(), Fail> {
    let acts = [
        Act::Begin { script: 0, line: 1 },
        Act::Resume,
        Act::Answered { reply: Reply::Null },
        Act::Named { who: ThreadIx(1) },
        Act::Start { who: ThreadIx(28) },
        Act::EnterUser,
        Act::Fatal {
            reason: 3,
            cause: Cause::Refused(Errno::EPERM),
        },
        Act::Fatal {
            reason: 0,
            cause: Cause::Access,
        },
        Act::Doom { who: ThreadIx(31) },
        Act::Exit,
    ];
    are_told(
        &rt,
        &acts,
        "a begin m 1\na resume\na reply NULL\na name b\na start #0\na user\na fatal 3 EPERM\na fatal 0 access\na doom 31\na exit\n",
    )
}

#[test]
fn acts_on_domains_and_pairs_are_shown(rt: HostRuntime) -> Result<(), Fail> {
    let range = Range {
        start: Addr(0x2000_0000),
        size: 32,
    };
    let attr = Attr::P_RW_U_RW;
    let acts = [
        Act::DomInit {
            domain: 0,
            reply: Reply::Num(0),
        },
        Act::DomAdd {
            domain: 0,
            range,
            attr,
            reply: Reply::Fail(Errno::ENOSPC),
        },
        Act::DomRemove {
            domain: 0,
            range,
            attr,
            reply: Reply::Num(0),
        },
        Act::DomMove {
            domain: 0,
            who: ThreadIx(1),
            reply: Reply::Num(0),
        },
        Act::Grant {
            who: ThreadIx(1),
            addr: Addr(0x4800_0400),
            given: Given::Done,
        },
        Act::Own {
            who: ThreadIx(1),
            given: Given::Gone,
        },
        Act::Inherit {
            who: ThreadIx(1),
            addr: Addr(0x2008_0040),
        },
        Act::DropPair {
            who: ThreadIx(0),
            addr: Addr(0x4000_0000),
            left: Leftover::Kept,
        },
        Act::DropPair {
            who: ThreadIx(1),
            addr: Addr(0x4800_0400),
            left: Leftover::Gone,
        },
    ];
    are_told(
        &rt,
        &acts,
        "a domain init d 0\na domain add d 0x20000000/32/P_RW_U_RW ENOSPC\na domain remove d 0x20000000/32/P_RW_U_RW 0\na domain move d b 0\na grant b #16 ok\na own b gone\na inherit b sb\na drop a a kept\na drop b #16 gone\n",
    )
}

#[test]
fn acts_on_objects_are_shown(rt: HostRuntime) -> Result<(), Fail> {
    let s = Addr(0x4000_0100);
    let dynamic = Addr(0x4800_0100);
    let kind = Some(Kind::Sem);
    let mut woken = Replies::new();
    woken.push(ThreadIx(1), Reply::Num(0));
    let acts = [
        Act::Check {
            addr: s,
            kind,
            want: Want::Init,
            verdict: Some(Errno::EPERM),
        },
        Act::Check {
            addr: Addr(0),
            kind: None,
            want: Want::Any,
            verdict: None,
        },
        Act::Work {
            addr: s,
            answer: Answer::Wait,
            woken: Replies::new(),
        },
        Act::Work {
            addr: s,
            answer: Answer::Now(Reply::Void),
            woken,
        },
        Act::Publish {
            addr: s,
            given: Given::Done,
        },
        Act::SetInit {
            addr: dynamic,
            set: SetSaid::Done,
        },
        Act::SetInit {
            addr: s,
            set: SetSaid::Fail(Errno::EADDRINUSE),
        },
        Act::ClearInit {
            addr: Addr(0x2008_0000),
        },
        Act::Reserve {
            kind: Kind::Sem,
            addr: Some(dynamic),
        },
        Act::Reserve {
            kind: Kind::Msgq,
            addr: None,
        },
        Act::Born { addr: dynamic },
        Act::Buffer {
            size: 8,
            fits: false,
        },
        Act::Unbuffer { size: 8 },
        Act::Recycle { addr: dynamic },
    ];
    are_told(
        &rt,
        &acts,
        "a check s sem init EPERM\na check 0x00000000 any any ok\na act s wait\na act s void wake b 0\na public s ok\na setinit #4 ok\na setinit s EADDRINUSE\na uninit sa\na reserve sem #4\na reserve msgq NULL\na born #4\na buffer 8 ENOMEM\na unbuffer 8\na recycle #4\n",
    )
}

#[test]
fn acts_on_memory_are_shown(rt: HostRuntime) -> Result<(), Fail> {
    let acts = [
        Act::Load {
            addr: Addr(0x2000_0000),
            size: 4,
            value: 0,
        },
        Act::Store {
            addr: Addr(0x2000_001f),
            size: 1,
            value: 0xab,
        },
        Act::Fetch {
            addr: Addr(0x0800_0000),
        },
        Act::Fault {
            access: Access::Read,
            addr: Addr(0x2000_0020),
            size: 1,
        },
        Act::Probe {
            addr: Addr(0x2000_0000),
            size: 4,
            fits: true,
        },
        Act::CopyIn {
            addr: Addr(0xdead_0000),
            size: 0,
            fits: true,
        },
        Act::CopyOut {
            addr: Addr(0x2000_0000),
            size: 4,
            fits: false,
        },
        Act::CopyStr {
            addr: Addr(0x0800_0000),
            found: Found::Length(6),
        },
        Act::CopyStr {
            addr: Addr(0x0800_0000),
            found: Found::TooLong,
        },
        Act::Erase { stack: Row(1) },
    ];
    are_told(
        &rt,
        &acts,
        "a load 0x20000000 4 0x0\na store 0x2000001f 1 0xab\na exec 0x08000000\na fault read 0x20000020 1\na probe 0x20000000 4 ok\na copyin 0xdead0000 0 ok\na copyout 0x20000000 4 EFAULT\na copystr 0x08000000 6\na copystr 0x08000000 toolong\na erase sa\n",
    )
}

#[test]
fn acts_of_time_are_shown(rt: HostRuntime) -> Result<(), Fail> {
    let timer = Addr(0x4000_0140);
    let mut woken = Replies::new();
    woken.push(ThreadIx(1), Reply::Num(1));
    let acts = [
        Act::Arm { deadline: 5 },
        Act::Tick { now: 5_000_000_000 },
        Act::TimedOut { who: ThreadIx(1) },
        Act::Expire {
            addr: timer,
            woken: Replies::new(),
        },
        Act::Expire { addr: timer, woken },
    ];
    are_told(
        &rt,
        &acts,
        "a arm 5\na tick 5000000000\na timeout b\na expire w\na expire w wake b 1\n",
    )
}

#[test]
fn acts_that_stop_threads_are_shown(rt: HostRuntime) -> Result<(), Fail> {
    let b = ThreadIx(1);
    let mut woken = Replies::new();
    woken.push(b, Reply::Num(0));
    let acts = [
        Act::Abort { who: b, done: true },
        Act::Abort {
            who: b,
            done: false,
        },
        Act::Suspend { who: b, done: true },
        Act::Continue {
            who: ThreadIx(28),
            done: false,
        },
        Act::Cut { who: b },
        Act::Killed,
        Act::Join {
            who: b,
            answer: Answer::Wait,
        },
        Act::Join {
            who: ThreadIx(0),
            answer: Answer::Now(Reply::Fail(Errno::EDEADLK)),
        },
        Act::Join {
            who: b,
            answer: Answer::Now(Reply::Num(0)),
        },
        Act::Left {
            who: ThreadIx(0),
            woken,
        },
    ];
    are_told(
        &rt,
        &acts,
        "a abort b ok\na abort b none\na suspend b ok\na continue #0 none\na cut b\na killed\na join b wait\na join a EDEADLK\na join b 0\na left a wake b 0\n",
    )
}

#[test]
fn acts_on_futexes_are_shown(rt: HostRuntime) -> Result<(), Fail> {
    let addr = Addr(0x2000_0000);
    let mut woken = Replies::new();
    woken.push(ThreadIx(1), Reply::Num(0));
    let acts = [
        Act::FutexWait {
            addr,
            value: 1,
            answer: Answer::Now(Reply::Fail(Errno::EAGAIN)),
        },
        Act::FutexWait {
            addr,
            value: 0,
            answer: Answer::Wait,
        },
        Act::FutexWake {
            addr,
            answer: Answer::Now(Reply::Num(1)),
            woken,
        },
        Act::FutexWake {
            addr,
            answer: Answer::Now(Reply::Fail(Errno::EACCES)),
            woken: Replies::new(),
        },
    ];
    are_told(
        &rt,
        &acts,
        "a futex wait 0x20000000 0x1 EAGAIN\na futex wait 0x20000000 0x0 wait\na futex wake 0x20000000 1 wake b 0\na futex wake 0x20000000 EACCES\n",
    )
}

#[test]
fn a_text_has_room_for_its_events(rt: HostRuntime) {
    let mut woken = Replies::new();
    woken.push(ThreadIx(1), Reply::Num(0));
    let act = Act::Work {
        addr: Addr(0x4000_0100),
        answer: Answer::Wait,
        woken,
    };
    let events = [
        Event {
            thread: ThreadIx(0),
            act: Act::Exit,
        },
        Event {
            thread: ThreadIx(0),
            act,
        },
    ];
    assert_eq!(rt; text_room(&events), 3_000_000 + 128 + 192);
}
