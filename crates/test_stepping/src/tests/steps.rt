//! A grant that was checked before the last pair was revoked: it says that the object is gone.

ghost use Rattle.std.specs.Prelude.{◌≡◌, ◌<◌, ◌≤◌, ◌+◌, ◌*◌, IfOk, [], ◌∷◌, length, false, Some, None, pos, codes};
ghost use Rattle.um_base.specs.{
  declared.limits.TheConstants.{STACK_AREA, OBJECTS},
  declared.instr.Instr.{Instr},
  Lawful.{IsLawful},
};

use std::alloc::Global;
use std::process::Abort;
use std::test::Fail;
use um_base::{
    Act, Addr, BOOTS, Boot, BoundedVec, DomainDef, Errno, Event, Given, Image, Instr, Kind, LINES,
    Leftover, Mode, Mpu, Name, OBJECTS, ObjectDef, OutOfMemory, Policy, Pool, Range, Reply, Row,
    SCRIPTS, STACK_AREA, STATIC_ROWS, Script, Setup, Term, ThreadIx, Want,
};
use um_machine::Life;
use um_matrix::Matrix;

/// The threads a, b and c, and the stacks of a and c.
const A: Addr = Addr(0x4000_0000);

const B: Addr = Addr(0x4000_0080);

const C: Addr = Addr(0x4000_0100);

const STACK_OF_A: Addr = Addr(0x2008_0000);

const STACK_OF_C: Addr = Addr(0x2008_0080);

/// The semaphore that a allocates.
const SEM: Addr = Addr(0x4800_0100);

/// The list of one item.
fn sole<T: Drop, const MOST: usize>(
    alloc: Global,
    item: T,
) -> Result<BoundedVec<T, MOST>, OutOfMemory>
    requires { 0 < MOST }
    ensures { IfOk result (λ list. list ≡ item ∷ []) }
{
    let mut list = BoundedVec::new(alloc);
    list.push(item)?;
    Ok(list)
}

/// The list of two items.
fn both<T: Drop, const MOST: usize>(
    alloc: Global,
    first: T,
    second: T,
) -> Result<BoundedVec<T, MOST>, OutOfMemory>
    requires { 1 < MOST }
    ensures { IfOk result (λ list. list ≡ first ∷ second ∷ []) }
{
    let mut list = BoundedVec::new(alloc);
    list.push(first)?;
    list.push(second)?;
    Ok(list)
}

fn thread(name: &[u8], index: u8) -> ObjectDef
    requires short { length name.now ≤ 24 }
    requires few { index < 3 }
    ensures { result ≡ record {
      name = name.now;
      kind = Kind.Thread;
      addr = record { 0 = OBJECTS + 128 * index };
      public = false;
      setup = Setup.Thread (record { 0 = index });
    } }
{
    ObjectDef {
        name: Name::from_bytes(name),
        kind: Kind::Thread,
        addr: Addr(OBJECTS + 128 * index as u32),
        public: false,
        setup: Setup::Thread {
            index: ThreadIx(index),
        },
    }
}

/// A stack of 64 bytes.
fn stack(name: &[u8], index: u8) -> ObjectDef
    requires short { length name.now ≤ 24 }
    requires few { index < 3 }
    ensures { result ≡ record {
      name = name.now;
      kind = Kind.ThreadStack;
      addr = record { 0 = STACK_AREA + 64 * index };
      public = false;
      setup = Setup.ThreadStack (record { start = record { 0 = STACK_AREA + 64 * index }; size = 64 }) 64;
    } }
{
    let range = Range {
        start: Addr(STACK_AREA + 64 * index as u32),
        size: 64,
    };
    ObjectDef {
        name: Name::from_bytes(name),
        kind: Kind::ThreadStack,
        addr: range.start,
        public: false,
        setup: Setup::ThreadStack {
            range,
            declared: 64,
        },
    }
}

/// Three threads, each with its stack.
fn objects(alloc: Global) -> Result<BoundedVec<ObjectDef, STATIC_ROWS>, OutOfMemory>
    ensures { IfOk result (λ list. list
        ≡ record {
          name = codes "a";
          kind = Kind.Thread;
          addr = record { 0 = 0x40000000 };
          public = false;
          setup = Setup.Thread (record { 0 = 0 });
        }
        ∷ record {
          name = codes "sa";
          kind = Kind.ThreadStack;
          addr = record { 0 = 0x20080000 };
          public = false;
          setup = Setup.ThreadStack
              (record { start = record { 0 = 0x20080000 }; size = 64 }) 64;
        }
        ∷ record {
          name = codes "b";
          kind = Kind.Thread;
          addr = record { 0 = 0x40000080 };
          public = false;
          setup = Setup.Thread (record { 0 = 1 });
        }
        ∷ record {
          name = codes "sb";
          kind = Kind.ThreadStack;
          addr = record { 0 = 0x20080040 };
          public = false;
          setup = Setup.ThreadStack
              (record { start = record { 0 = 0x20080040 }; size = 64 }) 64;
        }
        ∷ record {
          name = codes "c";
          kind = Kind.Thread;
          addr = record { 0 = 0x40000100 };
          public = false;
          setup = Setup.Thread (record { 0 = 2 });
        }
        ∷ record {
          name = codes "sc";
          kind = Kind.ThreadStack;
          addr = record { 0 = 0x20080080 };
          public = false;
          setup = Setup.ThreadStack
              (record { start = record { 0 = 0x20080080 }; size = 64 }) 64;
        }
        ∷ []) }
{
    let mut list = BoundedVec::new(alloc);
    list.push(thread(b"a", 0))?;
    list.push(stack(b"sa", 0))?;
    list.push(thread(b"b", 1))?;
    list.push(stack(b"sb", 1))?;
    list.push(thread(b"c", 2))?;
    list.push(stack(b"sc", 2))?;
    Ok(list)
}

/// The user a with a pool and a pair with b, and the supervisor c. Nobody starts b.
fn boots(alloc: Global) -> Result<BoundedVec<Boot, BOOTS>, OutOfMemory>
    ensures { IfOk result (λ list. list
        ≡ record {
          thread = record { 0 = 0 };
          stack = record { 0 = 1 };
          script = 0;
          mode = Mode.User;
          priority = pos 0;
          domain = 0;
          pool = Some 0;
          grants = record { 0 = 2 } ∷ [];
        }
        ∷ record {
          thread = record { 0 = 4 };
          stack = record { 0 = 5 };
          script = 1;
          mode = Mode.Supervisor;
          priority = pos 0;
          domain = 0;
          pool = None;
          grants = [];
        }
        ∷ []) }
{
    let user = Boot {
        thread: Row(0),
        stack: Row(1),
        script: 0,
        mode: Mode::User,
        priority: 0,
        domain: 0,
        pool: Some(0),
        grants: sole(alloc, Row(2))?,
    };
    let supervisor = Boot {
        thread: Row(4),
        stack: Row(5),
        script: 1,
        mode: Mode::Supervisor,
        priority: 0,
        domain: 0,
        pool: None,
        grants: BoundedVec::new(alloc),
    };
    both(alloc, user, supervisor)
}

/// Allocates a semaphore, and grants it to b.
fn grants(alloc: Global) -> Result<BoundedVec<Instr, LINES>, OutOfMemory>
    ensures { IfOk result
        (λ lines. lines ≡ Instr.ObjectAlloc Kind.Sem 0 ∷ Instr.Grant (Term.Reg 0) (Term.Num 0x40000080)
        ∷ []) }
{
    let mut lines: BoundedVec<Instr, LINES> = BoundedVec::new(alloc);
    lines.push_copy(&Instr::ObjectAlloc {
        kind: Kind::Sem,
        to: 0,
    })?;
    lines.push_copy(&Instr::Grant {
        object: Term::Reg(0),
        thread: Term::Num(B.0),
    })?;
    Ok(lines)
}

/// Revokes it from a.
fn revokes(alloc: Global) -> Result<BoundedVec<Instr, LINES>, OutOfMemory>
    ensures { IfOk result (λ lines. lines ≡ Instr.Revoke (Term.Num 0x48000100) (Term.Num 0x40000000) ∷ []) }
{
    let mut lines: BoundedVec<Instr, LINES> = BoundedVec::new(alloc);
    lines.push_copy(&Instr::Revoke {
        object: Term::Num(SEM.0),
        thread: Term::Num(A.0),
    })?;
    Ok(lines)
}

fn scripts(alloc: Global) -> Result<BoundedVec<Script, SCRIPTS>, OutOfMemory>
    ensures { IfOk result (λ list. list
        ≡ record {
          name = codes "m";
          lines = Instr.ObjectAlloc Kind.Sem 0 ∷ Instr.Grant (Term.Reg 0) (Term.Num 0x40000080) ∷ [];
        }
        ∷ record { name = codes "v"; lines = Instr.Revoke (Term.Num 0x48000100) (Term.Num 0x40000000) ∷ [] }
        ∷ []) }
{
    let first = Script {
        name: Name::from_bytes(b"m"),
        lines: grants(alloc)?,
    };
    let second = Script {
        name: Name::from_bytes(b"v"),
        lines: revokes(alloc)?,
    };
    both(alloc, first, second)
}

/// A pool for one semaphore.
fn pool() -> Pool
    ensures { result ≡ record { name = codes "h"; size = 64 } }
{
    Pool {
        name: Name::from_bytes(b"h"),
        size: 64,
    }
}

/// A domain with no partition.
fn domain(alloc: Global) -> DomainDef
    ensures { result ≡ record { name = codes "d"; parts = Some [] } }
{
    DomainDef {
        name: Name::from_bytes(b"d"),
        parts: Some(BoundedVec::new(alloc)),
    }
}

fn image(alloc: Global) -> Result<Image, OutOfMemory>
    ensures { IfOk result IsLawful }
{
    Ok(Image {
        mpu: Mpu::V7,
        regions: 8,
        policy: Policy::Abort,
        rodata: None,
        rodata_bytes: BoundedVec::new(alloc),
        pools: sole(alloc, pool())?,
        partitions: BoundedVec::new(alloc),
        domains: sole(alloc, domain(alloc))?,
        objects: objects(alloc)?,
        boots: boots(alloc)?,
        scripts: scripts(alloc)?,
        futexes: BoundedVec::new(alloc),
    })
}

/// What a thread does.
fn by(thread: u8, act: &Act) -> Event {
    Event {
        thread: ThreadIx(thread),
        act: *act,
    }
}

/// A check for permission that finds nothing wrong.
macro_rules! check {
    ($addr:expr, $kind:expr) => {
        Act::Check {
            addr: $addr,
            kind: $kind,
            want: Want::Any,
            verdict: None,
        }
    };
}

/// Takes a thread's permission on an object away.
macro_rules! drop {
    ($who:expr, $addr:expr, $left:expr) => {
        Act::DropPair {
            who: ThreadIx($who),
            addr: $addr,
            left: $left,
        }
    };
}

/// a allocates a semaphore and checks that it may grant it. c revokes a's pair with it, which is the last one.
/// Then a's grant says that it is gone, and the semaphore is recycled once c's call, which holds it, has answered.
const STORY: [(u8, Act); 24] = [
    (0, Act::Begin { script: 0, line: 1 }),
    (
        0,
        Act::Reserve {
            kind: Kind::Sem,
            addr: Some(SEM),
        },
    ),
    (0, Act::Born { addr: SEM }),
    (
        0,
        Act::Answered {
            reply: Reply::At(SEM),
        },
    ),
    (0, Act::Begin { script: 0, line: 2 }),
    (0, check!(B, Some(Kind::Thread))),
    (0, check!(SEM, None)),
    (2, Act::Begin { script: 1, line: 1 }),
    (2, check!(A, Some(Kind::Thread))),
    (2, check!(SEM, None)),
    (2, drop!(0, SEM, Leftover::Gone)),
    (
        0,
        Act::Grant {
            who: ThreadIx(1),
            addr: SEM,
            given: Given::Gone,
        },
    ),
    (0, Act::Answered { reply: Reply::Void }),
    (2, Act::Answered { reply: Reply::Void }),
    (0, Act::Recycle { addr: SEM }),
    (0, Act::Exit),
    (2, Act::Exit),
    (2, drop!(2, C, Leftover::Kept)),
    (2, Act::ClearInit { addr: STACK_OF_C }),
    (2, Act::ClearInit { addr: C }),
    (0, drop!(0, A, Leftover::Kept)),
    (0, drop!(0, B, Leftover::Kept)),
    (0, Act::ClearInit { addr: STACK_OF_A }),
    (0, Act::ClearInit { addr: A }),
];

/// What is no step before the event of this number.
const NO_STEPS: [(usize, u8, Act); 18] = [
    (0, 1, Act::Begin { script: 0, line: 1 }),
    (0, 24, Act::Exit),
    (0, 0, Act::Begin { script: 0, line: 2 }),
    (
        1,
        0,
        Act::Reserve {
            kind: Kind::Sem,
            addr: None,
        },
    ),
    (
        1,
        0,
        Act::Reserve {
            kind: Kind::Sem,
            addr: Some(B),
        },
    ),
    (
        6,
        0,
        Act::Check {
            addr: SEM,
            kind: None,
            want: Want::Any,
            verdict: Some(Errno::EBADF),
        },
    ),
    (
        9,
        2,
        Act::Check {
            addr: SEM,
            kind: None,
            want: Want::Any,
            verdict: Some(Errno::EPERM),
        },
    ),
    (10, 0, Act::Recycle { addr: SEM }),
    (
        10,
        2,
        Act::DropPair {
            who: ThreadIx(0),
            addr: SEM,
            left: Leftover::Kept,
        },
    ),
    (
        11,
        0,
        Act::Grant {
            who: ThreadIx(1),
            addr: SEM,
            given: Given::Done,
        },
    ),
    (11, 0, Act::Recycle { addr: SEM }),
    (12, 0, Act::Recycle { addr: SEM }),
    (13, 0, Act::Recycle { addr: SEM }),
    (13, 2, Act::Recycle { addr: SEM }),
    (15, 2, Act::Recycle { addr: SEM }),
    (17, 2, Act::ClearInit { addr: C }),
    (
        20,
        0,
        Act::DropPair {
            who: ThreadIx(0),
            addr: B,
            left: Leftover::Kept,
        },
    ),
    (22, 0, Act::ClearInit { addr: A }),
];

/// What is no step before this event is refused.
fn refuses(rt: &impl Abort, matrix: &mut Matrix<'_>, next: usize) {
    for (before, thread, act) in &NO_STEPS {
        if *before == next {
            assert!(rt;
                matrix.apply(&by(*thread, act)).is_err(),
                "before event {next}"
            );
        }
    }
}

#[test]
fn a_late_grant_says_gone(rt: HostRuntime) -> Result<(), Fail> {
    let image = image(rt.alloc())?;
    let mut matrix = Matrix::boot(rt.alloc(), &image)?;
    for (next, (thread, act)) in STORY.iter().enumerate() {
        refuses(&rt, &mut matrix, next);
        assert!(rt; !matrix.is_final(), "before event {next}");
        assert!(rt; matrix.apply(&by(*thread, act)).is_ok(), "event {next}");
    }
    assert!(rt; matrix.is_final());
    assert!(rt; matrix.next_event().is_none());
    assert!(rt; matrix.tables().threads()[0].life == Life::Ended);
    assert!(rt; matrix.tables().threads()[1].life == Life::Unborn);
    assert_eq!(rt; matrix.tables().pools(), [64].as_slice());
    Ok(())
}

#[test]
fn a_list_of_events_is_judged(rt: HostRuntime) -> Result<(), Fail> {
    let image = image(rt.alloc())?;
    let mut events = Vec::new(rt.alloc());
    for (thread, act) in &STORY {
        events.push(by(*thread, act))?;
    }
    assert!(rt; events.len() == 24);
    let mut matrix = Matrix::boot(rt.alloc(), &image)?;
    assert_eq!(rt; matrix.judge(&events[1..]), Err(0));
    assert_eq!(rt; matrix.judge(&events[..11]), Ok(()));
    assert_eq!(rt; matrix.judge(&events[12..]), Err(0));
    assert_eq!(rt; matrix.judge(&events[11..]), Ok(()));
    assert!(rt; matrix.is_final());
    Ok(())
}

#[test]
fn runs_to_its_end(rt: HostRuntime) -> Result<(), Fail> {
    let image = image(rt.alloc())?;
    let mut matrix = Matrix::boot(rt.alloc(), &image)?;
    for _ in 0..64 {
        if let Some(event) = matrix.next_event() {
            assert!(rt; matrix.apply(&event).is_ok());
        }
    }
    assert!(rt; matrix.is_final());
    assert!(rt; matrix.tables().threads()[2].life == Life::Ended);
    Ok(())
}
