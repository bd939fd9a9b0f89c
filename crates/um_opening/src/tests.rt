//! The tables of a small image: some of its sites are asked for steps.

ghost use Rattle.std.specs.Prelude.{◌≡◌, ◌<◌, ◌≤◌, IfOk, [], ◌∷◌, length, false, Some, None, pos, codes};
ghost use Rattle.um_base.specs.{declared.instr.Instr.{Instr}, Lawful.{IsLawful}};
ghost use Rattle.um_machine.specs.Memory.{rodata_of};

use super::*;
use std::alloc::Global;
use std::test::Fail;
use um_base::{
    Addr, BOOTS, Boot, BoundedVec, DomainDef, Errno, Image, Instr, Kind, LINES, Mode, Mpu, Name,
    ObjectDef, OutOfMemory, Piece, Policy, Pool, Range, Reply, Row, SCRIPTS, STATIC_ROWS, Script,
    Setup, Term, ThreadIx, Told, Want,
};
use um_machine::{Cost, Life};
use um_tables::{Context, HeapAct, Here, Said, Sites, Tables};
use um_words::{DomainAct, RowAct, ThreadAct};

/// The list of one item.
fn sole<T: Drop, const MOST: usize>(
    alloc: Global,
    item: T,
) -> Result<BoundedVec<T, MOST>, OutOfMemory>
    requires { 0 < MOST }
    ensures { IfOk result (λ list. list ≡ item ∷ []) }
{
    let mut list = BoundedVec::new(alloc);
    list.push(item)?;
    Ok(list)
}

fn object(name: &[u8], kind: Kind, addr: u32, setup: Setup) -> ObjectDef
    requires { length name.now ≤ 24 }
    ensures { result ≡ record {
      name = name.now;
      kind = kind;
      addr = record { 0 = addr };
      public = false;
      setup = setup;
    } }
{
    ObjectDef {
        name: Name::from_bytes(name),
        kind,
        addr: Addr(addr),
        public: false,
        setup,
    }
}

/// A thread, its stack, and a semaphore.
fn objects(alloc: Global) -> Result<BoundedVec<ObjectDef, STATIC_ROWS>, OutOfMemory>
    ensures { IfOk result (λ list. list
        ≡ record {
          name = codes "a";
          kind = Kind.Thread;
          addr = record { 0 = 0x40000000 };
          public = false;
          setup = Setup.Thread (record { 0 = 0 });
        }
        ∷ record {
          name = codes "sa";
          kind = Kind.ThreadStack;
          addr = record { 0 = 0x20080000 };
          public = false;
          setup = Setup.ThreadStack
              (record { start = record { 0 = 0x20080000 }; size = 64 }) 64;
        }
        ∷ record {
          name = codes "s";
          kind = Kind.Sem;
          addr = record { 0 = 0x40000080 };
          public = false;
          setup = Setup.Sem 1 2;
        }
        ∷ []) }
{
    let range = Range {
        start: Addr(0x2008_0000),
        size: 64,
    };
    let stack = Setup::ThreadStack {
        range,
        declared: 64,
    };
    let thread = Setup::Thread { index: ThreadIx(0) };
    let semaphore = Setup::Sem { count: 1, limit: 2 };
    let mut list = BoundedVec::new(alloc);
    list.push(object(b"a", Kind::Thread, 0x4000_0000, thread))?;
    list.push(object(b"sa", Kind::ThreadStack, 0x2008_0000, stack))?;
    list.push(object(b"s", Kind::Sem, 0x4000_0080, semaphore))?;
    Ok(list)
}

/// The user a, with the permission on the semaphore.
fn boots(alloc: Global) -> Result<BoundedVec<Boot, BOOTS>, OutOfMemory>
    ensures { IfOk result (λ list. list
        ≡ record {
          thread = record { 0 = 0 };
          stack = record { 0 = 1 };
          script = 0;
          mode = Mode.User;
          priority = pos 0;
          domain = 0;
          pool = Some 0;
          grants = record { 0 = 2 } ∷ [];
        } ∷ []) }
{
    let user = Boot {
        thread: Row(0),
        stack: Row(1),
        script: 0,
        mode: Mode::User,
        priority: 0,
        domain: 0,
        pool: Some(0),
        grants: sole(alloc, Row(2))?,
    };
    sole(alloc, user)
}

fn scripts(alloc: Global) -> Result<BoundedVec<Script, SCRIPTS>, OutOfMemory>
    ensures { IfOk result
        (λ list. list ≡ record { name = codes "m"; lines = Instr.SemGive (Term.Num 0x40000080) ∷ [] } ∷ []) }
{
    let mut lines: BoundedVec<Instr, LINES> = BoundedVec::new(alloc);
    lines.push_copy(&Instr::SemGive {
        object: Term::Num(0x4000_0080),
    })?;
    let script = Script {
        name: Name::from_bytes(b"m"),
        lines,
    };
    sole(alloc, script)
}

/// A pool for one object.
fn pool() -> Pool
    ensures { result ≡ record { name = codes "h"; size = 64 } }
{
    Pool {
        name: Name::from_bytes(b"h"),
        size: 64,
    }
}

/// A domain with no partition.
fn domain(alloc: Global) -> DomainDef
    ensures { result ≡ record { name = codes "d"; parts = Some [] } }
{
    DomainDef {
        name: Name::from_bytes(b"d"),
        parts: Some(BoundedVec::new(alloc)),
    }
}

fn image(alloc: Global) -> Result<Image, OutOfMemory>
    ensures { IfOk result IsLawful }
{
    Ok(Image {
        mpu: Mpu::V7,
        regions: 8,
        policy: Policy::Abort,
        rodata: None,
        rodata_bytes: BoundedVec::new(alloc),
        pools: sole(alloc, pool())?,
        partitions: BoundedVec::new(alloc),
        domains: sole(alloc, domain(alloc))?,
        objects: objects(alloc)?,
        boots: boots(alloc)?,
        scripts: scripts(alloc)?,
        futexes: BoundedVec::new(alloc),
    })
}

/// Where the first processor asks.
macro_rules! here {
    ($image:expr) => {
        Here {
            image: $image,
            cpu: 0,
        }
    };
}

/// Whether this is what a user's check of the semaphore says.
fn is_verdict(sites: &mut Tables, image: &Image, thread: u8, verdict: Option<Errno>) -> bool
    requires { sites.old.rodata ≡ rodata_of image.now }
    ensures { sites.new.rodata ≡ rodata_of image.now }
{
    let check = RowAct::Check {
        thread: ThreadIx(thread),
        addr: Addr(0x4000_0080),
        kind: Some(Kind::Sem),
        want: Want::Init,
        mode: Mode::User,
        fits: true,
    };
    match sites.row(&here!(image), Row(2), &check) {
        Said::Made(said) => said.verdict == verdict,
        _ => false,
    }
}

/// The thread of the boot entry has its permission, and a hold on its own object.
#[test]
fn words_open_with_permission_and_hold(rt: HostRuntime) -> Result<(), Fail> {
    let image = image(rt.alloc())?;
    let mut sites = opening(rt.alloc(), &image, 8)?;
    let here = &here!(&image);
    assert!(rt; is_verdict(&mut sites, &image, 0, None));
    assert!(rt; is_verdict(&mut sites, &image, 1, Some(Errno::EPERM)));
    assert!(rt; matches!(sites.row(here, Row(0), &RowAct::EndCall), Said::Made(_)));
    assert!(rt; matches!(sites.row(here, Row(0), &RowAct::EndCall), Said::Busy));
    match sites.thread(here, ThreadIx(0), &ThreadAct::Hold) {
        Said::Made(word) => assert!(rt;
            word.life == Life::Living && !word.doomed && word.domain == 0
        ),
        _ => assert!(rt; false),
    }
    match sites.domain(here, 0, &DomainAct::ReadClaim) {
        Said::Made(word) => assert!(rt; word.init && word.readers == 1),
        _ => assert!(rt; false),
    }
    Ok(())
}

/// The thread of the boot entry is the one that is ready, and its pool pays for one semaphore, at the least address.
#[test]
fn cells_open_ready_and_paid(rt: HostRuntime) -> Result<(), Fail> {
    let image = image(rt.alloc())?;
    let mut sites = opening(rt.alloc(), &image, 8)?;
    let here = &here!(&image);
    let mut context = Box::new(rt.alloc(), Context::idle())?;
    let mut told = Told {
        reply: Reply::Void,
        taken: Piece::new(),
    };
    match sites.take(here, &mut context, &mut told) {
        Said::Made(woken) => assert!(rt; !woken && context.thread() == 0 && !context.waits()),
        _ => assert!(rt; false),
    }
    assert!(rt; matches!(sites.take(here, &mut context, &mut told), Said::Busy));
    let reserve = HeapAct::Reserve {
        thread: ThreadIx(0),
        kind: Kind::Sem,
    };
    let cost = Some(Cost { pool: 0, bytes: 64 });
    match sites.heap(here, &reserve, cost) {
        Said::Made(said) => assert!(rt; said.addr == Some(Addr(0x4800_0100))),
        _ => assert!(rt; false),
    }
    match sites.heap(here, &reserve, cost) {
        Said::Made(said) => assert!(rt; said.addr == None),
        _ => assert!(rt; false),
    }
    Ok(())
}
