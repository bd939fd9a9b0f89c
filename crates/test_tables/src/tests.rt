//! Steps over tables: a row, a thread, a domain, and turns of a thread.

/// A processor at an image.
macro_rules! here {
    ($image:ident, $cpu:expr) => {
        Here {
            image: &$image,
            cpu: $cpu,
        }
    };
}

/// A step is made, and says this.
macro_rules! is_made {
    ($rt:ident, $said:expr, $made:pat => $holds:expr) => {
        match $said {
            Said::Made($made) => assert!($rt; $holds),
            _ => assert!($rt; false),
        }
    };
}

mod contexts;
mod events;
mod memory;
mod stops;
mod waits;

ghost use Rattle.std.specs.Prelude.{◌≡◌, [], IfOk, length};
ghost use Rattle.um_base.specs.declared.limits.TheConstants.{ROWS};
ghost use Rattle.um_machine.specs.Memory.{rodata_of};

use std::alloc::Global;
use std::test::Fail;
use um_base::{
    Addr, Answer, Ask, Attr, DOMAINS, Errno, Image, Kind, Leftover, Mode, OutOfMemory, POOLS,
    PartRefs, Parts, Piece, ROWS, Range, Reply, Row, THREADS, ThreadIx, Told, Waiter,
};
use um_machine::{Cost, Life, Pending};
use um_samples::empty_image;
use um_service::Outcome;
use um_tables::{
    Bytes, Clock, Context, DomainCell, Heap, HeapAct, Here, Joins, ObjectCells, Said, Scheduler,
    Sites, Tables,
};
use um_words::{DomWord, DomainAct, Permissions, RowAct, RowWord, Stage, ThreadAct, ThreadWord};

/// An object that one call holds, and the thread 3 alone may use.
fn row() -> RowWord {
    let mut permissions = Permissions::none();
    permissions.add(3);
    RowWord {
        permissions,
        init: true,
        public: false,
        dynamic: true,
        stage: Stage::Live,
        claims: 1,
        number: 7,
    }
}

/// The last permission goes while a call holds the object, and the object is to be cleaned once the call ends.
#[test]
fn an_object_is_cleaned_once_its_last_call_ends(rt: HostRuntime) -> Result<(), Fail> {
    let who = ThreadIx(3);
    let drop = RowAct::Sweep {
        thread: who,
        who,
        addr: Addr(0x4800_0000),
    };
    let mut dying = row();
    match drop.make(&row()) {
        None => assert!(rt; false),
        Some((next, said)) => {
            assert!(rt; said.left == Leftover::Gone && !said.cleans && !said.visits);
            assert!(rt; next.stage == Stage::Dying && next.number == 8);
            dying = next;
        }
    }
    match drop.make(&dying) {
        None => assert!(rt; false),
        Some((next, said)) => assert!(rt;
            said.visits && next.stage == Stage::Dying && next.number == 9
        ),
    }
    match RowAct::EndCall.make(&dying) {
        None => assert!(rt; false),
        Some((next, said)) => assert!(rt;
            said.cleans && next.stage == Stage::Cleaning && next.claims == 0
        ),
    }
    assert!(rt; RowAct::Vacate.make(&dying).is_none());
    Ok(())
}

fn living(domain: u8) -> ThreadWord
    ensures { result.domain ≡ domain }
{
    ThreadWord {
        life: Life::Living,
        doomed: false,
        held: false,
        mode: Mode::User,
        domain,
        aborted: false,
        suspended: false,
        note: None,
        number: 0,
    }
}

/// A doomed thread begins nothing, and its word is read instead.
#[test]
fn a_doomed_thread_begins_nothing(rt: HostRuntime) -> Result<(), Fail> {
    let exit = ThreadAct::Exit {
        thread: ThreadIx(0),
    };
    match exit.make(&living(2)) {
        None => assert!(rt; false),
        Some(next) => assert!(rt; next.life == Life::Ended && exit.make(&next).is_none()),
    }
    let mut doomed = living(2);
    doomed.doomed = true;
    match exit.make(&doomed) {
        None => assert!(rt; false),
        Some(next) => assert!(rt; next.life == Life::Living && next.doomed && next.number == 1),
    }
    assert!(rt; ThreadAct::LetGo.make(&doomed).is_none());
    Ok(())
}

fn domain() -> DomWord {
    DomWord {
        init: true,
        writer: false,
        readers: 0,
        version: 5,
        number: 0,
    }
}

/// Nobody claims a domain to write it while it is read, and an edit makes another version.
#[test]
fn nobody_writes_a_domain_that_is_read(rt: HostRuntime) -> Result<(), Fail> {
    match DomainAct::ReadClaim.make(&domain()) {
        None => assert!(rt; false),
        Some(read) => assert!(rt; read.readers == 1 && DomainAct::WriteClaim.make(&read).is_none()),
    }
    let mut claimed = domain();
    claimed.writer = true;
    let edit = DomainAct::DomInit {
        thread: ThreadIx(0),
        domain: 0,
        reply: Reply::Num(0),
    };
    match edit.make(&claimed) {
        None => assert!(rt; false),
        Some(left) => assert!(rt; !left.writer && left.version == 6 && left.number == 1),
    }
    assert!(rt; edit.make(&domain()).is_none());
    Ok(())
}

fn told() -> Told {
    Told {
        reply: Reply::Void,
        taken: Piece::new(),
    }
}

/// A thread is added, taken, put back, told something and taken again.
#[test]
fn a_thread_comes_back_with_what_it_was_told(rt: HostRuntime) -> Result<(), Fail> {
    let mut scheduler = Scheduler::new(rt.alloc())?;
    let mut context = Box::new(rt.alloc(), Context::idle())?;
    let mut heard = told();
    assert!(rt; scheduler.take(&mut context, &mut heard) == None && !scheduler.done());
    assert!(rt; scheduler.add(&mut context));
    assert!(rt; scheduler.take(&mut context, &mut heard) == Some(false));
    assert!(rt; scheduler.wake(ThreadIx(0), &told()) == Some(false));
    assert!(rt; scheduler.park(&mut context) == Some(true));
    assert!(rt; scheduler.take(&mut context, &mut heard) == Some(true));
    assert!(rt; scheduler.done() && !scheduler.done());
    Ok(())
}

/// An image without anything.
fn image(alloc: Global) -> Image
    ensures { rodata_of result ≡ [] }
{
    empty_image!(alloc)
}

/// The cells of all rows, without an object.
fn objects(alloc: Global) -> Result<ObjectCells, OutOfMemory>
    ensures { IfOk result (λ all. length all ≡ ROWS) }
{
    ObjectCells::new(alloc)
}

/// The first bytes of the area of the partitions, all zero.
fn bytes(alloc: Global) -> Result<Bytes, OutOfMemory> {
    let mut partitions = Vec::new(alloc);
    partitions.resize(64, 0)?;
    Bytes::new(alloc, partitions, Vec::new(alloc))
}

/// How many events the log of the tables has room for.
const EVENTS: usize = 8;

/// Tables with equal rows, equal threads and equal domains, without read-only data.
fn tables(alloc: Global) -> Result<Tables, OutOfMemory>
    ensures { IfOk result (λ t. t.rodata ≡ []) }
{
    let mut rows = Vec::new(alloc);
    rows.resize(ROWS, row())?;
    let mut threads = Vec::new(alloc);
    threads.resize(THREADS, living(0))?;
    let mut domains = Vec::new(alloc);
    domains.resize(DOMAINS, domain())?;
    let mut cells = Vec::new(alloc);
    cells.resize(
        DOMAINS,
        DomainCell {
            parts: None,
            steps: 0,
        },
    )?;
    let mut pools = Vec::new(alloc);
    pools.resize(POOLS, 100)?;
    let mut free = Vec::new(alloc);
    free.resize(ROWS, true)?;
    let mut costs = Vec::new(alloc);
    costs.resize(ROWS, None)?;
    let log = Vec::with_capacity(alloc, EVENTS)?;
    let clock = Clock::new(alloc, log.capacity())?;
    Ok(Tables::new(
        rows,
        threads,
        domains,
        cells,
        objects(alloc)?,
        Vec::new(alloc),
        bytes(alloc)?,
        Heap::new(pools, free, costs),
        Scheduler::new(alloc)?,
        clock,
        Joins::new(alloc, [false; THREADS])?,
        log,
    ))
}

/// The permission of a row is passed on once, while another row stays as it was.
#[test]
fn one_permission_is_passed_on(rt: HostRuntime) -> Result<(), Fail> {
    let image = image(rt.alloc());
    let here = &here!(image, 0);
    let there = &here!(image, 1);
    let mut sites = tables(rt.alloc())?;
    let pass = RowAct::Pass {
        thread: ThreadIx(3),
        who: ThreadIx(4),
        addr: Addr(0x4000_0000),
    };
    for (row, visits) in [(9, false), (9, true), (10, false)] {
        is_made!(rt, sites.row(here, Row(row), &pass), said => said.visits == visits);
    }
    is_made!(rt, sites.thread(there, ThreadIx(3), &ThreadAct::Hold), word => word.held && word.number == 1);
    assert!(rt;
        matches!(
            sites.thread(here, ThreadIx(3), &ThreadAct::Hold),
            Said::Busy
        )
    );
    assert!(rt; matches!(sites.done(here), Said::Busy));
    Ok(())
}

/// A domain is initialised once, a partition is added to it, and that is what a region table is loaded with.
#[test]
fn an_added_partition_is_loaded(rt: HostRuntime) -> Result<(), Fail> {
    let image = image(rt.alloc());
    let here = &here!(image, 0);
    let mut sites = tables(rt.alloc())?;
    let init = Pending::DomInit {
        domain: 1,
        parts: PartRefs::new(),
    };
    let add = Pending::DomAdd {
        domain: 1,
        range: Range {
            start: Addr(0x2000_0040),
            size: 64,
        },
        attr: Attr(27),
    };
    for (call, reply) in [
        (&add, Reply::Fail(Errno::EINVAL)),
        (&init, Reply::Num(0)),
        (&init, Reply::Fail(Errno::EINVAL)),
        (&add, Reply::Num(0)),
    ] {
        is_made!(rt, sites.edit(here, 1, call), said => said == reply);
    }
    let mut parts = Parts::new();
    for (domain, few) in [(1, 1), (2, 0)] {
        is_made!(rt, sites.load_parts(here, domain, &mut parts), () => parts.len() == few);
    }
    Ok(())
}

/// A pool pays for one object, which is reserved at the least address of its kind, and for a second one when the first is recycled.
#[test]
fn a_pool_pays_for_one_object_at_a_time(rt: HostRuntime) -> Result<(), Fail> {
    let image = image(rt.alloc());
    let here = &here!(image, 0);
    let mut sites = tables(rt.alloc())?;
    let thread = ThreadIx(0);
    let reserve = HeapAct::Reserve {
        thread,
        kind: Kind::Sem,
    };
    let cost = Some(Cost { pool: 1, bytes: 64 });
    let first = Addr(0x4800_0100);
    for (act, charge, addr) in [
        (&reserve, None, None),
        (&reserve, cost, Some(first)),
        (&reserve, cost, None),
        (
            &HeapAct::Recycle {
                thread,
                addr: first,
            },
            None,
            None,
        ),
        (&reserve, cost, Some(first)),
    ] {
        is_made!(rt, sites.heap(here, act, charge), said => said.addr == addr && !said.fits);
    }
    Ok(())
}

fn waiter(ask: &Ask) -> Waiter
    ensures ask { result.ask ≡ ask.now }
    ensures thread { result.thread.0 ≡ 2 }
{
    Waiter {
        thread: ThreadIx(2),
        priority: 0,
        ask: *ask,
        bytes: Piece::new(),
        until: None,
    }
}

/// A queue is initialised, and its contents are cleared, which says what its buffer cost.
#[test]
fn a_cleared_queue_says_its_cost(rt: HostRuntime) -> Result<(), Fail> {
    let image = image(rt.alloc());
    let here = &here!(image, 0);
    let mut sites = tables(rt.alloc())?;
    let mut outcome = Outcome::new();
    let init = waiter(&Ask::MsgqInit {
        msg_size: 3,
        max_msgs: 2,
        pool: 1,
    });
    let addr = Addr(0x4000_0000);
    is_made!(rt, sites.work(here, Row(3), addr, &init, 0, &mut outcome), () => outcome.answer == Answer::Now(Reply::Num(0)));
    is_made!(rt, sites.message_size(here, Row(3)), size => size == 3);
    for cost in [Some(Cost { pool: 1, bytes: 8 }), None] {
        is_made!(rt, sites.clear(here, Row(3)), said => said == cost);
    }
    Ok(())
}
