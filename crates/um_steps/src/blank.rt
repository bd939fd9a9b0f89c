//! Thread indices without a thread, rows without an object, and what stands there from the beginning.

ghost use Rattle.std.specs.{Prelude.{◌≡◌, ◌||◌, ◌==◌, IsTrue}, List.{list_any}};
ghost use Rattle.um_machine.specs.{
  declared.contents.Contents.{Contents},
  State.{nobody, vacant},
  Limits.{is_in_limits},
  Run.{boot_thread, boots_row, setup_contents, is_set_up, opening_object},
};

use um_base::{Boot, Image, Mode, ObjectDef, Piece, ROWS, Reply, Row, Setup};
use um_machine::places::first_place;
use um_machine::{
    BytePipe, Contents, Life, MessageQueue, Object, Pendings, Place, Status, Thread, ValueStack,
    Waiters,
};

/// An index on which no thread was started.
pub fn nobody() -> Thread
    ensures { result ≡ nobody }
{
    Thread {
        life: Life::Unborn,
        doomed: false,
        aborted: false,
        suspended: false,
        mode: Mode::User,
        domain: 0,
        stack: Row(0),
        priority: 0,
        pool: None,
        registers: [0; 8],
        place: Place {
            script: 0,
            line: 0,
            left: 0,
        },
        pending: Pendings::new(),
        reply: Reply::Void,
        buffer: Piece::new(),
        until: None,
        told: None,
        checked: [false; ROWS],
        keeps_own: false,
        due: [false; ROWS],
        child: None,
    }
}

/// A boot entry's thread, at its script's first line.
pub fn boot_thread(image: &Image, boot: &Boot) -> Thread
    ensures { result ≡ boot_thread image.now boot.now }
{
    let mut thread = nobody();
    thread.life = Life::Living;
    thread.mode = boot.mode;
    thread.domain = boot.domain;
    thread.stack = boot.stack;
    thread.priority = boot.priority;
    thread.pool = boot.pool;
    thread.place = first_place(image, boot.script);
    thread.keeps_own = true;
    thread
}

/// A row without an object.
pub fn vacant() -> Object
    ensures { result ≡ vacant }
{
    Object {
        kind: None,
        status: Status::Free,
        public: false,
        init: false,
        contents: Contents::Nothing,
        waiters: Waiters::new(),
        cost: None,
        buffer: None,
        cleaner: None,
    }
}

/// Empties a row.
pub fn vacate(object: &mut Object)
    ensures { object.new ≡ vacant }
{
    object.kind = None;
    object.status = Status::Free;
    object.public = false;
    object.init = false;
    object.contents = Contents::Nothing;
    object.waiters.clear();
    object.cost = None;
    object.buffer = None;
    object.cleaner = None;
}

/// Sets contents up as a description says. There were none before.
pub fn set_up(contents: &mut Contents, setup: Setup)
    requires limits { IsTrue (is_in_limits setup) }
    requires none { contents.old ≡ Contents.Nothing }
    ensures { contents.new ≡ setup_contents setup }
{
    match setup {
        Setup::Sem { count, limit } => *contents = Contents::Sem { count, limit },
        Setup::Mutex => {
            *contents = Contents::Mutex {
                owner: None,
                depth: 0,
            }
        }
        Setup::Msgq { msg_size, max_msgs } => {
            *contents = Contents::Msgq(MessageQueue::new(msg_size, max_msgs))
        }
        Setup::Stack { entries } => *contents = Contents::Stack(ValueStack::new(entries)),
        Setup::Pipe { size } => *contents = Contents::Pipe(BytePipe::new(size)),
        Setup::Timer => *contents = Contents::Stopped { status: 0 },
        _ => {}
    }
}

/// Whether a description initialises an object by its setup.
pub fn is_set_up(setup: Setup) -> bool
    ensures { result ≡ is_set_up setup }
{
    match setup {
        Setup::Sem { .. }
        | Setup::Mutex
        | Setup::Msgq { .. }
        | Setup::Stack { .. }
        | Setup::Pipe { .. }
        | Setup::Timer => true,
        _ => false,
    }
}

/// Whether a boot entry has a row as its thread or its stack.
pub fn boots_row(boots: &[Boot], x: usize) -> bool
    ensures { result ≡ list_any (boots_row x) boots.now }
{
    boots.iter().any(|boot| boot.thread.0 as usize == x || boot.stack.0 as usize == x)
}

/// Writes into a row without an object the static one that stands there from the beginning.
pub fn open_object(row: &mut Object, boots: &[Boot], x: usize, object: &ObjectDef)
    requires limits { IsTrue (is_in_limits object.now.setup) }
    requires vacant { row.old ≡ vacant }
    ensures { row.new ≡ opening_object boots.now x object.now }
{
    row.kind = Some(object.kind);
    row.status = Status::Live;
    row.public = object.public;
    row.init = is_set_up(object.setup) || boots_row(boots, x);
    set_up(&mut row.contents, object.setup);
}
