//! The steps of a thread's creation.

ghost use Rattle.std.specs.Prelude.{◌≡◌, ◌∷◌, ◌++◌, ◌<◌, ◌≤◌, [], Some, None, true, if◌then◌else◌, length, unwrap_or};
ghost use Rattle.um_base.specs.{Places.{thread_of_addr, row_at, setup_at}, Lawful.{is_priority}};
ghost use Rattle.um_base.specs.declared.names.Kind.TheVariants as Kind;
ghost use Rattle.um_base.specs.declared.names.Reply.TheVariants as Reply;
ghost use Rattle.um_base.specs.declared.names.Want.TheVariants as Want;
ghost use Rattle.um_machine.specs.declared.pending.Pending.TheVariants as Pending;
ghost use Rattle.um_machine.specs.Order.{needs, creates, creation_refusal, new_mode, stack_declared, to_addr};

use crate::order::follow::refuses;
use crate::order::operands::thread_of_addr;
use crate::order::steps::{needs, turn};
use crate::rows::{row_at, setup_at};
use um_base::{Addr, Cause, Image, Kind, Mode, Options, Reply, Row, Setup, ThreadIx, Want};
use um_machine::{Pending, Pendings, Thread};

/// What a thread asks for where it creates another: `thread` and `stack` are the addresses of its two objects.
#[derive(Clone, Copy)]
pub struct Creation {
    pub thread: u32,
    pub stack: u32,
    pub size: u32,
    pub script: u8,
    pub priority: i8,
    pub options: Options,
}

/// The declared size of a stack.
fn stack_declared(setup: Setup) -> u32
    ensures { result ≡ stack_declared setup }
{
    match setup {
        Setup::ThreadStack { declared, .. } => declared,
        _ => 0,
    }
}

/// Whether it is a priority that a thread may have.
fn is_priority(priority: i8) -> bool
    ensures { result ≡ is_priority priority }
{
    !(priority < -16) && !(14 < priority)
}

/// Why a creation is refused after its checks, if it is.
fn creation_refusal(
    mode: Mode,
    own_priority: i8,
    declared: u32,
    size: u32,
    priority: i8,
    options: Options,
) -> Option<Cause>
    ensures { result ≡ creation_refusal mode own_priority declared size priority options }
{
    let user = mode == Mode::User;
    if declared < size {
        Some(Cause::Size)
    } else if user && !options.user {
        Some(Cause::NoUser)
    } else if user && options.essential {
        Some(Cause::Essential)
    } else if !is_priority(priority) {
        Some(Cause::Priority)
    } else if user && priority < own_priority {
        Some(Cause::PriorityHigher)
    } else {
        None
    }
}

/// The row at an address.
fn row_of(image: &Image, a: u32) -> Row
    ensures { result.0 ≡ unwrap_or (row_at image.now a) 0 }
{
    match row_at(image, a) {
        Some(x) => Row(x as u8),
        None => Row(0),
    }
}

/// The mode of a new thread.
fn new_mode(options: Options) -> Mode
    ensures { result ≡ new_mode options }
{
    if options.user {
        Mode::User
    } else {
        Mode::Supervisor
    }
}

/// The strict mark of an object of a creation, which clears the other one where it fails.
fn strict_mark(a: u32, undo: Option<Addr>) -> Pending
    ensures { result ≡ Pending.SetInit (to_addr a) true undo }
{
    Pending::SetInit {
        addr: Addr(a),
        strict: true,
        undo,
    }
}

/// The new thread is given its pairs and starts, and its address is the answer.
fn hands_over(pending: &mut Pendings, who: ThreadIx, stack: Row, asked: &Creation)
    ensures steps { pending.new ≡ Pending.Own who
        ∷ ((if asked.now.options.inherit then Pending.Inherit who ∷ [] else [])
        ++ Pending.Start who asked.now.script stack asked.now.priority (new_mode asked.now.options)
        ∷ Pending.Answer (Some (Reply.At (to_addr asked.now.thread))) None ∷ []) }
    ensures few { length pending.new ≤ 4 }
{
    let own = Pending::Own { who };
    let start = Pending::Start {
        who,
        script: asked.script,
        stack,
        priority: asked.priority,
        mode: new_mode(asked.options),
    };
    let answer = Pending::Answer {
        reply: Some(Reply::At(Addr(asked.thread))),
        to: None,
    };
    if asked.options.inherit {
        let inherit = Pending::Inherit { who };
        turn(pending, &[own, inherit, start, answer]);
    } else {
        turn(pending, &[own, start, answer]);
    }
}

/// What follows the checks of a creation.
fn follows(image: &Image, me: &mut Thread, asked: &Creation, refusal: Option<Cause>)
    ensures steps { me.new ≡ record me.old {
      pending = creates me.old.mode (thread_of_addr image.now asked.now.thread)
          (unwrap_or (row_at image.now asked.now.stack) 0)
          asked.now.thread asked.now.stack asked.now.script asked.now.priority asked.now.options refusal;
    } }
    ensures few { length me.new.pending ≤ 7 }
{
    match refusal {
        Some(cause) => me.turns_to(&refuses(me.mode, cause)),
        None => {
            let who = thread_of_addr(image, asked.thread);
            let stack = row_of(image, asked.stack);
            hands_over(&mut me.pending, who, stack, asked);
            me.pending.push(&Pending::Erase { stack });
            let undo = Some(Addr(asked.thread));
            me.pending.push(&strict_mark(asked.stack, undo));
            me.pending.push(&strict_mark(asked.thread, None));
        }
    }
}

/// The steps of a creation: the checks of its two objects, and then what its numbers and options allow.
pub fn create(image: &Image, me: &mut Thread, asked: &Creation)
    ensures { let row = unwrap_or (row_at image.now asked.now.stack) 0 in
        me.new ≡ record me.old {
          pending = needs asked.now.thread Kind.Thread Want.Uninit
              ∷ needs asked.now.stack Kind.ThreadStack Want.Uninit
              ∷ creates me.old.mode
              (thread_of_addr image.now asked.now.thread) row asked.now.thread asked.now.stack asked.now.script asked.now.priority asked.now.options
              (creation_refusal me.old.mode me.old.priority
              (stack_declared (setup_at image.now row)) asked.now.size asked.now.priority asked.now.options);
        } }
{
    let row = row_of(image, asked.stack);
    let declared = stack_declared(setup_at(image, row.0 as usize));
    let refusal = creation_refusal(
        me.mode,
        me.priority,
        declared,
        asked.size,
        asked.priority,
        asked.options,
    );
    follows(image, me, asked, refusal);
    let check_stack = needs(asked.stack, Kind::ThreadStack, Want::Uninit);
    me.pending.push(&check_stack);
    let check_thread = needs(asked.thread, Kind::Thread, Want::Uninit);
    me.pending.push(&check_thread);
}
