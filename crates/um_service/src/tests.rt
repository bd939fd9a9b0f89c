//! Acts on the contents of each kind, one after another.

ghost use Rattle.std.specs.Prelude.{◌≡◌, ◌<◌, IsTrue};
ghost use Rattle.um_base.specs.declared.ask.Ask.TheVariants as AskOf;
ghost use Rattle.um_base.specs.declared.limits.TheConstants.{THREADS};
ghost use Rattle.um_machine.specs.Limits.{is_sound_ask};

use super::*;
use std::process::Abort;
use um_base::{Answer, Ask, Errno, Piece, Reply, ThreadIx, Timeout, Waiter};
use um_machine::pieces::piece;
use um_machine::{BytePipe, Contents, MessageQueue, ValueStack, Waiters};

const WAITS: Timeout = Timeout::Forever;

const ZERO: Reply = Reply::Num(0);

const DONE: Answer = Answer::Now(ZERO);

const VOID: Answer = Answer::Now(Reply::Void);

fn fails(error: Errno) -> Answer {
    Answer::Now(Reply::Fail(error))
}

/// A read of this many bytes.
fn read_of(length: u32, timeout: Timeout) -> Ask
    ensures { result ≡ AskOf.PipeRead length timeout }
{
    Ask::PipeRead { length, timeout }
}

/// A write of this many bytes.
fn write_of(length: u32, timeout: Timeout) -> Ask
    ensures { result ≡ AskOf.PipeWrite length timeout }
{
    Ask::PipeWrite { length, timeout }
}

/// Contents, and those who wait on them.
#[derive(Drop)]
struct Trial {
    contents: Contents,
    waiters: Waiters,
}

impl Trial {
    /// Contents on which nobody waits.
    fn of(contents: Contents) -> Trial {
        Trial {
            contents,
            waiters: Waiters::new(),
        }
    }

    /// What an act of a thread, by its index and priority, says beforehand and comes to.
    fn act(&mut self, who: (u8, i8), ask: &Ask) -> (Said, Outcome)
        requires thread { who.0 < THREADS }
        requires sound { IsTrue (is_sound_ask ask.now) }
    {
        self.act_with(who, ask, &Piece::new())
    }

    /// The same of a call that gives bytes.
    fn act_with(&mut self, who: (u8, i8), ask: &Ask, bytes: &Piece) -> (Said, Outcome)
        requires thread { who.0 < THREADS }
        requires sound { IsTrue (is_sound_ask ask.now) }
    {
        let waiter = Waiter {
            thread: ThreadIx(who.0),
            priority: who.1,
            ask: *ask,
            bytes: *bytes,
            until: None,
        };
        let said = says(&self.contents, &self.waiters, &waiter);
        let mut outcome = Outcome::new();
        act(&mut self.contents, &mut self.waiters, &waiter, &mut outcome);
        (said, outcome)
    }
}

/// What was said is what the outcome answers and tells the woken.
fn agree<R: Abort>(rt: &R, said: &Said, outcome: &Outcome) {
    assert!(rt; said.answer == outcome.answer);
    assert!(rt; said.woken.len() == outcome.woken.len());
    assert!(rt; said.woken == outcome.woken.replies());
    for (i, pair) in outcome.woken.as_slice().iter().enumerate() {
        assert!(rt; i < said.woken.len() && said.woken.at(i) == (pair.0, pair.1.reply));
    }
}

/// An act says what it comes to: it answers this, gives these bytes, and wakes these threads.
fn is<R: Abort>(
    rt: &R,
    acted: &(Said, Outcome),
    answer: Answer,
    taken: &[u8],
    woken: &[(u8, Reply, &[u8])],
) {
    let (said, outcome) = acted;
    agree(rt, said, outcome);
    assert!(rt; outcome.answer == answer);
    assert!(rt; outcome.taken.as_slice() == taken);
    let pairs = outcome.woken.as_slice();
    assert!(rt; pairs.len() == woken.len());
    for (i, pair) in pairs.iter().enumerate() {
        let (thread, reply, bytes) = woken[i];
        assert!(rt;
            pair.0 == ThreadIx(thread) && pair.1.reply == reply && pair.1.taken.as_slice() == bytes
        );
    }
}

/// The same of an act that gives no bytes and wakes nobody.
fn answers<R: Abort>(rt: &R, acted: &(Said, Outcome), answer: Answer) {
    is(rt, acted, answer, &[], &[]);
}

/// The same of an act that wakes nobody.
fn gives<R: Abort>(rt: &R, acted: &(Said, Outcome), answer: Answer, taken: &[u8]) {
    is(rt, acted, answer, taken, &[]);
}

/// The same of an act that gives no bytes.
fn wakes<R: Abort>(rt: &R, acted: &(Said, Outcome), answer: Answer, woken: &[(u8, Reply, &[u8])]) {
    is(rt, acted, answer, &[], woken);
}

/// Threads of priority 5, 3 and 3 wait, and gives wake the second, the third and the first.
#[test]
fn a_give_wakes_the_first_in_order(rt: HostRuntime) {
    let mut sem = Trial::of(Contents::Sem { count: 0, limit: 1 });
    let take = Ask::SemTake { timeout: WAITS };
    answers(&rt, &sem.act((1, 5), &take), Answer::Wait);
    answers(&rt, &sem.act((2, 3), &take), Answer::Wait);
    answers(&rt, &sem.act((3, 3), &take), Answer::Wait);
    let give = Ask::SemGive;
    wakes(&rt, &sem.act((4, 0), &give), VOID, &[(2, ZERO, &[])]);
    wakes(&rt, &sem.act((4, 0), &give), VOID, &[(3, ZERO, &[])]);
    wakes(&rt, &sem.act((4, 0), &give), VOID, &[(1, ZERO, &[])]);
    answers(&rt, &sem.act((4, 0), &give), VOID);
    let count = Ask::SemCount;
    answers(&rt, &sem.act((4, 0), &count), Answer::Now(Reply::Num(1)));
}

/// A timer runs out: what was said beforehand is what its waiters are told.
fn runs_out(rt: &impl Abort, timer: &mut Trial, woken: &[(u8, Reply)]) {
    let said = says_run_out(&timer.waiters);
    let mut told = Woken::new();
    run_out(&mut timer.contents, &mut timer.waiters, &mut told);
    assert!(rt; said == told.replies());
    assert!(rt; said.len() == woken.len());
    for (i, pair) in woken.iter().enumerate() {
        assert!(rt; i < said.len() && said.at(i) == (ThreadIx(pair.0), pair.1));
    }
}

/// A timer that was started again and ran out says so once. One that runs lets a thread wait, which is told that it ran out or was stopped.
#[test]
fn a_timer_runs_out_once(rt: HostRuntime) {
    let mut timer = Trial::of(Contents::Stopped { status: 0 });
    let start = Ask::TimerStart { deadline: 3 };
    let one = Reply::Num(1);
    answers(&rt, &timer.act((0, 5), &Ask::TimerSync), DONE);
    answers(&rt, &timer.act((0, 5), &start), VOID);
    answers(&rt, &timer.act((0, 5), &start), VOID);
    answers(&rt, &timer.act((0, 5), &Ask::TimerStatus), DONE);
    runs_out(&rt, &mut timer, &[]);
    answers(&rt, &timer.act((0, 5), &Ask::TimerStop), VOID);
    answers(&rt, &timer.act((0, 5), &Ask::TimerStatus), Answer::Now(one));
    answers(&rt, &timer.act((0, 5), &Ask::TimerStatus), DONE);
    answers(&rt, &timer.act((0, 5), &start), VOID);
    answers(&rt, &timer.act((1, 5), &Ask::TimerSync), Answer::Wait);
    answers(&rt, &timer.act((2, 3), &Ask::TimerSync), Answer::Wait);
    runs_out(&rt, &mut timer, &[(2, one)]);
    answers(&rt, &timer.act((0, 5), &Ask::TimerStatus), DONE);
    answers(&rt, &timer.act((0, 5), &start), VOID);
    let stop = Ask::TimerStop;
    wakes(&rt, &timer.act((0, 5), &stop), VOID, &[(1, ZERO, &[])]);
}

/// The owner locks again, and nobody else unlocks; what is free isn't unlocked.
#[test]
fn only_the_owner_unlocks(rt: HostRuntime) {
    let mut mutex = Trial::of(Contents::Mutex {
        owner: None,
        depth: 0,
    });
    let try_lock = Ask::MutexLock {
        timeout: Timeout::NoWait,
    };
    let lock = Ask::MutexLock { timeout: WAITS };
    let unlock = Ask::MutexUnlock;
    answers(&rt, &mutex.act((0, 5), &unlock), fails(Errno::EINVAL));
    answers(&rt, &mutex.act((0, 5), &try_lock), DONE);
    answers(&rt, &mutex.act((1, 5), &unlock), fails(Errno::EPERM));
    answers(&rt, &mutex.act((0, 5), &try_lock), DONE);
    answers(&rt, &mutex.act((1, 5), &try_lock), fails(Errno::EBUSY));
    answers(&rt, &mutex.act((1, 5), &lock), Answer::Wait);
    answers(&rt, &mutex.act((0, 5), &unlock), DONE);
    wakes(&rt, &mutex.act((0, 5), &unlock), DONE, &[(1, ZERO, &[])]);
    answers(&rt, &mutex.act((1, 5), &unlock), DONE);
}

/// A queue of one message, with a second one that waits.
fn queue_of_one() -> Trial {
    let mut queue = Trial::of(Contents::Msgq(MessageQueue::new(1, 1)));
    let put = Ask::MsgqPut { timeout: WAITS };
    let _ = queue.act_with((0, 5), &put, &piece(&[1]));
    let _ = queue.act_with((0, 5), &put, &piece(&[2]));
    queue
}

/// A get lets the waiting message in, and a purge lets its putter go.
#[test]
fn a_get_lets_a_waiting_message_in(rt: HostRuntime) {
    let mut queue = queue_of_one();
    let get = Ask::MsgqGet { timeout: WAITS };
    let peek = Ask::MsgqPeek;
    gives(&rt, &queue.act((1, 5), &peek), DONE, &[1]);
    is(&rt, &queue.act((1, 5), &get), DONE, &[1], &[(0, ZERO, &[])]);
    gives(&rt, &queue.act((1, 5), &get), DONE, &[2]);
    answers(&rt, &queue.act((1, 5), &peek), fails(Errno::ENOMSG));
    answers(&rt, &queue.act((1, 5), &get), Answer::Wait);
    let mut queue = queue_of_one();
    let gone = Reply::Fail(Errno::ENOMSG);
    wakes(
        &rt,
        &queue.act((1, 5), &Ask::MsgqPurge),
        VOID,
        &[(0, gone, &[])],
    );
    answers(&rt, &queue.act((1, 5), &Ask::MsgqUsed), DONE);
}

/// The newest value first, no more than there is room for, and one that waits for a value.
#[test]
fn the_newest_value_comes_first(rt: HostRuntime) {
    let mut stack = Trial::of(Contents::Stack(ValueStack::new(2)));
    let pop = Ask::StackPop { timeout: WAITS };
    answers(&rt, &stack.act((0, 5), &Ask::StackPush { value: 7 }), DONE);
    answers(
        &rt,
        &stack.act((0, 5), &Ask::StackPush { value: 0x0102 }),
        DONE,
    );
    answers(
        &rt,
        &stack.act((0, 5), &Ask::StackPush { value: 9 }),
        fails(Errno::ENOMEM),
    );
    gives(&rt, &stack.act((1, 5), &pop), DONE, &[2, 1, 0, 0]);
    gives(&rt, &stack.act((1, 5), &pop), DONE, &[7, 0, 0, 0]);
    answers(&rt, &stack.act((1, 5), &pop), Answer::Wait);
    let push = Ask::StackPush { value: 3 };
    wakes(
        &rt,
        &stack.act((0, 5), &push),
        DONE,
        &[(1, ZERO, &[3, 0, 0, 0])],
    );
}

/// A pipe of four bytes: what it takes, what it gives, and what is left of it once it is closed.
#[test]
fn a_closed_pipe_gives_what_is_left(rt: HostRuntime) {
    let mut pipe = Trial::of(Contents::Pipe(BytePipe::new(4)));
    for (length, bytes, timeout, answer) in [
        (0, &[] as &[u8], Timeout::NoWait, DONE),
        (
            6,
            &[1, 2, 3, 4, 5, 6],
            Timeout::NoWait,
            Answer::Now(Reply::Num(4)),
        ),
        (1, &[9], Timeout::NoWait, fails(Errno::EAGAIN)),
    ] {
        let write = write_of(length, timeout);
        let given = if bytes.len() <= 256 {
            piece(bytes)
        } else {
            Piece::new()
        };
        answers(&rt, &pipe.act_with((0, 5), &write, &given), answer);
    }
    let read = read_of(3, Timeout::NoWait);
    gives(
        &rt,
        &pipe.act((0, 5), &read),
        Answer::Now(Reply::Num(3)),
        &[1, 2, 3],
    );
    answers(&rt, &pipe.act((0, 5), &Ask::PipeClose), VOID);
    gives(
        &rt,
        &pipe.act((0, 5), &read),
        Answer::Now(Reply::Num(1)),
        &[4],
    );
    answers(&rt, &pipe.act((0, 5), &read), fails(Errno::EPIPE));
}

/// A reset lets all go who wait, the least priority number first.
#[test]
fn a_reset_lets_all_go(rt: HostRuntime) {
    let mut sem = Trial::of(Contents::Sem { count: 0, limit: 1 });
    let take = Ask::SemTake { timeout: WAITS };
    let _ = sem.act((1, 5), &take);
    let _ = sem.act((2, 3), &take);
    let _ = sem.act((3, 5), &take);
    let gone = Reply::Fail(Errno::EAGAIN);
    wakes(
        &rt,
        &sem.act((4, 0), &Ask::SemReset),
        VOID,
        &[(2, gone, &[]), (1, gone, &[]), (3, gone, &[])],
    );
}

/// Readers of a pipe share the bytes that are written, the least priority number first.
#[test]
fn readers_share(rt: HostRuntime) {
    let mut pipe = Trial::of(Contents::Pipe(BytePipe::new(4)));
    let three = read_of(3, WAITS);
    let two = read_of(2, WAITS);
    let _ = pipe.act((1, 5), &three);
    let _ = pipe.act((2, 3), &two);
    let _ = pipe.act((3, 5), &two);
    let write = write_of(4, WAITS);
    wakes(
        &rt,
        &pipe.act_with((4, 0), &write, &piece(&[1, 2, 3, 4])),
        Answer::Now(Reply::Num(4)),
        &[(2, Reply::Num(2), &[1, 2]), (1, Reply::Num(2), &[3, 4])],
    );
}

/// Writers to a pipe share the room that a read leaves.
#[test]
fn writers_share(rt: HostRuntime) {
    let mut pipe = Trial::of(Contents::Pipe(BytePipe::new(4)));
    let four = write_of(4, WAITS);
    let two = write_of(2, WAITS);
    let _ = pipe.act_with((0, 5), &four, &piece(&[1, 2, 3, 4]));
    let _ = pipe.act_with((1, 5), &four, &piece(&[1, 2, 3, 4]));
    let _ = pipe.act_with((2, 3), &two, &piece(&[5, 6]));
    let read = read_of(3, WAITS);
    is(
        &rt,
        &pipe.act((4, 0), &read),
        Answer::Now(Reply::Num(3)),
        &[1, 2, 3],
        &[(2, Reply::Num(2), &[]), (1, Reply::Num(1), &[])],
    );
}
