//! Pipes.

ghost use Rattle.std.specs.Prelude.{◌≡◌, ◌-◌, ◌<◌, ◌≤◌, ◌++◌, ◌∷◌, [], length, take, drop};
ghost use Rattle.um_base.specs.declared.ask.Waiter.{Waiter};
ghost use Rattle.um_base.specs.declared.names.Reply.TheVariants as Reply;
ghost use Rattle.um_machine.specs.declared.contents.Contents.TheVariants as Contents;
ghost use Rattle.um_machine.specs.{
  Services.{in_order, told, is_empty, read_length, still_waiting, pipe_write, pipe_take, pipe_read, pipe_act},
  Serving.{served},
};
ghost use Rattle.um_service.specs.{
  Left.{left},
  Preview.{said},
  Sides.{served_on, side_served, is_idle, bytes_after, told_first},
};

use crate::outcome::{Outcome, Woken};
use crate::preview::{Said, all_go, at_once, blocked, shares};
use crate::waking::{answers, blocks, gives, wakes_all};
use um_base::{Answer, Ask, Errno, Piece, Reply, THREADS, Timeout, Told, Waiter};
use um_machine::{BytePipe, Served, Waiters};

/// Those who wait on a pipe and are served together.
#[derive(Clone, Copy)]
enum Side {
    Readers,
    Writers,
}

impl Side {
    fn served(self) -> Served
        ensures { result ≡ served_on self }
    {
        match self {
            Side::Readers => Served::Readers,
            Side::Writers => Served::Writers,
        }
    }
}

/// At most this many of the first bytes.
fn first_bytes(bytes: &[u8], n: usize) -> &[u8]
    ensures value { result.now ≡ take n bytes.now }
    ensures few { length result.now ≤ n }
{
    if n >= bytes.len() { bytes } else { &bytes[..n] }
}

/// How many bytes a read asks for.
fn read_length(ask: &Ask) -> usize
    ensures { result ≡ read_length ask.now }
{
    match ask {
        Ask::PipeRead { length, .. } => *length as usize,
        _ => 0,
    }
}

/// A reader takes the bytes that are there, and is told how many.
fn serve_reader(pipe: &mut BytePipe, first: &Waiter, woken: &mut Woken)
    requires { length woken.old < THREADS }
    ensures left { pipe.new ≡ record pipe.old { bytes = drop (read_length first.now.ask) pipe.old.bytes } }
    ensures woken { let taken = take (read_length first.now.ask) pipe.old.bytes in
        woken.new ≡ woken.old ++ told first.now (Reply.Num (length taken)) taken ∷ [] }
{
    let taken = pipe.take(read_length(&first.ask));
    let told = Told {
        reply: Reply::Num(taken.len() as u32),
        taken,
    };
    woken.push(first.thread, &told);
}

/// A writer puts its bytes as far as there is room, and is told how many.
fn serve_writer(pipe: &mut BytePipe, first: &Waiter, woken: &mut Woken)
    requires room { length woken.old < THREADS }
    ensures left { pipe.new ≡ record pipe.old { bytes = pipe.old.bytes ++ take (pipe.old.size - length pipe.old.bytes) first.now.bytes } }
    ensures woken { let put = take (pipe.old.size - length pipe.old.bytes) first.now.bytes in
        woken.new ≡ woken.old ++ told first.now (Reply.Num (length put)) [] ∷ [] }
{
    let room = (pipe.size() as usize).saturating_sub(pipe.len());
    let put = first_bytes(first.bytes.as_slice(), room);
    pipe.append(put);
    let told = Told {
        reply: Reply::Num(put.len() as u32),
        taken: Piece::new(),
    };
    woken.push(first.thread, &told);
}

/// Whether a pipe serves nobody of a side: readers want a byte, writers room.
fn is_idle(pipe: &BytePipe, side: Side) -> bool
    ensures { result ≡ is_idle side pipe.now.size pipe.now.bytes }
{
    match side {
        Side::Readers => pipe.len() == 0,
        Side::Writers => pipe.len() >= pipe.size() as usize,
    }
}

/// One of a side is served.
fn serve_one(pipe: &mut BytePipe, side: Side, first: &Waiter, woken: &mut Woken)
    requires { length woken.old < THREADS }
    ensures left { pipe.new ≡ record pipe.old { bytes = bytes_after side pipe.old.size first.now pipe.old.bytes } }
    ensures woken { woken.new ≡ woken.old ++ told_first side pipe.old.size first.now pipe.old.bytes ∷ [] }
{
    match side {
        Side::Readers => serve_reader(pipe, first, woken),
        Side::Writers => serve_writer(pipe, first, woken),
    }
}

/// Those of a side are served in the order of service while the pipe serves any.
fn serve(pipe: &mut BytePipe, waiters: &mut Waiters, side: Side, woken: &mut Woken)
    ensures bytes { pipe.new ≡ record pipe.old { bytes = (side_served side pipe.old.size (in_order (served (served_on side) waiters.old)) pipe.old.bytes).0 } }
    ensures woken { woken.new ≡ (side_served side pipe.old.size (in_order (served (served_on side) waiters.old)) pipe.old.bytes).1 }
    ensures waiters { waiters.new ≡ still_waiting woken.new waiters.old }
{
    let waiting = waiters.len();
    prove!(waiting <= THREADS);
    woken.clear();
    'serving: loop {
        if is_idle(pipe, side) {
            return;
        }
        match waiters.take_first(side.served()) {
            Some(first) => serve_one(pipe, side, &first, woken),
            None => return,
        }
    }
}

/// Writes bytes as far as there is room and serves readers, or waits for room.
fn write(
    pipe: &mut BytePipe,
    waiters: &mut Waiters,
    who: &Waiter,
    n: u32,
    timeout: Timeout,
    outcome: &mut Outcome,
)
    requires { who.now.thread.0 < THREADS }
    ensures { pipe_write pipe.old.size pipe.old.bytes pipe.old.closed waiters.old who.now n who.now.bytes timeout ≡ left (Contents.Pipe pipe.new) waiters.new outcome.new }
{
    if n == 0 {
        return answers(Reply::Num(0), outcome);
    }
    let closed = pipe.closed();
    if closed {
        return answers(Reply::Fail(Errno::EPIPE), outcome);
    }
    if pipe.len() >= pipe.size() as usize {
        return blocks(waiters, who, timeout, Errno::EAGAIN, outcome);
    }
    let put = first_bytes(who.bytes.as_slice(), pipe.size() as usize - pipe.len());
    pipe.append(put);
    answers(Reply::Num(put.len() as u32), outcome);
    serve(pipe, waiters, Side::Readers, &mut outcome.woken);
}

/// Takes bytes that are there, and serves writers.
fn take(pipe: &mut BytePipe, waiters: &mut Waiters, n: u32, outcome: &mut Outcome)
    ensures { pipe_take pipe.old.size pipe.old.bytes pipe.old.closed waiters.old n ≡ left (Contents.Pipe pipe.new) waiters.new outcome.new }
{
    let taken = pipe.take(n as usize);
    gives(Reply::Num(taken.len() as u32), &taken, outcome);
    serve(pipe, waiters, Side::Writers, &mut outcome.woken);
}

/// Whether a pipe has no byte.
fn is_empty(pipe: &BytePipe) -> bool
    ensures { result ≡ is_empty pipe.now.bytes }
{
    pipe.len() == 0
}

/// Reads the bytes that are there, or waits for one.
fn read(
    pipe: &mut BytePipe,
    waiters: &mut Waiters,
    who: &Waiter,
    n: u32,
    timeout: Timeout,
    outcome: &mut Outcome,
)
    requires { who.now.thread.0 < THREADS }
    ensures { pipe_read pipe.old.size pipe.old.bytes pipe.old.closed waiters.old who.now n timeout ≡ left (Contents.Pipe pipe.new) waiters.new outcome.new }
{
    if n == 0 {
        return answers(Reply::Num(0), outcome);
    }
    if !is_empty(pipe) {
        return take(pipe, waiters, n, outcome);
    }
    if pipe.closed() {
        return answers(Reply::Fail(Errno::EPIPE), outcome);
    }
    blocks(waiters, who, timeout, Errno::EAGAIN, outcome);
}

/// What a call asks of a pipe.
pub fn act(pipe: &mut BytePipe, waiters: &mut Waiters, who: &Waiter, outcome: &mut Outcome)
    requires { who.now.thread.0 < THREADS }
    ensures { pipe_act pipe.old.size pipe.old.bytes pipe.old.closed waiters.old who.now who.now.ask ≡ left (Contents.Pipe pipe.new) waiters.new outcome.new }
{
    match who.ask {
        Ask::PipeWrite { length, timeout } => {
            write(pipe, waiters, who, length, timeout, outcome);
        }
        Ask::PipeRead { length, timeout } => read(pipe, waiters, who, length, timeout, outcome),
        Ask::PipeReset => {
            pipe.clear();
            wakes_all(waiters, Reply::Void, Errno::ECANCELED, outcome);
        }
        Ask::PipeClose => {
            pipe.close();
            wakes_all(waiters, Reply::Void, Errno::EPIPE, outcome);
        }
        _ => answers(Reply::Void, outcome),
    }
}

/// What a write says: readers share the bytes that are then there.
fn says_write(pipe: &BytePipe, waiters: &Waiters, n: u32, given: &Piece, timeout: Timeout) -> Said
    ensures { (who : Waiter) → said (pipe_write pipe.now.size pipe.now.bytes pipe.now.closed waiters.now who n given.now timeout) ≡ result }
{
    if n == 0 {
        return at_once(Reply::Num(0));
    }
    if pipe.closed() {
        return at_once(Reply::Fail(Errno::EPIPE));
    }
    let there = pipe.len() as u32;
    if there >= pipe.size() {
        return blocked(timeout, Errno::EAGAIN);
    }
    let put = (given.len() as u32).min(pipe.size() - there);
    Said {
        answer: Answer::Now(Reply::Num(put)),
        woken: shares(waiters, Served::Readers, there + put),
    }
}

/// What a read says: writers share the room that is then there.
fn says_read(pipe: &BytePipe, waiters: &Waiters, n: u32, timeout: Timeout) -> Said
    ensures { (who : Waiter) → said (pipe_read pipe.now.size pipe.now.bytes pipe.now.closed waiters.now who n timeout) ≡ result }
{
    if n == 0 {
        return at_once(Reply::Num(0));
    }
    let there = pipe.len() as u32;
    if there > 0 {
        let taken = n.min(there);
        return Said {
            answer: Answer::Now(Reply::Num(taken)),
            woken: shares(
                waiters,
                Served::Writers,
                pipe.size().saturating_sub(there - taken),
            ),
        };
    }
    if pipe.closed() {
        return at_once(Reply::Fail(Errno::EPIPE));
    }
    blocked(timeout, Errno::EAGAIN)
}

/// What a call on a pipe says.
pub fn says(pipe: &BytePipe, waiters: &Waiters, who: &Waiter) -> Said
    ensures { said (pipe_act pipe.now.size pipe.now.bytes pipe.now.closed waiters.now who.now who.now.ask) ≡ result }
{
    match who.ask {
        Ask::PipeWrite { length, timeout } => {
            says_write(pipe, waiters, length, &who.bytes, timeout)
        }
        Ask::PipeRead { length, timeout } => says_read(pipe, waiters, length, timeout),
        Ask::PipeReset => all_go(waiters, Reply::Void, Errno::ECANCELED),
        Ask::PipeClose => all_go(waiters, Reply::Void, Errno::EPIPE),
        _ => at_once(Reply::Void),
    }
}
