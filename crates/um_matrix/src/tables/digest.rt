//! Digests of states: the same states have the same one. Different states may have it too, so nothing that is promised rests on it.

use crate::tables::Tables;
use um_base::{Reply, STATIC_ROWS, THREADS, ThreadIx};
use um_machine::{Contents, Life, Object, Status, Thread, Waiters};

/// Mixes a number into a digest.
fn mix(digest: u64, number: u64) -> u64 {
    (digest ^ number)
        .wrapping_mul(0x9e37_79b9_7f4a_7c15)
        .rotate_left(29)
}

/// Mixes bytes into a digest, each with its place. Those that are 0 are left out, so an area needn't be read to its end.
fn mix_bytes(digest: u64, bytes: &[u8]) -> u64 {
    let mut sum = digest;
    for (i, byte) in bytes.iter().enumerate() {
        if *byte != 0 {
            sum = sum.wrapping_add(mix(i as u64, *byte as u64));
        }
    }
    sum
}

/// Mixes marks into a digest.
fn mix_marks(digest: u64, marks: &[bool]) -> u64 {
    let mut sum = digest;
    for (i, mark) in marks.iter().enumerate() {
        if *mark {
            sum = sum.wrapping_add(mix(i as u64, 1));
        }
    }
    sum
}

/// The number of a life.
fn life_number(life: Life) -> u64 {
    match life {
        Life::Unborn => 0,
        Life::Living => 1,
        Life::Ended => 2,
    }
}

/// The number of a reply.
fn reply_number(reply: Reply) -> u64 {
    match reply {
        Reply::Void => 0,
        Reply::Num(n) => 4 + n as u64,
        Reply::At(addr) => 4 + addr.0 as u64,
        Reply::Null => 1,
        Reply::Fail(_) => 2,
    }
}

/// The number of a thread, or of none.
fn thread_number(thread: Option<ThreadIx>) -> u64 {
    match thread {
        Some(thread) => thread.0 as u64 + 1,
        None => 0,
    }
}

/// Mixes those who wait into a digest, in their order.
fn mix_waiters(digest: u64, waiters: &Waiters) -> u64 {
    let mut mixed = digest;
    for waiter in waiters.as_slice() {
        mixed = mix(mixed, waiter.thread.0 as u64 + 1);
    }
    mixed
}

/// Mixes what a call of a thread has worked out into a digest, and the rows that it has checked or has still to pass on or to drop.
fn mix_call(digest: u64, thread: &Thread) -> u64 {
    let mut mixed = mix(digest, thread.pending.len() as u64);
    for register in &thread.registers {
        mixed = mix(mixed, *register as u64);
    }
    mixed = mix(mixed, reply_number(thread.reply));
    mixed = mix_bytes(mixed, thread.buffer.as_slice());
    mixed = mix_marks(mixed.rotate_left(11), &thread.checked);
    mixed = mix_marks(mixed.rotate_left(11), &thread.due);
    mix(mixed, thread_number(thread.child))
}

/// Mixes a thread into a digest.
fn mix_thread(digest: u64, thread: &Thread) -> u64 {
    let marks = [
        thread.doomed,
        thread.aborted,
        thread.suspended,
        thread.keeps_own,
    ];
    let mut mixed = mix(digest, life_number(thread.life));
    mixed = mix_marks(mixed, &marks);
    mixed = mix(mixed, thread.domain as u64);
    mixed = mix(mixed, thread.place.script as u64);
    mixed = mix(mixed, thread.place.line as u64);
    mixed = mix(mixed, thread.place.left as u64);
    mix_call(mixed, thread)
}

/// Mixes what an object keeps into a digest.
fn mix_contents(digest: u64, contents: &Contents) -> u64 {
    match contents {
        Contents::Nothing => mix(digest, 0),
        Contents::Named(name) => mix_bytes(mix(digest, 1), name.as_slice()),
        Contents::Sem { count, .. } => mix(mix(digest, 2), *count as u64),
        Contents::Mutex { owner, depth } => mix(mix(digest, thread_number(*owner)), *depth as u64),
        Contents::Msgq(queue) => {
            let mixed = mix(mix(digest, 3), queue.len() as u64);
            match queue.first() {
                Some(message) => mix_bytes(mixed, message.as_slice()),
                None => mixed,
            }
        }
        Contents::Stack(stack) => {
            let mut mixed = mix(digest, 4);
            for value in stack.values() {
                mixed = mix(mixed, *value as u64);
            }
            mixed
        }
        Contents::Pipe(pipe) => mix_bytes(mix(digest, 5), pipe.bytes()),
        Contents::Stopped { status } => mix(mix(digest, 6), *status as u64),
        Contents::Running { deadline } => mix(mix(digest, 7), *deadline),
    }
}

/// The number of what stands at an address.
fn status_number(status: Status) -> u64 {
    match status {
        Status::Free => 0,
        Status::Reserved => 1,
        Status::Live => 2,
        Status::Gone => 3,
    }
}

/// Mixes an object into a digest.
fn mix_object(digest: u64, object: &Object) -> u64 {
    let marks = [object.public, object.init];
    let mixed = mix_marks(mix(digest, status_number(object.status)), &marks);
    let mixed = mix_waiters(mixed, &object.waiters);
    let mixed = mix(mixed, thread_number(object.cleaner));
    mix_contents(mixed, &object.contents)
}

/// Mixes objects and who has pairs with them into a digest, from a row on.
fn mix_objects(digest: u64, objects: &[Object], pairs: &[[bool; THREADS]], row: usize) -> u64 {
    let mut mixed = digest;
    for (x, object) in objects.iter().enumerate() {
        if object.status != Status::Free {
            mixed = mix_object(mix(mixed, x as u64), object);
            match pairs.get(row.saturating_add(x)) {
                Some(holders) => mixed = mix_marks(mixed, holders),
                None => {}
            }
        }
    }
    mixed
}

impl<'a> Tables<'a> {
    /// A number that the same states have in common.
    pub(crate) fn digest(&self) -> u64 {
        let mut digest = self.clock.now();
        for thread in &self.threads {
            if thread.life != Life::Unborn {
                digest = mix_thread(digest, thread);
            }
            digest = mix(digest, 1);
        }
        let (statics, dynamics) = self.objects.written();
        digest = mix_objects(digest, statics, &self.pairs, 0);
        digest = mix_objects(digest, dynamics, &self.pairs, STATIC_ROWS);
        digest = mix_waiters(digest, &self.joins);
        digest = mix_waiters(digest, &self.futexes);
        digest = mix_bytes(digest, self.memory.used());
        mix_bytes(digest.rotate_left(7), self.stacks.used())
    }
}
