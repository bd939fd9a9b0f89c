//! How threads, objects, domains, ranges and replies are shown.

ghost use Rattle.std.specs.Prelude.{◌+◌, ◌<◌, ◌≤◌, ◌++◌, length, vec_len, vec_capacity};
ghost use Rattle.um_trace.specs.{
  Names.{row_text, thread_text, object_text, domain_text, part_text, reply_text},
  Room.{Puts},
};

use crate::indexed::Indexed;
use crate::room::{put_address, put_decimal, put_short, put_text};
use um_base::{Addr, Attr, Image, Range, Reply, STATIC_ROWS, ThreadIx};
use um_vocabulary::{attr_word, errno_word};

/// The object of a row: a static one by its name, the dynamic address j as `#j`.
#[tactic(auto, unfolding(crate::specs::Names::row_text))]
pub fn put_row(room: &mut Vec<u8>, image: &Image, row: usize)
    requires room { vec_len room.old + 24 ≤ vec_capacity room.old }
    requires few { row < 1000 }
    ensures { Puts room.old room.new (row_text image.now row) 24 }
{
    match image.objects.as_slice().get(row) {
        Some(object) => put_short(room, object.name.as_slice()),
        None => {
            put_text(room, "#");
            put_decimal(room, row.saturating_sub(STATIC_ROWS) as u32);
        }
    }
}

/// A thread, by its thread object.
#[tactic(auto, unfolding(crate::specs::Names::thread_text))]
pub fn put_thread(room: &mut Vec<u8>, image: &Indexed, thread: u8)
    requires { vec_len room.old + 24 ≤ vec_capacity room.old }
    ensures { Puts room.old room.new (thread_text image.now thread) 24 }
{
    put_row(room, image.image(), image.own_row(thread))
}

/// An object by its address, which is shown as it is where no object stands at it.
#[tactic(auto, unfolding(crate::specs::Names::object_text))]
pub fn put_object(room: &mut Vec<u8>, image: &Indexed, addr: Addr)
    requires { vec_len room.old + 24 ≤ vec_capacity room.old }
    ensures { Puts room.old room.new (object_text image.now addr.0) 24 }
{
    match image.row_at(addr.0) {
        Some(row) => put_row(room, image.image(), row),
        None => put_address(room, addr),
    }
}

/// A domain by its name.
#[tactic(auto, unfolding(crate::specs::Names::domain_text))]
pub fn put_domain(room: &mut Vec<u8>, image: &Image, domain: u8)
    requires { vec_len room.old + 24 ≤ vec_capacity room.old }
    ensures { Puts room.old room.new (domain_text image.now domain) 24 }
{
    match image.domains.as_slice().get(domain as usize) {
        Some(domain) => put_short(room, domain.name.as_slice()),
        None => {}
    }
}

/// A range with its rights.
#[tactic(auto, unfolding(crate::specs::Names::part_text))]
pub fn put_part(room: &mut Vec<u8>, range: Range, attr: Attr)
    requires { vec_len room.old + 33 ≤ vec_capacity room.old }
    ensures { Puts room.old room.new (part_text range attr) 33 }
{
    put_address(room, range.start);
    put_text(room, "/");
    put_decimal(room, range.size);
    put_text(room, "/");
    put_short(room, attr_word(attr));
}

/// What a call answers.
#[tactic(auto, unfolding(crate::specs::Names::reply_text))]
pub fn put_reply(room: &mut Vec<u8>, image: &Indexed, reply: Reply)
    requires { vec_len room.old + 24 ≤ vec_capacity room.old }
    ensures { Puts room.old room.new (reply_text image.now reply) 24 }
{
    match reply {
        Reply::Void => put_text(room, "void"),
        Reply::Num(n) => put_decimal(room, n),
        Reply::At(addr) => put_object(room, image, addr),
        Reply::Null => put_text(room, "NULL"),
        Reply::Fail(error) => put_short(room, errno_word(error)),
    }
}

/// A word, and a thread.
pub fn put_of(room: &mut Vec<u8>, image: &Indexed, word: &str, thread: ThreadIx)
    requires { vec_len room.old + length word.now + 24 ≤ vec_capacity room.old }
    ensures { Puts room.old room.new (word.now ++ thread_text image.now thread.0) (length word.now + 24) }
{
    put_text(room, word);
    put_thread(room, image, thread.0);
}

/// A word, and the object at an address.
pub fn put_on(room: &mut Vec<u8>, image: &Indexed, word: &str, addr: Addr)
    requires { vec_len room.old + length word.now + 24 ≤ vec_capacity room.old }
    ensures { Puts room.old room.new (word.now ++ object_text image.now addr.0) (length word.now + 24) }
{
    put_text(room, word);
    put_object(room, image, addr);
}
