//! The objects of a dump.

ghost use Rattle.std.specs.{
  Prelude.{◌≡◌, ◌+◌, ◌*◌, ◌≤◌, ◌<◌, ◌++◌, ◌&&◌, [], length, not, vec_len, vec_capacity, if◌then◌else◌},
  List.{flat_map},
};
ghost use Rattle.um_machine.specs.State.{object_at, pair_at};
ghost use Rattle.um_trace.specs.{
  Dump.{numbers, lead, state_word, flag_word, marks_text, holders_text, owner_text, kept_text, digits_text, name_text, content_text, object_line, object_line_of},
  Names.{thread_text},
  Room.{Puts},
};

use crate::dump::lists::{put_lead, put_share};
use crate::dump::state::is_shown;
use crate::indexed::Indexed;
use crate::names::{put_row, put_thread};
use crate::room::{put_bytes, put_decimal, put_newline, put_short, put_space, put_text};
use crate::words::any_kind_word;
use um_base::{Kind, PIECE, ROWS, THREADS, ThreadIx};
use um_machine::{Contents, Status};
use um_steps::Dumped;

/// How many bytes the holders of an object take at most: each a name and a comma.
const HOLDERS_ROOM: usize = 25 * THREADS + 1;

/// How many bytes the line of an object takes at most.
const OBJECT_ROOM: usize = HOLDERS_ROOM + 600;

/// Whether an object is initialised, or gone.
#[tactic(auto, unfolding(crate::specs::Dump::state_word))]
fn state_word<D: Dumped>(last: &D, row: usize) -> &'static str
    requires { row < ROWS }
    ensures value { result.now ≡ state_word (object_at (D.state last.now) row) }
    ensures short { length result.now ≤ 6 }
{
    if last.status(row) == Status::Gone {
        "gone"
    } else if last.is_initialised(row) {
        "init"
    } else {
        "uninit"
    }
}

/// Whether everybody may use an object.
#[tactic(auto, unfolding(crate::specs::Dump::flag_word))]
fn flag_word(public: bool) -> &'static str
    ensures value { result.now ≡ flag_word public }
    ensures short { length result.now ≤ 7 }
{
    if public { "public" } else { "private" }
}

/// An object's kind, state and flag.
#[tactic(auto, unfolding(crate::specs::Dump::marks_text))]
fn put_marks<D: Dumped>(room: &mut Vec<u8>, last: &D, row: usize)
    requires room { vec_len room.old + 27 ≤ vec_capacity room.old }
    requires row { row < ROWS }
    ensures { Puts room.old room.new (marks_text (object_at (D.state last.now) row)) 27 }
{
    put_short(room, any_kind_word(last.kind(row)));
    put_space(room);
    put_text(room, state_word(last, row));
    put_space(room);
    put_text(room, flag_word(last.is_public(row)));
}

/// A thread, if it has a permission on an object, with a comma before it if it isn't the first. Returns whether the first is still to come.
fn put_holder(room: &mut Vec<u8>, image: &Indexed, holds: bool, thread: u8, first: bool) -> bool
    requires { vec_len room.old + 25 ≤ vec_capacity room.old }
    ensures text { Puts room.old room.new
        (if holds then lead first ++ thread_text image.now thread else []) 25 }
    ensures none { result ≡ (first && not holds) }
{
    if holds {
        put_lead(room, first);
        put_thread(room, image, thread);
    }
    first && !holds
}

/// The threads that have a pair with an object, by index.
#[tactic(auto, unfolding(crate::specs::Dump::holders_text))]
fn put_holders<D: Dumped>(room: &mut Vec<u8>, image: &Indexed, last: &D, row: usize)
    requires room { vec_len room.old + HOLDERS_ROOM ≤ vec_capacity room.old }
    requires row { row < ROWS }
    ensures { Puts room.old room.new (holders_text image.now (D.state last.now) row) HOLDERS_ROOM }
{
    let mut first = true;
    for thread in 0..THREADS {
        first = put_holder(room, image, last.has_pair(thread, row), thread as u8, first);
    }
    if first {
        put_text(room, "-");
    }
}

/// Who has locked a mutex, and how often.
#[tactic(auto, unfolding(crate::specs::Dump::owner_text))]
fn put_owner(room: &mut Vec<u8>, image: &Indexed, owner: Option<ThreadIx>, depth: u32)
    requires { vec_len room.old + 35 ≤ vec_capacity room.old }
    ensures { Puts room.old room.new (owner_text image.now owner depth) 35 }
{
    match owner {
        None => put_text(room, "free"),
        Some(owner) => {
            put_thread(room, image, owner.0);
            put_text(room, "*");
            put_decimal(room, depth);
        }
    }
}

/// What an initialised object keeps.
#[tactic(auto, unfolding(crate::specs::Dump::kept_text))]
fn put_kept(room: &mut Vec<u8>, image: &Indexed, contents: &Contents)
    requires { vec_len room.old + 35 ≤ vec_capacity room.old }
    ensures { Puts room.old room.new (kept_text image.now contents.now) 35 }
{
    match contents {
        Contents::Nothing => put_text(room, "-"),
        Contents::Named(_) => put_text(room, "-"),
        Contents::Sem { count, limit } => put_share(room, *count, *limit),
        Contents::Mutex { owner, depth } => put_owner(room, image, *owner, *depth),
        Contents::Msgq(queue) => put_share(room, queue.len() as u32, queue.most()),
        Contents::Stack(stack) => put_share(room, stack.len() as u32, stack.most()),
        Contents::Pipe(pipe) => {
            if pipe.closed() {
                put_text(room, "closed")
            } else {
                put_share(room, pipe.len() as u32, pipe.size())
            }
        }
        Contents::Stopped { status } => {
            put_decimal(room, *status);
            put_text(room, "/stopped");
        }
        Contents::Running { .. } => put_text(room, "0/running"),
    }
}

/// What the object of a row keeps, if it is initialised.
#[tactic(auto, unfolding(crate::specs::Dump::kept_text))]
fn put_kept_at<D: Dumped>(room: &mut Vec<u8>, image: &Indexed, last: &D, row: usize)
    requires room { vec_len room.old + 35 ≤ vec_capacity room.old }
    requires row { row < ROWS }
    ensures { Puts room.old room.new
        (kept_text image.now (object_at (D.state last.now) row).contents) 35 }
{
    match last.contents(row) {
        Some(contents) => put_kept(room, image, contents),
        None => put_text(room, "-"),
    }
}

/// A name in digits, or a dash for none.
#[tactic(auto, unfolding(crate::specs::Dump::digits_text))]
fn put_digits(room: &mut Vec<u8>, name: &[u8])
    requires room { vec_len room.old + 512 ≤ vec_capacity room.old }
    requires short { length name.now ≤ PIECE }
    ensures { Puts room.old room.new (digits_text name.now) 512 }
{
    if name.is_empty() {
        put_text(room, "-");
    } else {
        put_bytes(room, name);
    }
}

/// A thread's name.
#[tactic(auto, unfolding(crate::specs::Dump::name_text))]
fn put_name_at<D: Dumped>(room: &mut Vec<u8>, last: &D, row: usize)
    requires room { vec_len room.old + 512 ≤ vec_capacity room.old }
    requires row { row < ROWS }
    ensures { Puts room.old room.new (name_text (object_at (D.state last.now) row).contents) 512 }
{
    match last.contents(row) {
        Some(Contents::Named(name)) => put_digits(room, name.as_slice()),
        _ => put_text(room, "-"),
    }
}

/// What an object keeps.
#[tactic(auto, unfolding(crate::specs::Dump::content_text))]
fn put_content<D: Dumped>(room: &mut Vec<u8>, image: &Indexed, last: &D, row: usize)
    requires room { vec_len room.old + 512 ≤ vec_capacity room.old }
    requires row { row < ROWS }
    ensures { Puts room.old room.new
        (content_text image.now (object_at (D.state last.now) row)) 512 }
{
    if last.status(row) == Status::Gone {
        put_text(room, "-");
    } else if last.kind(row) == Some(Kind::Thread) {
        put_name_at(room, last, row);
    } else if last.is_initialised(row) {
        put_kept_at(room, image, last, row);
    } else {
        put_text(room, "-");
    }
}

/// The line of an object.
#[tactic(auto, unfolding(crate::specs::Dump::object_line))]
fn put_object_line<D: Dumped>(room: &mut Vec<u8>, image: &Indexed, last: &D, row: usize)
    requires room { vec_len room.old + OBJECT_ROOM ≤ vec_capacity room.old }
    requires row { row < ROWS }
    ensures { Puts room.old room.new (object_line image.now (D.state last.now) row) OBJECT_ROOM }
{
    put_text(room, "object ");
    put_row(room, image.image(), row);
    put_space(room);
    put_marks(room, last, row);
    put_space(room);
    put_holders(room, image, last, row);
    put_space(room);
    put_content(room, image, last, row);
    put_newline(room);
}

/// The line of a row, where an object stands there.
#[tactic(auto, unfolding(crate::specs::Dump::object_line_of))]
fn put_line_of<D: Dumped>(room: &mut Vec<u8>, image: &Indexed, last: &D, row: usize)
    requires room { vec_len room.old + OBJECT_ROOM ≤ vec_capacity room.old }
    requires row { row < ROWS }
    ensures { Puts room.old room.new (object_line_of image.now (D.state last.now) row) OBJECT_ROOM }
{
    if is_shown(image.image(), last, row) {
        put_object_line(room, image, last, row);
    }
}

/// The lines of objects, by row.
pub fn put_objects<D: Dumped>(room: &mut Vec<u8>, image: &Indexed, last: &D)
    requires { vec_len room.old + OBJECT_ROOM * ROWS ≤ vec_capacity room.old }
    ensures { Puts room.old room.new
        (flat_map (object_line_of image.now (D.state last.now)) (numbers ROWS)) (OBJECT_ROOM * ROWS) }
{
    for row in 0..ROWS {
        put_line_of(room, image, last, row);
    }
}
