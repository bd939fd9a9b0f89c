//! The threads of a dump.

ghost use Rattle.std.specs.{Prelude.{◌≡◌, ◌+◌, ◌*◌, ◌≤◌, ◌<◌, vec_len, vec_capacity}, List.{flat_map}};
ghost use Rattle.um_machine.specs.State.{thread_at};
ghost use Rattle.um_trace.specs.{
  Dump.{numbers, standing_text, rights_text, life_text, thread_line, thread_line_of},
  Room.{Puts},
};

use crate::dump::standing::{Standing, shown_thread, standing_of};
use crate::indexed::Indexed;
use crate::names::{put_domain, put_of, put_row};
use crate::room::{put_address, put_newline, put_short, put_signed, put_space, put_text};
use um_base::ROWS;
use um_machine::Life;
use um_steps::Dumped;
use um_vocabulary::mode_word;

/// How a thread is.
#[tactic(auto, unfolding(crate::specs::Dump::standing_text))]
fn put_standing(room: &mut Vec<u8>, image: &Indexed, standing: Standing)
    requires { vec_len room.old + 30 ≤ vec_capacity room.old }
    ensures { Puts room.old room.new (standing_text image.now standing) 30 }
{
    match standing {
        Standing::Unborn => put_text(room, "unborn"),
        Standing::Doomed => put_text(room, "doomed"),
        Standing::Ended => put_text(room, "ended"),
        Standing::Waits(row) => {
            put_text(room, "waits:");
            put_row(room, image.image(), row.0 as usize);
        }
        Standing::Joins(who) => put_of(room, image, "waits:", who),
        Standing::Watches(addr) => {
            put_text(room, "waits:");
            put_address(room, addr);
        }
        Standing::Ready => put_text(room, "ready"),
    }
}

/// The mode, the priority and the domain of a thread that was started.
#[tactic(auto, unfolding(crate::specs::Dump::rights_text))]
fn put_rights<D: Dumped>(room: &mut Vec<u8>, image: &Indexed, last: &D, thread: u8)
    requires { vec_len room.old + 41 ≤ vec_capacity room.old }
    ensures { Puts room.old room.new
        (rights_text image.now (thread_at (D.state last.now) thread)) 41 }
{
    let thread = thread as usize;
    if last.life(thread) != Life::Unborn {
        put_space(room);
        put_short(room, mode_word(last.mode(thread)));
        put_space(room);
        put_signed(room, last.priority(thread));
        put_space(room);
        put_domain(room, image.image(), last.domain(thread));
    }
}

/// What follows the object of a thread.
#[tactic(auto, unfolding(crate::specs::Dump::life_text))]
fn put_life<D: Dumped>(room: &mut Vec<u8>, image: &Indexed, last: &D, thread: u8)
    requires { vec_len room.old + 71 ≤ vec_capacity room.old }
    ensures { Puts room.old room.new
        (life_text image.now (D.state last.now) thread (thread_at (D.state last.now) thread)) 71 }
{
    put_standing(room, image, standing_of(last, thread));
    put_rights(room, image, last, thread);
}

/// The line of a thread and its row.
#[tactic(auto, unfolding(crate::specs::Dump::thread_line))]
fn put_thread_line<D: Dumped>(room: &mut Vec<u8>, image: &Indexed, last: &D, row: usize, thread: u8)
    requires room { vec_len room.old + 128 ≤ vec_capacity room.old }
    requires row { row < ROWS }
    ensures { Puts room.old room.new (thread_line image.now (D.state last.now) row thread) 128 }
{
    put_text(room, "thread ");
    put_row(room, image.image(), row);
    put_space(room);
    put_life(room, image, last, thread);
    put_newline(room);
}

/// The line of a row, where a thread object stands there.
#[tactic(auto, unfolding(crate::specs::Dump::thread_line_of))]
fn put_line_of<D: Dumped>(room: &mut Vec<u8>, image: &Indexed, last: &D, row: usize)
    requires room { vec_len room.old + 128 ≤ vec_capacity room.old }
    requires row { row < ROWS }
    ensures { Puts room.old room.new (thread_line_of image.now (D.state last.now) row) 128 }
{
    match shown_thread(image.image(), last, row) {
        Some(thread) => put_thread_line(room, image, last, row, thread),
        None => {}
    }
}

/// The lines of threads, by the rows of their objects.
pub fn put_threads<D: Dumped>(room: &mut Vec<u8>, image: &Indexed, last: &D)
    requires { vec_len room.old + 128 * ROWS ≤ vec_capacity room.old }
    ensures { Puts room.old room.new
        (flat_map (thread_line_of image.now (D.state last.now)) (numbers ROWS)) (128 * ROWS) }
{
    for row in 0..ROWS {
        put_line_of(room, image, last, row);
    }
}
