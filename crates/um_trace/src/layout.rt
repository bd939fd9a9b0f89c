//! The text of the addresses of an image.

ghost use Rattle.std.specs.Prelude.{◌≡◌, ◌+◌, ◌*◌, ◌≤◌, ◌++◌, length, codes, vec_len, vec_capacity};
ghost use Rattle.um_trace.specs.{
  Layout.{rodata_line, partition_line, stack_size_text, place_line, layout_text, layout_room},
  Room.{Puts},
};

use crate::memory::put_range;
use crate::room::{put_address, put_decimal, put_newline, put_short, put_space, put_text};
use um_base::{Image, Name, ObjectDef, Partition, Range, Setup};
use um_vocabulary::{attr_word, kind_word};

/// The line of the read-only data, where there is some.
#[tactic(auto, unfolding(crate::specs::Layout::rodata_line))]
fn put_rodata(room: &mut Vec<u8>, rodata: Option<Range>)
    requires { vec_len room.old + 32 ≤ vec_capacity room.old }
    ensures { Puts room.old room.new (rodata_line rodata) 32 }
{
    match rodata {
        Some(range) => {
            put_text(room, "rodata ");
            put_range(room, range.start, range.size);
            put_newline(room);
        }
        None => {}
    }
}

/// A word, a name, and a space.
fn put_named(room: &mut Vec<u8>, word: &str, name: &Name)
    requires { vec_len room.old + length word.now + 25 ≤ vec_capacity room.old }
    ensures { Puts room.old room.new (word.now ++ name.now ++ codes " ") (length word.now + 25) }
{
    put_text(room, word);
    put_short(room, name.as_slice());
    put_space(room);
}

/// The line of a partition.
#[tactic(auto, unfolding(crate::specs::Layout::partition_line))]
fn put_partition(room: &mut Vec<u8>, partition: &Partition)
    requires { vec_len room.old + 72 ≤ vec_capacity room.old }
    ensures { Puts room.old room.new (partition_line partition.now) 72 }
{
    put_named(room, "partition ", &partition.name);
    put_range(room, partition.range.start, partition.range.size);
    put_space(room);
    put_short(room, attr_word(partition.attr));
    put_newline(room);
}

/// The rounded size of a thread stack.
#[tactic(auto, unfolding(crate::specs::Layout::stack_size_text))]
fn put_stack_size(room: &mut Vec<u8>, setup: Setup)
    requires { vec_len room.old + 11 ≤ vec_capacity room.old }
    ensures { Puts room.old room.new (stack_size_text setup) 11 }
{
    match setup {
        Setup::ThreadStack { range, declared: _ } => {
            put_space(room);
            put_decimal(room, range.size);
        }
        _ => {}
    }
}

/// The line of an object.
#[tactic(auto, unfolding(crate::specs::Layout::place_line))]
fn put_place(room: &mut Vec<u8>, object: &ObjectDef)
    requires { vec_len room.old + 72 ≤ vec_capacity room.old }
    ensures { Puts room.old room.new (place_line object.now) 72 }
{
    put_named(room, "object ", &object.name);
    put_short(room, kind_word(object.kind));
    put_space(room);
    put_address(room, object.addr);
    put_stack_size(room, object.setup);
    put_newline(room);
}

/// How many bytes the text of an image's addresses takes at most.
#[tactic(auto, unfolding(crate::specs::Layout::layout_room))]
pub fn layout_room(image: &Image) -> usize
    ensures { result ≡ layout_room image.now }
{
    32 + 72 * image.partitions.len() + 72 * image.objects.len()
}

/// Appends the text of the addresses of an image: a line for the read-only data, for each partition and for each object. The room is
/// reserved, so it takes no memory.
#[tactic(auto, unfolding(crate::specs::Layout::layout_text, crate::specs::Layout::layout_room))]
pub fn layout_text(image: &Image, room: &mut Vec<u8>)
    requires room { vec_len room.old + layout_room image.now ≤ vec_capacity room.old }
    ensures text { room.new.items ≡ room.old.items ++ layout_text image.now }
    ensures capacity { vec_capacity room.old ≤ vec_capacity room.new }
{
    put_rodata(room, image.rodata);
    for partition in image.partitions.as_slice() {
        put_partition(room, partition);
    }
    for object in image.objects.as_slice() {
        put_place(room, object);
    }
}
