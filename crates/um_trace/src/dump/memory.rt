//! The memory of a dump: the blocks of 32 bytes that aren't all zero.

ghost use Rattle.std.specs.{
  Prelude.{◌≡◌, ◌==◌, ◌+◌, ◌-◌, ◌*◌, ◌/◌, ◌≤◌, ◌<◌, IfSome, length, vec_len, vec_capacity},
  List.{flat_map, list_all, range_with_len, slice_range},
};
ghost use Rattle.um_trace.specs.{Dump.{block_line, area_lines}, Room.{Puts}};

use crate::room::{put_address, put_bytes, put_newline, put_space, put_text};
use um_base::{AREA_SIZE, Addr, STACK_AREA};

/// The bytes of a block.
const BLOCK: usize = 32;

/// The blocks of an area.
const BLOCKS: usize = AREA_SIZE as usize / BLOCK;

/// The blocks of a page.
const PAGE: usize = 32;

/// How many bytes are looked at together.
const CHUNK: usize = 1024;

/// Whether all bytes of a chunk are zero. It looks at all of them, whatever it finds, so that they can be taken many at a time.
fn is_zero(chunk: &[u8; CHUNK]) -> bool
    ensures { result ≡ list_all (λ b. b == 0) chunk.now }
{
    let mut bits: u8 = 0;
    'bytes: for b in chunk.as_slice() {
        bits |= *b;
    }
    bits == 0
}

/// Whether all bytes are zero, one after another.
fn each_is_zero(bytes: &[u8]) -> bool
    ensures { result ≡ list_all (λ b. b == 0) bytes.now }
{
    bytes.iter().all(|b| *b == 0)
}

/// Whether all bytes are zero.
fn are_zero(bytes: &[u8]) -> bool
    ensures { result ≡ list_all (λ b. b == 0) bytes.now }
{
    let (chunks, rest) = bytes.as_chunks::<CHUNK>();
    'chunks: for chunk in chunks {
        if !is_zero(chunk) {
            return false;
        }
    }
    each_is_zero(rest)
}

/// The bytes from one place to another, as far as there are any.
fn between(bytes: &[u8], from: usize, to: usize) -> &[u8]
    requires { from ≤ to }
    ensures value { result.now ≡ slice_range bytes.now from to }
    ensures few { length result.now ≤ to - from }
{
    let end = to.min(bytes.len());
    if from < end { &bytes[from..end] } else { &[] }
}

/// The line of the k-th block of an area, unless it is all zero.
#[tactic(auto, unfolding(crate::specs::Dump::block, crate::specs::Dump::block_line))]
fn put_block(room: &mut Vec<u8>, area: u32, bytes: &[u8], k: usize)
    requires room { vec_len room.old + 83 ≤ vec_capacity room.old }
    requires within { k < BLOCKS }
    requires place { area ≤ STACK_AREA }
    ensures { Puts room.old room.new (block_line area bytes.now k) 83 }
{
    let block = between(bytes, BLOCK * k, BLOCK * k + BLOCK);
    if !are_zero(block) {
        put_text(room, "memory ");
        put_address(room, Addr(area + (BLOCK * k) as u32));
        put_space(room);
        put_bytes(room, block);
        put_newline(room);
    }
}

/// The lines of the blocks of a page, which is passed over where all of it is zero.
fn put_page(room: &mut Vec<u8>, area: u32, bytes: &[u8], page: usize)
    requires room { vec_len room.old + 83 * PAGE ≤ vec_capacity room.old }
    requires within { page < BLOCKS / PAGE }
    requires place { area ≤ STACK_AREA }
    ensures { Puts room.old room.new
        (flat_map (block_line area bytes.now) (range_with_len (PAGE * page) PAGE)) (83 * PAGE) }
{
    let first = PAGE * page;
    if are_zero(between(bytes, BLOCK * first, BLOCK * first + BLOCK * PAGE)) {
        return;
    }
    for k in 0..PAGE {
        put_block(room, area, bytes, first + k);
    }
}

/// The lines of an area.
#[tactic(auto, unfolding(crate::specs::Dump::area_lines))]
pub fn put_area(room: &mut Vec<u8>, area: u32, bytes: &[u8])
    requires room { vec_len room.old + 83 * BLOCKS ≤ vec_capacity room.old }
    requires place { area ≤ STACK_AREA }
    ensures { Puts room.old room.new (area_lines area bytes.now) (83 * BLOCKS) }
{
    for page in 0..BLOCKS / PAGE {
        put_page(room, area, bytes, page);
    }
}
