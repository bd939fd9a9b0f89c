//! The domains and pools of a dump.

ghost use Rattle.std.specs.{
  Prelude.{◌≡◌, ◌+◌, ◌*◌, ◌≤◌, ◌<◌, ◌++◌, None, length, slice_index_or, vec_len, vec_capacity},
  List.{flat_map},
};
ghost use Rattle.um_trace.specs.{
  Dump.{numbers, lead, part_of, listed, parts_text, domain_line, pool_text, pool_line},
  Room.{Puts},
};

use crate::dump::lists::{put_lead, put_share};
use crate::names::{put_domain, put_part};
use crate::room::{put_newline, put_short, put_space, put_text};
use um_base::{Attr, DOMAIN_PARTITIONS, DOMAINS, Image, POOLS, Pool, Range};
use um_steps::Dumped;

/// A partition, with a comma before it if it isn't the first.
fn put_next(room: &mut Vec<u8>, part: (Range, Attr), first: bool)
    requires { vec_len room.old + 34 ≤ vec_capacity room.old }
    ensures { Puts room.old room.new (lead first ++ part_of part) 34 }
{
    put_lead(room, first);
    put_part(room, part.0, part.1);
}

/// The partitions of an initialised domain, in the order of adding.
fn put_parts(room: &mut Vec<u8>, parts: &[(Range, Attr)])
    requires room { vec_len room.old + 600 ≤ vec_capacity room.old }
    requires few { length parts.now ≤ DOMAIN_PARTITIONS }
    ensures { Puts room.old room.new (listed part_of parts.now) 600 }
{
    let mut first = true;
    for part in parts {
        put_next(room, *part, first);
        first = false;
    }
    if first {
        put_text(room, "-");
    }
}

/// The partitions of a domain, where it is initialised.
#[tactic(auto, unfolding(crate::specs::Dump::parts_text))]
fn put_domain_parts<D: Dumped>(room: &mut Vec<u8>, last: &D, domain: usize)
    requires { vec_len room.old + 600 ≤ vec_capacity room.old }
    ensures { Puts room.old room.new
        (parts_text (slice_index_or (D.state last.now).domains domain None)) 600 }
{
    match last.partitions(domain) {
        Some(parts) => put_parts(room, parts.as_slice()),
        None => put_text(room, "uninit"),
    }
}

/// The line of a domain.
#[tactic(auto, unfolding(crate::specs::Dump::domain_line))]
fn put_domain_line<D: Dumped>(room: &mut Vec<u8>, image: &Image, last: &D, domain: usize)
    requires room { vec_len room.old + 640 ≤ vec_capacity room.old }
    requires few { domain < DOMAINS }
    ensures { Puts room.old room.new (domain_line image.now (D.state last.now) domain) 640 }
{
    put_text(room, "domain ");
    put_domain(room, image, domain as u8);
    put_space(room);
    put_domain_parts(room, last, domain);
    put_newline(room);
}

/// The lines of domains.
pub fn put_domains<D: Dumped>(room: &mut Vec<u8>, image: &Image, last: &D)
    requires { vec_len room.old + 640 * DOMAINS ≤ vec_capacity room.old }
    ensures { Puts room.old room.new
        (flat_map (domain_line image.now (D.state last.now)) (numbers (length image.now.domains)))
        (640 * DOMAINS) }
{
    for domain in 0..image.domains.len() {
        put_domain_line(room, image, last, domain);
    }
}

/// A pool, and what is left of its bytes.
#[tactic(auto, unfolding(crate::specs::Dump::pool_text))]
fn put_pool(room: &mut Vec<u8>, pool: &Pool, left: u32)
    requires { vec_len room.old + 64 ≤ vec_capacity room.old }
    ensures { Puts room.old room.new (pool_text pool.now left) 64 }
{
    put_text(room, "pool ");
    put_short(room, pool.name.as_slice());
    put_space(room);
    put_share(room, left, pool.size);
    put_newline(room);
}

/// The line of a pool.
#[tactic(auto, unfolding(crate::specs::Dump::pool_line))]
fn put_pool_line<D: Dumped>(room: &mut Vec<u8>, image: &Image, last: &D, pool: usize)
    requires { vec_len room.old + 64 ≤ vec_capacity room.old }
    ensures { Puts room.old room.new (pool_line image.now (D.state last.now) pool) 64 }
{
    match image.pools.as_slice().get(pool) {
        Some(named) => put_pool(room, named, last.left_in_pool(pool)),
        None => {}
    }
}

/// The lines of pools.
pub fn put_pools<D: Dumped>(room: &mut Vec<u8>, image: &Image, last: &D)
    requires { vec_len room.old + 64 * POOLS ≤ vec_capacity room.old }
    ensures { Puts room.old room.new
        (flat_map (pool_line image.now (D.state last.now)) (numbers (length image.now.pools)))
        (64 * POOLS) }
{
    for pool in 0..image.pools.len() {
        put_pool_line(room, image, last, pool);
    }
}
