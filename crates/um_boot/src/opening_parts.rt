//! The parts of the state at an opening, each by itself.

use um_base::{Image, Parts, THREADS};
use um_machine::Thread;

/// The image, its read-only data, filled up with zeros to its rounded size, and what it opens with: the threads, by thread index, the
/// pairs, by row and then by thread index, the partitions of the domains, the bytes of both areas, and what the pools have.
#[derive(Drop)]
pub struct OpeningParts<'a> {
    pub image: &'a Image,
    pub rodata: Vec<u8>,
    pub threads: Vec<Thread>,
    pub pairs: Vec<[bool; THREADS]>,
    pub domains: Vec<Option<Parts>>,
    pub memory: Vec<u8>,
    pub stacks: Vec<u8>,
    pub pools: Vec<u32>,
}
