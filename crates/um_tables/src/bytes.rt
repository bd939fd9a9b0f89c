//! The contents of the memory's cell.

mod futexes;

ghost use Rattle.std.specs.Prelude.{◌≡◌, [], ◌+◌, ◌<◌, ◌≤◌, ◌^◌, length, replicate, slice_index, ℕ, IfOk, IsTrue};
ghost use Rattle.um_base.specs.{
  declared.act.Act.{Act},
  declared.limits.TheConstants.{AREA_SIZE},
  Places.{setup_at},
  Regions.{stack_range},
};
ghost use Rattle.um_machine.specs.Memory.{le_bytes, le_value, rodata_of};
ghost use Rattle.um_fine.specs.{
  Answers.{act_in},
  Opening.{no_notes},
  Memory.{byte_at, memory_after, read, text_bytes, text_found, write},
  Steps.{Exchange},
};
ghost use Rattle.um_tables.specs.MemoryActs.{has_room, memory_answered, memory_given, memory_said, taken_after, text_taken};

use crate::memory_act::{MemoryAct, MemorySaid};
use crate::pieces::copies_first;
use std::alloc::Global;
use std::marker::Model;
use um_base::{
    AREA_SIZE, Found, Image, OutOfMemory, PARTITION_AREA, Piece, RODATA, Range, Row, STACK_AREA,
    Setup, THREADS,
};
use um_machine::Waiters;
use um_steps::bytes::{clear, le_value, part, write};
use um_steps::rows::setup_at;

/// How many bytes of a text are read at most.
const MOST_TEXT: u32 = 32;

/// What the cell says of a step that has no answer.
const NOTHING: MemorySaid = MemorySaid {
    value: 0,
    found: Found::Unreadable,
};

/// The bytes of the partitions' area and of the stacks' area, and who waits on a futex.
#[derive(Drop)]
pub struct Bytes {
    memory: Vec<u8>,
    stacks: Vec<u8>,
    futexes: Box<Waiters>,
    /// By thread index: the number of its note when it began to wait here.
    noted: [u32; THREADS],
}

impl Model for Bytes {
    ghost use Rattle.std.specs.Prelude.{◌≤◌, length};
    ghost use Rattle.um_base.specs.declared.limits.TheConstants.{AREA_SIZE};
    ghost use Rattle.um_fine.specs.Memory.{Bytes as Contents};

    ghost Value = { Contents };

    ghost view = { λ m. record {
      memory = m.memory.items;
      stacks = m.stacks.items;
      futexes = m.futexes.value;
      noted = m.noted;
    } };

    ghost invariant = { λ m. length m.stacks.items ≤ AREA_SIZE };
}

/// The first byte, or zero.
fn first(bytes: &[u8]) -> u8
    ensures { result ≡ slice_index bytes.now 0 }
{
    match bytes {
        [b, ..] => *b,
        [] => 0,
    }
}

/// The range of a row's stack, if the row has one.
fn stack_of(image: &Image, stack: Row) -> Option<Range>
    ensures { result ≡ stack_range (setup_at image.now stack.0) }
{
    match setup_at(image, stack.0 as usize) {
        Setup::ThreadStack { range, .. } => Some(range),
        _ => None,
    }
}

impl Bytes {
    /// Makes the contents from these two areas, where nobody waits.
    pub fn new(alloc: Global, memory: Vec<u8>, stacks: Vec<u8>) -> Result<Bytes, OutOfMemory>
        requires { length stacks.items ≤ AREA_SIZE }
        ensures { IfOk result (λ b. b ≡ record { memory = memory.items; stacks = stacks.items; futexes = []; noted = no_notes }) }
    {
        Ok(Bytes {
            memory,
            stacks,
            futexes: Box::new(alloc, Waiters::new())?,
            noted: [0; THREADS],
        })
    }

    /// The bytes of the area of the partitions.
    pub fn memory(&self) -> &[u8]
        ensures { result.now ≡ self.now.memory }
    {
        self.memory.as_slice()
    }

    /// The bytes of the area of the thread stacks.
    pub fn stacks(&self) -> &[u8]
        ensures { result.now ≡ self.now.stacks }
    {
        self.stacks.as_slice()
    }

    /// The n bytes from an address on, if they lie in one area.
    fn read<'a>(&'a self, image: &Image, rodata: &'a [u8], a: u32, n: u32) -> &'a [u8]
        requires { rodata.now ≡ rodata_of image.now }
        ensures value { result.now ≡ read image.now self.now a n }
        ensures few { length result.now ≤ n }
    {
        if a < PARTITION_AREA {
            part(rodata, a.saturating_sub(RODATA) as usize, n as usize)
        } else if a < STACK_AREA {
            part(
                self.memory.as_slice(),
                (a - PARTITION_AREA) as usize,
                n as usize,
            )
        } else {
            part(
                self.stacks.as_slice(),
                (a - STACK_AREA) as usize,
                n as usize,
            )
        }
    }

    /// Writes bytes from an address on.
    fn write(&mut self, image: &Image, a: u32, bytes: &[u8])
        requires { length bytes.now < 2 ^ 32 }
        ensures { self.new ≡ write image.now self.old a bytes.now }
    {
        if a < STACK_AREA {
            write(
                &mut self.memory,
                a.saturating_sub(PARTITION_AREA) as usize,
                bytes,
            );
        } else {
            write(&mut self.stacks, (a - STACK_AREA) as usize, bytes);
        }
    }

    /// Writes a number of at most four bytes from an address on, the lowest byte first.
    fn write_number(&mut self, image: &Image, a: u32, n: u32, value: u32)
        ensures { self.new ≡ write image.now self.old a (le_bytes n value) }
    {
        let bytes = value.to_le_bytes();
        self.write(image, a, &bytes[..(n as usize).min(4)]);
    }

    /// Writes zero bytes over a range.
    fn clear(&mut self, image: &Image, range: Range)
        ensures { self.new ≡ write image.now self.old range.start.0 (replicate {A = ℕ} range.size 0) }
    {
        let a = range.start.0;
        let n = range.size as usize;
        if a < STACK_AREA {
            clear(
                &mut self.memory,
                a.saturating_sub(PARTITION_AREA) as usize,
                n,
            );
        } else {
            clear(&mut self.stacks, (a - STACK_AREA) as usize, n);
        }
    }

    /// Writes zero bytes over a thread stack.
    fn erase(&mut self, image: &Image, stack: Row)
        ensures { self.new ≡ memory_after image.now self.old (Act.Erase stack) Exchange.nothing }
    {
        if let Some(range) = stack_of(image, stack) {
            self.clear(image, range);
        }
    }

    /// The byte that stands `before` bytes after an address: zero where there is no memory.
    #[tactic(auto, using(crate::proofs::TextLemmas::no_byte))]
    fn byte_behind(&self, image: &Image, rodata: &[u8], a: u32, before: u32) -> u8
        requires { rodata.now ≡ rodata_of image.now }
        ensures { result ≡ byte_at image.now self.now (a + before) }
    {
        let _ = &self.stacks;
        match a.checked_add(before) {
            Some(at) => first(self.read(image, rodata, at, 1)),
            None => 0,
        }
    }

    /// Reads a text up to its zero, of which `readable` bytes may be read. If the zero is found, the buffer gets the bytes before it.
    fn copy_text(
        &self,
        image: &Image,
        rodata: &[u8],
        a: u32,
        readable: u32,
        buffer: &mut Piece,
    ) -> Found
        requires rodata { rodata.now ≡ rodata_of image.now }
        requires few { readable ≤ 32 }
        ensures found { result ≡ text_found image.now self.now a readable 0 }
        ensures taken { buffer.new ≡ text_taken result (text_bytes image.now self.now a readable) buffer.old }
    {
        let mut text = Piece::new();
        for before in 0..readable {
            let byte = self.byte_behind(image, rodata, a, before);
            if byte == 0 {
                *buffer = text;
                return Found::Length(before);
            }
            text.push(byte);
        }
        if readable == MOST_TEXT {
            Found::TooLong
        } else {
            Found::Unreadable
        }
    }

    /// Makes a step, which the cell always takes, and returns what the cell says. A copy reads or writes the buffer.
    pub fn make(
        &mut self,
        image: &Image,
        rodata: &[u8],
        act: &MemoryAct,
        buffer: &mut Piece,
    ) -> MemorySaid
        requires rodata { rodata.now ≡ rodata_of image.now }
        requires few { IsTrue (has_room act.now) }
        ensures said { result ≡ memory_said (memory_answered image.now self.old act.now buffer.old) }
        ensures taken { buffer.new ≡ taken_after
            (act_in (memory_answered image.now self.old act.now buffer.old))
            (memory_given image.now self.old act.now buffer.old) buffer.old }
        ensures leaves { self.new ≡ memory_after image.now self.old
            (act_in (memory_answered image.now self.old act.now buffer.old))
            (memory_given image.now self.old act.now buffer.old) }
    {
        match act {
            MemoryAct::Load { addr, size, .. } => MemorySaid {
                value: le_value(self.read(image, rodata, addr.0, *size)),
                found: Found::Unreadable,
            },
            MemoryAct::Store {
                addr,
                size,
                value,
                ..
            } => {
                self.write_number(image, addr.0, *size, *value);
                NOTHING
            }
            MemoryAct::CopyIn {
                addr,
                size,
                fits,
                ..
            } => {
                if *fits {
                    copies_first(buffer, self.read(image, rodata, addr.0, *size));
                }
                NOTHING
            }
            MemoryAct::CopyOut { addr, fits, .. } => {
                if *fits {
                    self.write(image, addr.0, buffer.as_slice());
                }
                NOTHING
            }
            MemoryAct::CopyStr { addr, readable, .. } => MemorySaid {
                value: 0,
                found: self.copy_text(image, rodata, addr.0, *readable, buffer),
            },
            MemoryAct::Erase { stack, .. } => {
                self.erase(image, *stack);
                NOTHING
            }
            MemoryAct::Fetch { .. } => NOTHING,
            MemoryAct::Fault { .. } => NOTHING,
            MemoryAct::Probe { .. } => NOTHING,
        }
    }
}
