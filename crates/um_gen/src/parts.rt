//! Texts of numbered things, each a table of its parts.

ghost use Rattle.std.specs.{
  Prelude.{◌≡◌, ◌+◌, ◌*◌, ◌≤◌, All, vec_len, vec_capacity},
  List.{sum_by},
};
ghost use Rattle.um_gen.specs.{
  Parts.{is_drawable, part_room, part_piece, parts_piece},
  Pieces.{Writes, each},
};

use crate::writer::Writer;

/// A part of the text of a numbered thing.
pub enum Part {
    /// These words.
    Words(&'static str),
    /// The thing's number.
    Number,
    /// A drawn number below this.
    Drawn(u32),
    /// Where a drawn word of a stack stands.
    Offset,
    /// The names that a thread is granted.
    Grants,
}

impl Writer {
    fn put_part(&mut self, part: &Part, number: u32)
        requires some { is_drawable part.now }
        requires room { vec_len self.old.text + part_room part.now ≤ vec_capacity self.old.text }
        ensures { Writes self.old self.new (part_piece number part.now) (part_room part.now) }
    {
        match part {
            Part::Words(words) => self.put(words),
            Part::Number => self.put_number(number),
            Part::Drawn(below) => self.put_drawn(*below),
            Part::Offset => self.put_offset(),
            Part::Grants => self.put_grants(),
        }
    }

    /// The text of the thing of a number.
    pub fn put_parts(&mut self, parts: &[Part], number: u32)
        requires some { All is_drawable parts.now }
        requires room { vec_len self.old.text + sum_by part_room parts.now ≤ vec_capacity self.old.text }
        ensures { Writes self.old self.new (parts_piece parts.now number) (sum_by part_room parts.now) }
    {
        for part in parts {
            self.put_part(part, number);
        }
    }

    /// The texts of the things of the numbers below a count.
    pub fn put_each(&mut self, parts: &[Part], count: u32)
        requires some { All is_drawable parts.now }
        requires room { vec_len self.old.text + sum_by part_room parts.now * count ≤ vec_capacity self.old.text }
        ensures { Writes self.old self.new (each (parts_piece parts.now) count) (sum_by part_room parts.now * count) }
    {
        for number in 0..count {
            self.put_parts(parts, number);
        }
    }
}
