//! States that a search makes anew, and the rooms in which they stand.

ghost use Rattle.std.specs.Prelude.{◌≡◌, ◌≤◌, IfOk, length};
ghost use Rattle.um_base.specs.Lawful.{IsLawful};
ghost use Rattle.um_machine.specs.Run.{Step, opening};
ghost use Rattle.um_matrix.specs.Offered.{IsStep};
ghost use Rattle.um_explore.specs.Met.{AreMet, AreRooms, IsLed};

use crate::met::{Link, path};
use std::alloc::Global;
use um_base::{Event, Image, OutOfMemory};
use um_matrix::{Matrix, NotAStep};

/// Rooms for states of one image. The opening stays; the others are made anew from it.
#[derive(Drop)]
pub struct Rooms<'a> {
    pub opens: Matrix<'a>,
    /// The state whose steps are looked at.
    pub here: Matrix<'a>,
    /// The state to which a step leads.
    pub there: Matrix<'a>,
    /// A state that was met before.
    pub other: Matrix<'a>,
}

impl<'a> Rooms<'a> {
    /// The opening of an image, in all rooms.
    pub fn boot(alloc: Global, image: &'a Image) -> Result<Rooms<'a>, OutOfMemory>
        requires { IsLawful image.now }
        ensures rooms { IfOk result (λ rooms. AreRooms image.now rooms) }
        ensures here { IfOk result (λ rooms. rooms.here ≡ opening image.now) }
    {
        let mut opens = Matrix::boot(alloc, image)?;
        let mut here = Matrix::boot(alloc, image)?;
        let mut there = Matrix::boot(alloc, image)?;
        let mut other = Matrix::boot(alloc, image)?;
        opens.trim();
        here.trim();
        there.trim();
        other.trim();
        Ok(Rooms {
            opens,
            here,
            there,
            other,
        })
    }

    /// Makes a step from the state that is looked at, in the room for the next.
    pub fn step(&mut self, alloc: Global, image: &Image, event: &Event) -> Result<(), OutOfMemory>
        requires rooms { AreRooms image.now self.old }
        requires step { IsStep self.old.here event.now }
        ensures rooms { IfOk result (λ _. AreRooms image.now self.new) }
        ensures here { IfOk result (λ _. self.new.here ≡ self.old.here) }
        ensures step { IfOk result (λ _. Step self.new.here event.now self.new.there) }
    {
        self.there.set_to(alloc, &self.here)?;
        match self.there.apply(event) {
            Ok(()) => Ok(()),
            Err(NotAStep) => unreachable!(),
        }
    }
}

/// Makes the state of a number anew in a room, and gives the events that lead to it.
pub(crate) fn rebuild(
    alloc: Global,
    image: &Image,
    opens: &Matrix,
    room: &mut Matrix,
    links: &[Link],
    k: usize,
) -> Result<Vec<Event>, OutOfMemory>
    requires are { AreMet image.now links.now }
    requires met { k ≤ length links.now }
    requires opens { opens.now ≡ opening image.now }
    requires room { room.old.image ≡ image.now }
    ensures led { IfOk result (λ events. IsLed image.now links.now k events.items room.new) }
    ensures image { IfOk result (λ _. room.new.image ≡ image.now) }
{
    let events = path(alloc, links, k)?;
    room.set_to(alloc, opens)?;
    match room.judge(&events) {
        Ok(()) => Ok(events),
        Err(_) => unreachable!(),
    }
}
