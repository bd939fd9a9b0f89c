//! The opening state.

ghost use Rattle.std.specs.Prelude.{◌≡◌, IfOk, length};
ghost use Rattle.um_base.specs.Lawful.{IsLawful};

use crate::area::Area;
use crate::clock::Clock;
use crate::object_table::ObjectTable;
use crate::tables::Tables;
use std::alloc::Global;
use um_base::{Image, OutOfMemory};
use um_boot::OpeningState;
use um_machine::Waiters;
use um_service::Outcome;

/// Room for one outcome.
fn outcome(alloc: Global) -> Result<Vec<Outcome>, OutOfMemory>
    ensures { IfOk result (λ room. length room.items ≡ 1) }
{
    let mut room = Vec::with_capacity(alloc, 1)?;
    room.push_reserved(Outcome::new());
    Ok(room)
}

impl<'a> Tables<'a> {
    ghost use Rattle.um_machine.specs.Run.{opening};

    /// The opening state of an image. All room is reserved here.
    pub(crate) fn boot(alloc: Global, image: &'a Image) -> Result<Tables<'a>, OutOfMemory>
        requires lawful { IsLawful image.now }
        ensures { IfOk result (λ tables. tables ≡ opening image.now) }
    {
        let parts = OpeningState::boot(alloc, image)?.into_parts();
        let objects = ObjectTable::boot(alloc, parts.image)?;
        let clock = Clock::new(alloc)?;
        let outcome = outcome(alloc)?;
        Ok(Tables {
            image: parts.image,
            rodata: parts.rodata,
            threads: parts.threads,
            objects,
            pairs: parts.pairs,
            domains: parts.domains,
            memory: Area::new(parts.memory),
            stacks: Area::new(parts.stacks),
            pools: parts.pools,
            clock,
            joins: Waiters::new(),
            futexes: Waiters::new(),
            outcome,
        })
    }
}
