//! Runs of images on logical processors.

ghost use Rattle.std.specs.Prelude.{◌≤◌, IfOk};
ghost use Rattle.um_base.specs.Lawful.{IsLawful};
ghost use Rattle.um_command.specs.Words.{IsFew};
ghost use Rattle.um_machine.specs.State.{State};
ghost use Rattle.um_app.specs.{Ended.{IsEnded}, Top.{IsRunOf}};

use std::alloc::Global;
use um_base::{Event, Image, OutOfMemory};
use um_command::Options;
use um_core::one_whole;
use um_image::weight;
use um_order::one_order;
use um_tables::Tables;

/// A complete run of an image, which obeys the laws, in tables: its events, and what its steps have left at the sites. The room for events is the
/// image's weight.
pub fn ran(alloc: Global, image: &Image, options: Options) -> Result<Tables, OutOfMemory>
    requires lawful { IsLawful image.now }
    requires cpus { IsFew options }
    ensures { IfOk result (λ sites. IsEnded image.now options sites) }
{
    // on one processor the events are in order, and the steps are those of every pick
    one_order();
    one_whole();
    let _objects = image.objects.len();
    um_core::run(
        alloc,
        image,
        options.cpus,
        options.pick,
        weight(image) as usize,
    )
}

/// The events of a complete run of an image by 1 to 8 processors, which are preferred one after another, or as a seed picks
/// them: at most as many as the image's weight. The run obeys the laws. All memory is taken before the first event.
pub fn sim_events(
    alloc: Global,
    image: &Image,
    cpus: u8,
    pick: Option<u64>,
) -> Result<Vec<Event>, OutOfMemory>
    requires lawful { IsLawful image.now }
    requires some { 1 ≤ cpus }
    requires few { cpus ≤ 8 }
    ensures run { IfOk result
        (λ events. (last : State)
        × IsRunOf image.now (record { cpus = cpus; pick = pick }) events.items last) }
{
    let sites = ran(alloc, image, Options { cpus, pick })?;
    Ok(sites.into_events())
}
