//! A whole run of processors.

ghost use Rattle.std.specs.Prelude.{◌≡◌, ◌≤◌, ℕ, [], IfOk, Option};
ghost use Rattle.um_base.specs.{Lawful.{IsLawful}, Weight.{weight}};
ghost use Rattle.um_machine.specs.Memory.{rodata_of};
ghost use Rattle.um_invariants.specs.Described.{IsDescribed};
ghost use Rattle.um_refinement.specs.Room.{CanRun};
ghost use Rattle.um_core.specs.{Cores.{Stands}, Ended.{HasEnded, HasStopped}};

use crate::laws::every_order;
use crate::order::Order;
use crate::processors::Core;
use std::alloc::Global;
use um_base::{Image, OutOfMemory};
use um_closing::every_closing;
use um_fine_measure::longest_fine_run;
use um_tables::Tables;

/// Has the one processor of a core make its steps until it can make no other one, and returns what they leave at the sites. Whatever the pick,
/// that processor is the preferred one.
fn alone(image: &Image, core: Core) -> Tables
    requires described { IsDescribed image.now }
    requires can { CanRun image.now 1 }
    requires stands { Stands image.now 1 [] core }
    requires rodata { core.sites.rodata ≡ rodata_of image.now }
    requires room { weight image.now ≤ core.sites.most }
    ensures { (pick : Option ℕ) → HasStopped image.now 1 pick result }
{
    // no run has more steps than the image's weight
    longest_fine_run();
    let mut core = core;
    let mut count: usize = 0;
    'steps: while core.step(image, 0) {
        count += 1;
    }
    core.into_sites()
}

/// Runs this many processors in the order of a pick, and returns what they leave at the sites.
fn picked(
    alloc: Global,
    image: &Image,
    cpus: u8,
    pick: Option<u64>,
    most: usize,
) -> Result<Tables, OutOfMemory>
    requires described { IsDescribed image.now }
    requires can { CanRun image.now cpus }
    requires room { weight image.now ≤ most }
    ensures { IfOk result (λ sites. HasStopped image.now cpus pick sites) }
{
    // no run has more steps than the image's weight
    longest_fine_run();
    let mut core = Core::boot(alloc, image, cpus, most)?;
    if cpus == 1 {
        return Ok(alone(image, core));
    }
    let mut order = Order::new(pick);
    let mut count: usize = 0;
    'turns: while core.next(image, order.next(cpus)) {
        count += 1;
    }
    Ok(core.into_sites())
}

/// Makes a complete run of an image on this many processors of the fine machine, and returns its events, with what its steps have left at the
/// sites. Processors are preferred one after another, or in an order drawn from a seed. All memory is taken before the first step: room for
/// `most` events, which is at least the image's weight.
pub fn run(
    alloc: Global,
    image: &Image,
    cpus: u8,
    pick: Option<u64>,
    most: usize,
) -> Result<Tables, OutOfMemory>
    requires lawful { IsLawful image.now }
    requires some { 1 ≤ cpus }
    requires few { cpus ≤ 8 }
    requires room { weight image.now ≤ most }
    ensures { IfOk result (λ sites. HasEnded image.now cpus pick sites) }
{
    // the run is a fine run, whose steps are no more than the weight, and its last state is read off the sites
    every_order();
    every_closing();
    longest_fine_run();
    let _objects = image.objects.len();
    let _domains = image.domains.len();
    picked(alloc, image, cpus, pick, most)
}
