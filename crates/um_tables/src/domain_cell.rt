//! The contents of a domain's cell.

ghost use Rattle.std.specs.Prelude.{◌≡◌};
ghost use Rattle.um_machine.specs.{Domains.{domain_after, reply_to}, Memory.{parts_or_none}};
ghost use Rattle.um_fine.specs.Processor.{edit_of};

use um_base::{Errno, Image, Parts, Reply};
use um_machine::Pending;
use um_steps::domains::{added, domain_after, initialised, removed, reply_to};

/// The partitions of a domain, or none where it isn't initialised, and how many steps the cell has taken, below 2^28.
#[derive(Clone, Copy)]
pub struct DomainCell {
    pub parts: Option<Parts>,
    pub steps: u32,
}

/// Loads the partitions into a region table: none where the domain isn't initialised.
#[inline]
pub fn load(table: &mut Parts, parts: &Option<Parts>)
    ensures { table.new ≡ parts_or_none parts.now }
{
    match parts {
        Some(all) => *table = *all,
        None => *table = Parts::new(),
    }
}

/// What a call makes of a domain's partitions.
fn edit_of(image: &Image, call: &Pending, before: &Option<Parts>) -> Result<Parts, Errno>
    ensures { result ≡ edit_of image.now call.now before.now }
{
    match call {
        Pending::DomInit { parts, .. } => initialised(image, before, parts.as_slice()),
        Pending::DomAdd { range, attr, .. } => added(image, before, *range, *attr),
        Pending::DomRemove { range, .. } => removed(before, *range),
        _ => Err(Errno::EINVAL),
    }
}

/// The partitions after a call, and its reply.
pub fn edited(image: &Image, call: &Pending, before: &Option<Parts>) -> (Option<Parts>, Reply)
    ensures parts { result.0 ≡ domain_after before.now (edit_of image.now call.now before.now) }
    ensures reply { result.1 ≡ reply_to (edit_of image.now call.now before.now) }
{
    let made = edit_of(image, call, before);
    let reply = reply_to(&made);
    (domain_after(*before, made), reply)
}
