//! The whole text of an image.

ghost use Rattle.std.specs.Prelude.{◌≡◌, ◌++◌, OnOk};
ghost use Rattle.um_canonical.specs.{Pieces.{top_text}, Tables.{text_by}, Text.{printed_text}};

use crate::boots::put_boots;
use crate::domains::put_domains;
use crate::futexes::put_futexes;
use crate::names::NameTable;
use crate::objects::put_objects;
use crate::pairs::{put_bytes, put_number, put_text};
use crate::partitions::{put_partitions, put_pools};
use crate::scripts::put_scripts;
use crate::variables::free_numbers;
use std::alloc::Global;
use um_base::{Image, OutOfMemory};
use um_document::Key;
use um_vocabulary::{mpu_word, policy_word};

/// The keys of the whole.
#[tactic(auto, unfolding(crate::specs::Pieces::top_text))]
fn put_top(text: &mut Vec<u8>, image: &Image) -> Result<(), OutOfMemory>
    ensures { OnOk result (text.new.items ≡ text.old.items ++ top_text image.now) }
{
    put_number(text, Key::Version, 2)?;
    put_text(text, Key::Mpu, mpu_word(image.mpu))?;
    put_number(text, Key::Regions, image.regions as u32)?;
    put_text(text, Key::Oops, policy_word(image.policy))?;
    put_bytes(text, Key::Rodata, image.rodata_bytes.as_slice())
}

/// The keys of the whole, and all sections. The variables have these numbers.
fn put_all(
    text: &mut Vec<u8>,
    image: &Image,
    names: &NameTable,
    numbers: &[u64],
) -> Result<(), OutOfMemory>
    ensures { OnOk result (text.new.items ≡ text.old.items ++ text_by names.now numbers.now image.now) }
{
    put_top(text, image)?;
    put_pools(text, image.pools.as_slice())?;
    put_partitions(text, image.partitions.as_slice(), numbers)?;
    put_domains(text, &names.partitions, image.domains.as_slice())?;
    put_objects(text, image.objects.as_slice())?;
    put_boots(text, names, image.boots.as_slice())?;
    put_scripts(text, names, image.scripts.as_slice())?;
    put_futexes(text, &names.partitions, image.futexes.as_slice())
}

/// Puts the canonical description of an image, of version 2, behind a text. A variable fills each partition, and has
/// a name that nothing of the image has.
///
/// # Errors
///
/// Memory ran out.
pub fn put_image(alloc: Global, text: &mut Vec<u8>, image: &Image) -> Result<(), OutOfMemory>
    ensures { OnOk result (text.new.items ≡ text.old.items ++ printed_text image.now) }
{
    let names = NameTable::of(alloc, image)?;
    let taken = names.all(alloc)?;
    let numbers = free_numbers(alloc, &taken, image.partitions.len() as u32)?;
    put_all(text, image, &names, &numbers)
}
