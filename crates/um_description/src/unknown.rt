//! Names in keys that name nothing of the kind wanted.

ghost use Rattle.std.specs.Prelude.{◌≡◌, IfOk, map, is_some};
ghost use Rattle.um_document.specs.{
  declared.{
    description.{DomainEntry.{DomainEntry}, ObjectEntry.{ObjectEntry}},
    place.Place.{Place},
    shape.{Key.{Key}, Section.{Section}},
  },
  First.{first_of},
};
ghost use Rattle.um_description.specs.Duplicates.{SameTexts};
ghost use Rattle.um_description.specs.Known as listed;
ghost use Rattle.um_description.specs.Names as names;
ghost use Rattle.um_description.specs.Unknown as spec;

use crate::duplicates::{object_names, partition_names};
use crate::first::first_found;
use crate::limits::is_thread;
use crate::named::number_of;
use crate::seen::Seen;
use std::alloc::Global;
use um_base::{Name, OutOfMemory};
use um_document::{
    BootEntry, Description, Details, DomainEntry, FutexEntry, Key, ObjectEntry, Place, Section,
    Text,
};

/// The set of some names.
fn set_of(alloc: Global, names: &[Name]) -> Result<Seen, OutOfMemory>
    ensures { IfOk result (λ known. SameTexts known names.now) }
{
    let mut known = Seen::new(alloc);
    for name in names {
        let _again = known.add(alloc, name.as_slice())?;
    }
    Ok(known)
}

/// A place, where what stands there isn't known.
fn unless(known: bool, place: Place) -> Option<Place>
    ensures { result ≡ first_of (spec.unless known place) }
{
    if known { None } else { Some(place) }
}

/// The first text of the list at a key that isn't known.
#[tactic(auto, unfolding(crate::specs::Known::unknown_item))]
fn unknown_item(
    known: &Seen,
    section: Section,
    entry: usize,
    key: Key,
    texts: &[Text],
) -> Option<Place>
    ensures { result ≡ first_of (names.each (listed.unknown_item known.now section entry key) 0 texts.now) }
{
    first_found(texts, |index, text| {
        unless(
            known.has(text.as_slice()),
            Place::Item(section, entry, key, index),
        )
    })
}

/// The first partition of a domain that isn't known.
#[tactic(auto, using(crate::proofs::KnownLemmas::domain_same))]
fn unknown_part(d: &Description, known: &Seen, index: usize, domain: &DomainEntry) -> Option<Place>
    requires { SameTexts known.now (names.partition_names d.now) }
    ensures { result ≡ first_of (spec.unknown_in_domain d.now index domain.now) }
{
    match &domain.partitions {
        Some(parts) => unknown_item(
            known,
            Section::Domain,
            index,
            Key::Partitions,
            parts.as_slice(),
        ),
        None => None,
    }
}

fn is_thread_stack(object: &ObjectEntry) -> bool
    ensures { result ≡ names.is_thread_stack object.now }
{
    matches!(object.details, Details::ThreadStack { .. })
}

/// Whether a text names a thread.
fn names_thread(objects: &[ObjectEntry], text: &[u8]) -> bool
    ensures { result ≡ names.passes names.is_thread objects.now (names.named (map (λ (o : ObjectEntry). o.name) objects.now) text.now) }
{
    match number_of(objects, |object| object.name, text) {
        Some(i) => is_thread(&objects[i]),
        None => false,
    }
}

/// Whether a text names a thread stack.
fn names_thread_stack(objects: &[ObjectEntry], text: &[u8]) -> bool
    ensures { result ≡ names.passes names.is_thread_stack objects.now (names.named (map (λ (o : ObjectEntry). o.name) objects.now) text.now) }
{
    match number_of(objects, |object| object.name, text) {
        Some(i) => is_thread_stack(&objects[i]),
        None => false,
    }
}

/// Whether a text names a domain that is initialised.
fn names_initialised(domains: &[DomainEntry], text: &[u8]) -> bool
    ensures { result ≡ names.passes names.is_initialised domains.now (names.named (map (λ (m : DomainEntry). m.name) domains.now) text.now) }
{
    match number_of(domains, |domain| domain.name, text) {
        Some(i) => domains[i].partitions.is_some(),
        None => false,
    }
}

/// A boot entry's pool that is none.
#[tactic(auto, unfolding(crate::specs::Known::unknown_pool))]
fn unknown_pool(d: &Description, index: usize, boot: &BootEntry) -> Option<Place>
    ensures { result ≡ first_of (listed.unknown_pool d.now index boot.now) }
{
    match &boot.pool {
        Some(pool) => unless(
            number_of(d.pools.as_slice(), |pool| pool.name, pool.as_slice()).is_some(),
            Place::Field(Section::Boot, index, Key::Pool),
        ),
        None => None,
    }
}

/// The first key of a boot entry that names nothing.
fn unknown_key(d: &Description, index: usize, boot: &BootEntry) -> Option<Place>
    ensures { result ≡ first_of (listed.unknown_keys d.now index boot.now) }
{
    let objects = d.objects.as_slice();
    let thread = names_thread(objects, boot.thread.as_slice());
    let stack = names_thread_stack(objects, boot.stack.as_slice());
    let script = number_of(
        d.scripts.as_slice(),
        |script| script.name,
        boot.script.as_slice(),
    )
    .is_some();
    let domain = names_initialised(d.domains.as_slice(), boot.domain.as_slice());
    unless(thread, Place::Field(Section::Boot, index, Key::Thread))
        .or(unless(stack, Place::Field(Section::Boot, index, Key::Stack)))
        .or(unless(script, Place::Field(Section::Boot, index, Key::Script)))
        .or(unless(domain, Place::Field(Section::Boot, index, Key::Domain)))
        .or(unknown_pool(d, index, boot))
}

/// The first name of a boot entry that names nothing of the kind wanted.
fn unknown_in_boot(d: &Description, objects: &Seen, index: usize, boot: &BootEntry) -> Option<Place>
    requires { SameTexts objects.now (names.object_names d.now) }
    ensures { result ≡ first_of (spec.unknown_in_boot d.now index boot.now) }
{
    let grants = boot.grants.as_slice();
    unknown_key(d, index, boot).or(unknown_item(objects, Section::Boot, index, Key::Grants, grants))
}

/// A futex's partition that is none.
fn unknown_in_futex(
    d: &Description,
    known: &Seen,
    index: usize,
    futex: &FutexEntry,
) -> Option<Place>
    requires { SameTexts known.now (names.partition_names d.now) }
    ensures { result ≡ first_of (spec.unknown_in_futex d.now index futex.now) }
{
    unless(
        known.has(futex.partition.as_slice()),
        Place::Field(Section::Futex, index, Key::Partition),
    )
}

/// The first name in a key of a description that names nothing of the kind wanted.
pub fn first_unknown(alloc: Global, d: &Description) -> Result<Option<Place>, OutOfMemory>
    ensures { IfOk result (λ found. found ≡ first_of (spec.unknown_names d.now)) }
{
    let names = partition_names(alloc, d.partitions.as_slice())?;
    let partitions = set_of(alloc, &names)?;
    let names = object_names(alloc, d.objects.as_slice())?;
    let objects = set_of(alloc, &names)?;
    let domains = d.domains.as_slice();
    let boots = d.boots.as_slice();
    let futexes = d.futexes.as_slice();
    let found = first_found(domains, |i, domain| unknown_part(d, &partitions, i, domain));
    let in_boots = first_found(boots, |i, boot| unknown_in_boot(d, &objects, i, boot));
    let in_futexes = first_found(
        futexes,
        |i, futex| unknown_in_futex(d, &partitions, i, futex),
    );
    Ok(found.or(in_boots).or(in_futexes))
}
