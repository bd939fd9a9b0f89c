//! Counts and numbers that are out of their ranges.

ghost use Rattle.std.specs.Prelude.{◌≡◌, ◌≤◌, length, pos};
ghost use Rattle.um_document.specs.{
  declared.description.PartitionContents.{PartitionContents},
  declared.place.Place.{Place},
  declared.shape.Section.{Section},
  First.{first_of},
};
ghost use Rattle.um_description.specs.Limits as limits;
ghost use Rattle.um_description.specs.Names as names;

use crate::first::first_found;
use crate::flaw::{Counted, Flaw};
use crate::named::is_named;
use crate::packing::{asked_size, packed_size};
use um_base::{
    AREA_ENTRY, BOOTS, DOMAIN_PARTITIONS, DOMAINS, FUTEXES, LINES, PARTITIONS, POOLS, SCRIPTS,
    STATIC_ROWS, STATIC_THREADS,
};
use um_document::{
    BootEntry, Description, Details, DomainEntry, FutexEntry, Key, ObjectEntry, PartitionContents,
    PartitionEntry, Place, PoolEntry, ScriptEntry, Section, Sequence, Text, VariableEntry,
};

/// How many variables a partition may have.
const MOST_VARIABLES: i64 = 32;

/// A number at a key that is to be from `low` to `high`.
fn outside(key: Key, low: i64, high: i64, place: Place, n: i64) -> Option<Flaw>
    ensures { result ≡ first_of (limits.outside key low high place n) }
{
    let number = if n < low {
        low
    } else if n > high {
        high
    } else {
        return None;
    };
    Some(Flaw::Limit {
        counted: Counted::Key(key),
        number,
        place,
    })
}

/// A list that is to have at most so many items.
fn longer(key: Key, most: i64, place: Place, items: usize) -> Option<Flaw>
    ensures { result ≡ first_of (limits.longer key most place items) }
{
    if items as i128 > most as i128 {
        Some(Flaw::Limit {
            counted: Counted::Key(key),
            number: most,
            place,
        })
    } else {
        None
    }
}

/// A list that is to have 1 to so many items.
fn some_items(key: Key, most: i64, place: Place, items: usize) -> Option<Flaw>
    ensures { result ≡ first_of (limits.outside key (pos 1) most place (pos items)) }
{
    if items < 1 {
        outside(key, 1, most, place, 0)
    } else {
        longer(key, most, place, items)
    }
}

/// The first entry too many of a section.
fn one_too_many(section: Section, most: usize, i: usize) -> Option<Flaw>
    requires { most ≤ 96 }
    ensures { result ≡ first_of (limits.one_too_many section most i) }
{
    if i == most {
        Some(Flaw::Limit {
            counted: Counted::Key(section.key()),
            number: most as i64,
            place: Place::Entry(section, i),
        })
    } else {
        None
    }
}

#[tactic(auto, using(crate::proofs::Firsts::first_or), unfolding(crate::specs::Limits::pool_limits))]
fn pool_limit(i: usize, pool: &PoolEntry) -> Option<Flaw>
    ensures { result ≡ first_of (limits.pool_limits i pool.now) }
{
    let place = Place::Field(Section::Pool, i, Key::Size);
    let size = outside(Key::Size, 0, AREA_ENTRY as i64, place, pool.size);
    one_too_many(Section::Pool, POOLS, i).or(size)
}

/// How many items are given in a list that may be left out.
fn given_len<T: Drop>(given: &Option<Sequence<T>>) -> usize
    ensures { result ≡ length (names.items given.now) }
{
    match given {
        Some(items) => items.len(),
        None => 0,
    }
}

#[tactic(auto, using(crate::proofs::Firsts::first_or), unfolding(crate::specs::Limits::variable_limits))]
fn variable_limit(partition: usize, i: usize, variable: &VariableEntry) -> Option<Flaw>
    ensures { result ≡ first_of (limits.variable_limits partition i variable.now) }
{
    outside(
        Key::Size,
        1,
        AREA_ENTRY as i64,
        Place::Variable(partition, i, Key::Size),
        variable.size,
    )
    .or(longer(
        Key::Data,
        variable.size,
        Place::Variable(partition, i, Key::Data),
        given_len(&variable.data),
    ))
}

fn variable_limits(partition: usize, variables: &[VariableEntry]) -> Option<Flaw>
    ensures { result ≡ first_of (names.each (limits.variable_limits partition) 0 variables.now) }
{
    first_found(
        variables,
        |i, variable| variable_limit(partition, i, variable),
    )
}

#[tactic(auto, using(crate::proofs::Firsts::first_or), unfolding(crate::specs::Limits::contents_limits))]
fn whole_limit(i: usize, size: i64, text: &Text) -> Option<Flaw>
    ensures { result ≡ first_of (limits.contents_limits i (PartitionContents.Whole size text.now)) }
{
    outside(
        Key::Size,
        1,
        AREA_ENTRY as i64,
        Place::Field(Section::Partition, i, Key::Size),
        size,
    )
    .or(longer(
        Key::Data,
        size,
        Place::Field(Section::Partition, i, Key::Data),
        text.len(),
    ))
}

#[tactic(auto, using(crate::proofs::Firsts::first_or), unfolding(crate::specs::Limits::contents_limits))]
fn packed_limit(i: usize, variables: &[VariableEntry]) -> Option<Flaw>
    ensures { result ≡ first_of (limits.contents_limits i (PartitionContents.Variables variables.now)) }
{
    let place = Place::Field(Section::PackedPartition, i, Key::Vars);
    some_items(Key::Vars, MOST_VARIABLES, place, variables.len())
        .or(longer(
            Key::Size,
            AREA_ENTRY as i64,
            place,
            packed_size(variables) as usize,
        ))
        .or(variable_limits(i, variables))
}

fn contents_limit(i: usize, contents: &PartitionContents) -> Option<Flaw>
    ensures { result ≡ first_of (limits.contents_limits i contents.now) }
{
    match contents {
        PartitionContents::Whole { size, data } => whole_limit(i, *size, data),
        PartitionContents::Variables(variables) => packed_limit(i, variables.as_slice()),
    }
}

#[tactic(auto, using(crate::proofs::Firsts::first_or), unfolding(crate::specs::Limits::partition_limits))]
fn partition_limit(i: usize, partition: &PartitionEntry) -> Option<Flaw>
    ensures { result ≡ first_of (limits.partition_limits i partition.now) }
{
    one_too_many(Section::Partition, PARTITIONS, i).or(contents_limit(i, &partition.contents))
}

/// How many partitions a domain holds: stack, read-only data and program text need regions of their own.
fn most_parts(d: &Description) -> usize
    ensures value { result ≡ limits.most_parts d.now.regions }
    ensures few { result ≤ 16 }
{
    if d.regions < 3 {
        0
    } else if d.regions > 19 {
        DOMAIN_PARTITIONS
    } else {
        (d.regions - 3) as usize
    }
}

#[tactic(auto, using(crate::proofs::Firsts::first_or), unfolding(crate::specs::Limits::domain_limits))]
fn domain_limit(most: usize, i: usize, domain: &DomainEntry) -> Option<Flaw>
    requires { most ≤ 16 }
    ensures { result ≡ first_of (limits.domain_limits most i domain.now) }
{
    let place = Place::Item(Section::Domain, i, Key::Partitions, most);
    let parts = longer(
        Key::Partitions,
        most as i64,
        place,
        given_len(&domain.partitions),
    );
    one_too_many(Section::Domain, DOMAINS, i).or(parts)
}

/// A number of the i-th object.
fn object_number(i: usize, key: Key, low: i64, high: i64, n: i64) -> Option<Flaw>
    ensures { result ≡ first_of (limits.outside key low high (Place.Field Section.Object i key) n) }
{
    outside(key, low, high, Place::Field(Section::Object, i, key), n)
}

#[tactic(auto, using(crate::proofs::Firsts::first_or), unfolding(crate::specs::Limits::details_limits))]
fn details_limit(i: usize, details: Details) -> Option<Flaw>
    ensures { result ≡ first_of (limits.details_limits i details) }
{
    match details {
        Details::Thread | Details::Mutex { .. } | Details::Timer => None,
        Details::ThreadStack { size } => object_number(i, Key::Size, 1, AREA_ENTRY as i64, size),
        Details::Sem {
            numbers: Some(numbers),
        } => object_number(i, Key::Count, 0, numbers.limit, numbers.count).or(object_number(
            i,
            Key::Limit,
            1,
            4_294_967_295,
            numbers.limit,
        )),
        Details::Msgq {
            numbers: Some(numbers),
        } => object_number(i, Key::MsgSize, 1, 256, numbers.msg_size).or(object_number(
            i,
            Key::MaxMsgs,
            1,
            64,
            numbers.max_msgs,
        )),
        Details::Stack {
            entries: Some(entries),
        } => object_number(i, Key::Entries, 1, 64, entries),
        Details::Pipe { size: Some(size) } => object_number(i, Key::Size, 1, 256, size),
        _ => None,
    }
}

/// Whether an object is a thread.
pub fn is_thread(object: &ObjectEntry) -> bool
    ensures { result ≡ names.is_thread object.now }
{
    matches!(object.details, Details::Thread)
}

/// The first thread object too many, behind so many others.
fn one_thread_too_many(threads: usize, i: usize, object: &ObjectEntry) -> Option<Flaw>
    ensures { result ≡ first_of (limits.one_thread_too_many threads i object.now) }
{
    if is_thread(object) && threads == STATIC_THREADS {
        Some(Flaw::Limit {
            counted: Counted::Threads,
            number: STATIC_THREADS as i64,
            place: Place::Entry(Section::Object, i),
        })
    } else {
        None
    }
}

#[tactic(auto, using(crate::proofs::Firsts::first_or), unfolding(crate::specs::Limits::object_limits))]
fn object_limit(threads: usize, i: usize, object: &ObjectEntry) -> Option<Flaw>
    ensures { result ≡ first_of (limits.object_limits threads i object.now) }
{
    one_too_many(Section::Object, STATIC_ROWS, i)
        .or(one_thread_too_many(threads, i, object))
        .or(details_limit(i, object.details))
}

#[tactic(auto, using(crate::proofs::Firsts::first_or), unfolding(crate::specs::Limits::boot_limits))]
fn boot_limit(i: usize, boot: &BootEntry) -> Option<Flaw>
    ensures { result ≡ first_of (limits.boot_limits i boot.now) }
{
    let place = Place::Field(Section::Boot, i, Key::Priority);
    let priority = outside(Key::Priority, -16, 14, place, boot.priority);
    one_too_many(Section::Boot, BOOTS, i).or(priority)
}

#[tactic(auto, using(crate::proofs::Firsts::first_or), unfolding(crate::specs::Limits::script_limits))]
fn script_limit(i: usize, script: &ScriptEntry) -> Option<Flaw>
    ensures { result ≡ first_of (limits.script_limits i script.now) }
{
    let place = Place::Field(Section::Script, i, Key::Lines);
    let lines = some_items(Key::Lines, LINES as i64, place, script.lines.len());
    one_too_many(Section::Script, SCRIPTS, i).or(lines)
}

/// The size that the partition with this name asks for.
fn size_named(text: &[u8], partitions: &[PartitionEntry]) -> Option<u32>
    ensures { result ≡ limits.size_named text.now partitions.now }
{
    for partition in partitions {
        if is_named(&partition.name, text) {
            return Some(asked_size(partition));
        }
    }
    None
}

/// An offset at which four bytes don't lie in a partition of so many.
fn offset_limit(place: Place, n: i64, size: Option<u32>) -> Option<Flaw>
    ensures { result ≡ first_of (limits.offset_limits place n size) }
{
    match size {
        None => None,
        Some(size) => {
            if size < 4 {
                Some(Flaw::Limit {
                    counted: Counted::Key(Key::Offset),
                    number: 0,
                    place,
                })
            } else {
                outside(Key::Offset, 0, (size - 4) as i64, place, n)
            }
        }
    }
}

/// The offset of a futex, where four bytes from there on don't lie in its partition.
fn futex_offset_limit(
    partitions: &[PartitionEntry],
    place: Place,
    futex: &FutexEntry,
) -> Option<Flaw>
    ensures { result ≡ first_of (limits.offset_limits place futex.now.offset (limits.size_named futex.now.partition partitions.now)) }
{
    let size = size_named(futex.partition.as_slice(), partitions);
    offset_limit(place, futex.offset, size)
}

#[tactic(auto, using(crate::proofs::Firsts::first_or), unfolding(crate::specs::Limits::futex_limits))]
fn futex_limit(partitions: &[PartitionEntry], i: usize, futex: &FutexEntry) -> Option<Flaw>
    ensures { result ≡ first_of (limits.futex_limits partitions.now i futex.now) }
{
    let offset = futex_offset_limit(
        partitions,
        Place::Field(Section::Futex, i, Key::Offset),
        futex,
    );
    one_too_many(Section::Futex, FUTEXES, i).or(offset)
}

fn object_limits(objects: &[ObjectEntry]) -> Option<Flaw>
    ensures { result ≡ first_of (limits.objects_limits 0 0 objects.now) }
{
    let mut threads = 0usize;
    let mut index = 0usize;
    for object in objects {
        let found = object_limit(threads, index, object);
        if found.is_some() {
            return found;
        }
        if is_thread(object) {
            threads += 1;
        }
        index += 1;
    }
    None
}

#[tactic(auto, using(crate::proofs::Firsts::first_or), unfolding(crate::specs::Limits::top_limits))]
fn top_limit(d: &Description) -> Option<Flaw>
    ensures { result ≡ first_of (limits.top_limits d.now) }
{
    outside(Key::Regions, 4, 32, Place::Top(Key::Regions), d.regions).or(longer(
        Key::Rodata,
        AREA_ENTRY as i64,
        Place::Top(Key::Rodata),
        d.rodata.len(),
    ))
}

/// The first count or number of a description that is out of its range.
pub fn first_limit(d: &Description) -> Option<Flaw>
    ensures { result ≡ first_of (limits.limits d.now) }
{
    let most = most_parts(d);
    let domains = first_found(
        d.domains.as_slice(),
        |i, domain| domain_limit(most, i, domain),
    );
    let partitions = d.partitions.as_slice();
    let futexes = first_found(
        d.futexes.as_slice(),
        |i, futex| futex_limit(partitions, i, futex),
    );
    top_limit(d)
        .or(first_found(d.pools.as_slice(), pool_limit))
        .or(first_found(d.partitions.as_slice(), partition_limit))
        .or(domains)
        .or(object_limits(d.objects.as_slice()))
        .or(first_found(d.boots.as_slice(), boot_limit))
        .or(first_found(d.scripts.as_slice(), script_limit))
        .or(futexes)
}
