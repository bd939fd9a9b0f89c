//! Names that stood before.

ghost use Rattle.std.specs.Prelude.{◌≡◌, [], ◌∷◌, map, None, Ok, IfOk, OnOk};
ghost use Rattle.um_document.specs.{
  declared.description.DomainEntry.{DomainEntry},
  declared.description.ObjectEntry.{ObjectEntry},
  declared.description.PartitionEntry.{PartitionEntry},
  declared.description.PoolEntry.{PoolEntry},
  declared.description.ScriptEntry.{ScriptEntry},
  declared.description.VariableEntry.{VariableEntry},
  declared.shape.Section.{Section},
  First.{first_of},
};
ghost use Rattle.um_description.specs.Duplicates as spec;
ghost use Rattle.um_description.specs.Names.{variables_of, variable_names, names_within};

use crate::seen::Seen;
use itoa::Buffer;
use std::alloc::Global;
use um_base::{Name, OutOfMemory};
use um_document::{
    BootEntry, Description, DomainEntry, FutexEntry, Key, ObjectEntry, PartitionContents,
    PartitionEntry, Place, PoolEntry, ScriptEntry, Section, Text, VariableEntry,
};

/// The first of some names of a section that stood before.
fn name_again(
    alloc: Global,
    seen: &mut Seen,
    section: Section,
    names: &[Name],
) -> Result<Option<Place>, OutOfMemory>
    ensures found { IfOk result (λ found. found ≡ first_of (spec.names_again seen.old section 0 names.now)) }
    ensures added { result ≡ Ok None → spec.SameTexts seen.new (spec.added seen.old names.now) }
{
    let mut index = 0usize;
    for name in names {
        if seen.add(alloc, name.as_slice())? {
            return Ok(Some(Place::Field(section, index, Key::Name)));
        }
        index += 1;
    }
    Ok(None)
}

/// The first of a domain's partitions that stands twice in it.
fn part_again(alloc: Global, domain: usize, parts: &[Text]) -> Result<Option<Place>, OutOfMemory>
    ensures { IfOk result (λ found. found ≡ first_of (spec.parts_again [] domain 0 parts.now)) }
{
    let mut seen = Seen::new(alloc);
    let mut index = 0usize;
    for part in parts {
        if seen.add(alloc, part.as_slice())? {
            return Ok(Some(Place::Item(Section::Domain, domain, Key::Partitions, index)));
        }
        index += 1;
    }
    Ok(None)
}

/// A domain whose name stood before, or the first of its partitions that stands twice in it.
fn domain_found(
    alloc: Global,
    seen: &mut Seen,
    index: usize,
    domain: &DomainEntry,
) -> Result<Option<Place>, OutOfMemory>
    ensures found { IfOk result (λ found. found ≡ first_of (spec.domain_again seen.old index domain.now)) }
    ensures added { OnOk result (spec.SameTexts seen.new (domain.now.name ∷ seen.old)) }
{
    if seen.add(alloc, domain.name.as_slice())? {
        return Ok(Some(Place::Field(Section::Domain, index, Key::Name)));
    }
    match &domain.partitions {
        Some(parts) => part_again(alloc, index, parts.as_slice()),
        None => Ok(None),
    }
}

/// The first of the names and the partitions of domains that stood before.
fn domain_again(
    alloc: Global,
    seen: &mut Seen,
    domains: &[DomainEntry],
) -> Result<Option<Place>, OutOfMemory>
    ensures found { IfOk result (λ found. found ≡ first_of (spec.domains_again seen.old 0 domains.now)) }
    ensures added { result ≡ Ok None → spec.SameTexts seen.new (spec.added seen.old (map (λ (m : DomainEntry). m.name) domains.now)) }
{
    let mut index = 0usize;
    for domain in domains {
        let found = domain_found(alloc, seen, index, domain)?;
        if found.is_some() {
            return Ok(found);
        }
        index += 1;
    }
    Ok(None)
}

/// A boot entry's thread or stack that another one before it has.
fn boot_found(
    alloc: Global,
    threads: &mut Seen,
    stacks: &mut Seen,
    index: usize,
    boot: &BootEntry,
) -> Result<Option<Place>, OutOfMemory>
    ensures found { IfOk result (λ found. found ≡ first_of (spec.boot_again threads.old stacks.old index boot.now)) }
    ensures threads { OnOk result (spec.SameTexts threads.new (boot.now.thread ∷ threads.old)) }
    ensures stacks { OnOk result (spec.SameTexts stacks.new (boot.now.stack ∷ stacks.old)) }
{
    let thread = threads.add(alloc, boot.thread.as_slice())?;
    let stack = stacks.add(alloc, boot.stack.as_slice())?;
    if thread {
        Ok(Some(Place::Field(Section::Boot, index, Key::Thread)))
    } else if stack {
        Ok(Some(Place::Field(Section::Boot, index, Key::Stack)))
    } else {
        Ok(None)
    }
}

/// The first thread or stack that stands in two boot entries.
fn boot_again(alloc: Global, boots: &[BootEntry]) -> Result<Option<Place>, OutOfMemory>
    ensures { IfOk result (λ found. found ≡ first_of (spec.boots_again [] [] 0 boots.now)) }
{
    let mut threads = Seen::new(alloc);
    let mut stacks = Seen::new(alloc);
    let mut index = 0usize;
    for boot in boots {
        let found = boot_found(alloc, &mut threads, &mut stacks, index, boot)?;
        if found.is_some() {
            return Ok(found);
        }
        index += 1;
    }
    Ok(None)
}

fn pool_names(alloc: Global, pools: &[PoolEntry]) -> Result<Vec<Name>, OutOfMemory>
    ensures { IfOk result (λ found. found.items ≡ map (λ (p : PoolEntry). p.name) pools.now) }
{
    let mut found = Vec::new(alloc);
    for pool in pools {
        found.push(pool.name)?;
    }
    Ok(found)
}

/// The names of partitions.
pub fn partition_names(
    alloc: Global,
    partitions: &[PartitionEntry],
) -> Result<Vec<Name>, OutOfMemory>
    ensures { IfOk result (λ found. found.items ≡ map (λ (p : PartitionEntry). p.name) partitions.now) }
{
    let mut found = Vec::new(alloc);
    for partition in partitions {
        found.push(partition.name)?;
    }
    Ok(found)
}

/// The names of objects.
pub fn object_names(alloc: Global, objects: &[ObjectEntry]) -> Result<Vec<Name>, OutOfMemory>
    ensures { IfOk result (λ found. found.items ≡ map (λ (o : ObjectEntry). o.name) objects.now) }
{
    let mut found = Vec::new(alloc);
    for object in objects {
        found.push(object.name)?;
    }
    Ok(found)
}

fn script_names(alloc: Global, scripts: &[ScriptEntry]) -> Result<Vec<Name>, OutOfMemory>
    ensures { IfOk result (λ found. found.items ≡ map (λ (s : ScriptEntry). s.name) scripts.now) }
{
    let mut found = Vec::new(alloc);
    for script in scripts {
        found.push(script.name)?;
    }
    Ok(found)
}

fn pools_again(
    alloc: Global,
    seen: &mut Seen,
    pools: &[PoolEntry],
) -> Result<Option<Place>, OutOfMemory>
    ensures found { IfOk result (λ found. found ≡ first_of (spec.names_again seen.old Section.Pool 0 (map (λ (p : PoolEntry). p.name) pools.now))) }
    ensures added { result ≡ Ok None → spec.SameTexts seen.new (spec.added seen.old (map (λ (p : PoolEntry). p.name) pools.now)) }
{
    let names = pool_names(alloc, pools)?;
    name_again(alloc, seen, Section::Pool, &names)
}

/// The first of the names of a partition's variables that stood before.
fn variable_again(
    alloc: Global,
    seen: &mut Seen,
    partition: usize,
    variables: &[VariableEntry],
) -> Result<Option<Place>, OutOfMemory>
    ensures found { IfOk result (λ found. found ≡ first_of (spec.variables_again seen.old partition 0 variables.now)) }
    ensures added { result ≡ Ok None → spec.SameTexts seen.new (spec.added seen.old (map (λ (v : VariableEntry). v.name) variables.now)) }
{
    let mut index = 0usize;
    for variable in variables {
        if seen.add(alloc, variable.name.as_slice())? {
            return Ok(Some(Place::Variable(partition, index, Key::Name)));
        }
        index += 1;
    }
    Ok(None)
}

/// The first of the names of what a partition consists of that stood before.
fn contents_again(
    alloc: Global,
    seen: &mut Seen,
    partition: usize,
    contents: &PartitionContents,
) -> Result<Option<Place>, OutOfMemory>
    ensures found { IfOk result (λ found. found ≡ first_of (spec.variables_again seen.old partition 0 (variables_of contents.now))) }
    ensures added { result ≡ Ok None → spec.SameTexts seen.new (spec.added seen.old (map (λ (v : VariableEntry). v.name) (variables_of contents.now))) }
{
    match contents {
        PartitionContents::Whole { .. } => Ok(None),
        PartitionContents::Variables(variables) => {
            variable_again(alloc, seen, partition, variables.as_slice())
        }
    }
}

/// A partition whose name stood before, or the first of its variables whose name did.
fn partition_found(
    alloc: Global,
    seen: &mut Seen,
    index: usize,
    partition: &PartitionEntry,
) -> Result<Option<Place>, OutOfMemory>
    ensures found { IfOk result (λ found. found ≡ first_of (spec.partition_again seen.old index partition.now)) }
    ensures added { result ≡ Ok None → spec.SameTexts seen.new (spec.added (partition.now.name ∷ seen.old) (variable_names partition.now)) }
{
    if seen.add(alloc, partition.name.as_slice())? {
        return Ok(Some(Place::Field(Section::Partition, index, Key::Name)));
    }
    contents_again(alloc, seen, index, &partition.contents)
}

/// The first of the names of partitions and of their variables that stood before.
fn partitions_again(
    alloc: Global,
    seen: &mut Seen,
    partitions: &[PartitionEntry],
) -> Result<Option<Place>, OutOfMemory>
    ensures found { IfOk result (λ found. found ≡ first_of (spec.partitions_again seen.old 0 partitions.now)) }
    ensures added { result ≡ Ok None → spec.SameTexts seen.new (spec.added seen.old (names_within partitions.now)) }
{
    let mut index = 0usize;
    for partition in partitions {
        let found = partition_found(alloc, seen, index, partition)?;
        if found.is_some() {
            return Ok(found);
        }
        index += 1;
    }
    Ok(None)
}

fn objects_again(
    alloc: Global,
    seen: &mut Seen,
    objects: &[ObjectEntry],
) -> Result<Option<Place>, OutOfMemory>
    ensures found { IfOk result (λ found. found ≡ first_of (spec.names_again seen.old Section.Object 0 (map (λ (o : ObjectEntry). o.name) objects.now))) }
    ensures added { result ≡ Ok None → spec.SameTexts seen.new (spec.added seen.old (map (λ (o : ObjectEntry). o.name) objects.now)) }
{
    let names = object_names(alloc, objects)?;
    name_again(alloc, seen, Section::Object, &names)
}

fn scripts_again(
    alloc: Global,
    seen: &mut Seen,
    scripts: &[ScriptEntry],
) -> Result<Option<Place>, OutOfMemory>
    ensures found { IfOk result (λ found. found ≡ first_of (spec.names_again seen.old Section.Script 0 (map (λ (s : ScriptEntry). s.name) scripts.now))) }
    ensures added { result ≡ Ok None → spec.SameTexts seen.new (spec.added seen.old (map (λ (s : ScriptEntry). s.name) scripts.now)) }
{
    let names = script_names(alloc, scripts)?;
    name_again(alloc, seen, Section::Script, &names)
}

/// Where a futex lies, as a place is written.
fn spot_text(alloc: Global, futex: &FutexEntry) -> Result<Vec<u8>, OutOfMemory>
    ensures { IfOk result (λ text. text.items ≡ spec.spot_text futex.now) }
{
    let mut buffer = Buffer::new();
    let mut text = Vec::new(alloc);
    text.extend_from_slice(futex.partition.as_slice())?;
    text.push(b'+')?;
    text.extend_from_slice(buffer.format(futex.offset).as_bytes())?;
    Ok(text)
}

/// A futex whose name stood before, or that lies where another one before it does.
fn futex_found(
    alloc: Global,
    names: &mut Seen,
    spots: &mut Seen,
    index: usize,
    futex: &FutexEntry,
) -> Result<Option<Place>, OutOfMemory>
    ensures found { IfOk result (λ found. found ≡ first_of (spec.futex_again names.old spots.old index futex.now)) }
    ensures names { OnOk result (spec.SameTexts names.new (futex.now.name ∷ names.old)) }
    ensures spots { OnOk result (spec.SameTexts spots.new (spec.spot_text futex.now ∷ spots.old)) }
{
    let text = spot_text(alloc, futex)?;
    let name = names.add(alloc, futex.name.as_slice())?;
    let spot = spots.add(alloc, &text)?;
    if name {
        Ok(Some(Place::Field(Section::Futex, index, Key::Name)))
    } else if spot {
        Ok(Some(Place::Field(Section::Futex, index, Key::Offset)))
    } else {
        Ok(None)
    }
}

/// The first futex whose name stood before, or that lies where another one before it does.
fn futexes_again(
    alloc: Global,
    names: &mut Seen,
    futexes: &[FutexEntry],
) -> Result<Option<Place>, OutOfMemory>
    ensures { IfOk result (λ found. found ≡ first_of (spec.futexes_again names.old [] 0 futexes.now)) }
{
    let mut spots = Seen::new(alloc);
    let mut index = 0usize;
    for futex in futexes {
        let found = futex_found(alloc, names, &mut spots, index, futex)?;
        if found.is_some() {
            return Ok(found);
        }
        index += 1;
    }
    Ok(None)
}

/// The first place of a description whose text stood before: as a name, in the same domain, as another boot entry's
/// thread or stack, or as where another futex lies.
pub fn first_duplicate(alloc: Global, d: &Description) -> Result<Option<Place>, OutOfMemory>
    ensures { IfOk result (λ found. found ≡ first_of (spec.duplicates d.now)) }
{
    let mut seen = Seen::new(alloc);
    let pools = pools_again(alloc, &mut seen, d.pools.as_slice())?;
    let partitions = partitions_again(alloc, &mut seen, d.partitions.as_slice())?;
    let domains = domain_again(alloc, &mut seen, d.domains.as_slice())?;
    let objects = objects_again(alloc, &mut seen, d.objects.as_slice())?;
    let boots = boot_again(alloc, d.boots.as_slice())?;
    let scripts = scripts_again(alloc, &mut seen, d.scripts.as_slice())?;
    let futexes = futexes_again(alloc, &mut seen, d.futexes.as_slice())?;
    Ok(
        pools
            .or(partitions)
            .or(domains)
            .or(objects)
            .or(boots)
            .or(scripts)
            .or(futexes),
    )
}
