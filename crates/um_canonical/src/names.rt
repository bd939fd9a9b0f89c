//! The names of an image's things by their numbers.

ghost use Rattle.std.specs.Prelude.{◌≡◌, IfOk, map};
ghost use Rattle.um_canonical.specs.{Named.{name_at}, Tables.{names_of, AreNamesOf}};

use std::alloc::Global;
use um_base::{DomainDef, Futex, Image, Name, ObjectDef, OutOfMemory, Partition, Pool, Script};

/// The names of an image, kind by kind, in their order.
#[derive(Drop)]
pub struct NameTable {
    pub pools: Vec<Name>,
    pub partitions: Vec<Name>,
    pub domains: Vec<Name>,
    pub objects: Vec<Name>,
    pub scripts: Vec<Name>,
    pub futexes: Vec<Name>,
}

/// The name of a number; none is the empty one.
pub fn name_at(names: &[Name], index: u8) -> Name
    ensures { result ≡ name_at names.now index }
{
    match names.get(index as usize) {
        Some(name) => *name,
        None => Name::new(),
    }
}

fn of_pools(alloc: Global, pools: &[Pool]) -> Result<Vec<Name>, OutOfMemory>
    ensures { IfOk result (λ names. names.items ≡ map (λ pool. pool.name) pools.now) }
{
    Ok(pools.iter().map(|pool| pool.name).collect(alloc)?)
}

fn of_partitions(alloc: Global, partitions: &[Partition]) -> Result<Vec<Name>, OutOfMemory>
    ensures { IfOk result (λ names. names.items ≡ map (λ partition. partition.name) partitions.now) }
{
    Ok(partitions.iter().map(|part| part.name).collect(alloc)?)
}

fn of_domains(alloc: Global, domains: &[DomainDef]) -> Result<Vec<Name>, OutOfMemory>
    ensures { IfOk result (λ names. names.items ≡ map (λ domain. domain.name) domains.now) }
{
    Ok(domains.iter().map(|domain| domain.name).collect(alloc)?)
}

fn of_objects(alloc: Global, objects: &[ObjectDef]) -> Result<Vec<Name>, OutOfMemory>
    ensures { IfOk result (λ names. names.items ≡ map (λ object. object.name) objects.now) }
{
    Ok(objects.iter().map(|object| object.name).collect(alloc)?)
}

fn of_scripts(alloc: Global, scripts: &[Script]) -> Result<Vec<Name>, OutOfMemory>
    ensures { IfOk result (λ names. names.items ≡ map (λ script. script.name) scripts.now) }
{
    let mut names = Vec::new(alloc);
    for script in scripts {
        names.push(script.name)?;
    }
    Ok(names)
}

fn of_futexes(alloc: Global, futexes: &[Futex]) -> Result<Vec<Name>, OutOfMemory>
    ensures { IfOk result (λ names. names.items ≡ map (λ futex. futex.name) futexes.now) }
{
    Ok(futexes.iter().map(|futex| futex.name).collect(alloc)?)
}

impl NameTable {
    /// That of an image.
    pub fn of(alloc: Global, image: &Image) -> Result<NameTable, OutOfMemory>
        ensures { IfOk result (λ names. AreNamesOf names image.now) }
    {
        Ok(NameTable {
            pools: of_pools(alloc, image.pools.as_slice())?,
            partitions: of_partitions(alloc, image.partitions.as_slice())?,
            domains: of_domains(alloc, image.domains.as_slice())?,
            objects: of_objects(alloc, image.objects.as_slice())?,
            scripts: of_scripts(alloc, image.scripts.as_slice())?,
            futexes: of_futexes(alloc, image.futexes.as_slice())?,
        })
    }

    /// All names in one list.
    pub fn all(&self, alloc: Global) -> Result<Vec<Name>, OutOfMemory>
        ensures { IfOk result (λ all. all.items ≡ names_of self.now) }
    {
        let mut all = Vec::new(alloc);
        all.extend_from_slice(&self.pools)?;
        all.extend_from_slice(&self.partitions)?;
        all.extend_from_slice(&self.domains)?;
        all.extend_from_slice(&self.objects)?;
        all.extend_from_slice(&self.scripts)?;
        all.extend_from_slice(&self.futexes)?;
        Ok(all)
    }
}
