//! Boot entries, with the rows and numbers of what they name.

ghost use Rattle.std.specs.Prelude.{◌≡◌, ◌≤◌, IfOk, length, map, option_map};
ghost use Rattle.um_document.specs.declared.description.ObjectEntry.{ObjectEntry};
ghost use Rattle.um_description.specs.{
  Names.{is_among, pool_names, domain_names, object_names, script_names},
  Resolve.{number_named, row_named, rows_among, lowered, boot_of},
};

use crate::named::{number, number_of};
use std::alloc::Global;
use um_base::{
    BOOTS, Boot, BoundedVec, DOMAINS, Name, OutOfMemory, POOLS, Row, SCRIPTS, STATIC_ROWS,
};
use um_document::{BootEntry, Description, ObjectEntry, Sequence, Text};

/// Whether a name stands among these texts.
fn is_among(name: &Name, texts: &[Text]) -> bool
    ensures { result ≡ is_among name.now texts.now }
{
    texts.iter().any(|text| name.as_slice() == text.as_slice())
}

/// The rows of the objects that stand among these names.
fn rows_among(
    alloc: Global,
    objects: &[ObjectEntry],
    texts: &[Text],
) -> Result<BoundedVec<Row, STATIC_ROWS>, OutOfMemory>
    requires { length objects.now ≤ STATIC_ROWS }
    ensures { IfOk result (λ all. all ≡ rows_among texts.now 0 (map (λ (o : ObjectEntry). o.name) objects.now)) }
{
    let mut all = BoundedVec::new(alloc);
    for (x, object) in objects.iter().enumerate() {
        if is_among(&object.name, texts) {
            all.push(Row(x as u8))?;
        }
    }
    Ok(all)
}

/// A priority as an image has it.
fn lowered(n: i64) -> i8
    ensures { result ≡ lowered n }
{
    if n < -128 {
        -128
    } else if n > 127 {
        127
    } else {
        n as i8
    }
}

/// The row of the object that an entry names.
fn row_of(d: &Description, text: &Text) -> Row
    requires { length d.now.objects ≤ STATIC_ROWS }
    ensures { result ≡ row_named (object_names d.now) text.now }
{
    Row(number(number_of(d.objects.as_slice(), |object| object.name, text.as_slice())))
}

/// The number of the script that an entry names.
fn script_of(d: &Description, text: &Text) -> u8
    requires { length d.now.scripts ≤ SCRIPTS }
    ensures { result ≡ number_named (script_names d.now) text.now }
{
    number(number_of(d.scripts.as_slice(), |script| script.name, text.as_slice()))
}

/// The number of the domain that an entry names.
fn domain_of(d: &Description, text: &Text) -> u8
    requires { length d.now.domains ≤ DOMAINS }
    ensures { result ≡ number_named (domain_names d.now) text.now }
{
    number(number_of(d.domains.as_slice(), |domain| domain.name, text.as_slice()))
}

/// The number of the pool that an entry names.
fn pool_of(d: &Description, name: &Option<Text>) -> Option<u8>
    requires { length d.now.pools ≤ POOLS }
    ensures { result ≡ option_map (number_named (pool_names d.now)) name.now }
{
    match name {
        Some(text) => Some(number(number_of(
            d.pools.as_slice(),
            |pool| pool.name,
            text.as_slice(),
        ))),
        None => None,
    }
}

/// The rows that an entry grants.
fn grants_of(
    alloc: Global,
    d: &Description,
    texts: &Sequence<Text>,
) -> Result<BoundedVec<Row, STATIC_ROWS>, OutOfMemory>
    requires { length d.now.objects ≤ STATIC_ROWS }
    ensures { IfOk result (λ all. all ≡ rows_among texts.now 0 (object_names d.now)) }
{
    rows_among(alloc, d.objects.as_slice(), texts.as_slice())
}

/// A boot entry, with the rows and numbers of what it names.
fn boot(alloc: Global, d: &Description, entry: &BootEntry) -> Result<Boot, OutOfMemory>
    requires pools { length d.now.pools ≤ POOLS }
    requires domains { length d.now.domains ≤ DOMAINS }
    requires objects { length d.now.objects ≤ STATIC_ROWS }
    requires scripts { length d.now.scripts ≤ SCRIPTS }
    ensures { IfOk result (λ b. b ≡ boot_of d.now entry.now) }
{
    let grants = grants_of(alloc, d, &entry.grants)?;
    Ok(Boot {
        thread: row_of(d, &entry.thread),
        stack: row_of(d, &entry.stack),
        script: script_of(d, &entry.script),
        mode: entry.mode,
        priority: lowered(entry.priority),
        domain: domain_of(d, &entry.domain),
        pool: pool_of(d, &entry.pool),
        grants,
    })
}

/// The boot entries, with the rows and numbers of what they name.
pub fn boots(alloc: Global, d: &Description) -> Result<BoundedVec<Boot, BOOTS>, OutOfMemory>
    requires pools { length d.now.pools ≤ POOLS }
    requires domains { length d.now.domains ≤ DOMAINS }
    requires objects { length d.now.objects ≤ STATIC_ROWS }
    requires scripts { length d.now.scripts ≤ SCRIPTS }
    requires count { length d.now.boots ≤ BOOTS }
    ensures { IfOk result (λ all. all ≡ map (boot_of d.now) d.now.boots) }
{
    let mut all = BoundedVec::new(alloc);
    for entry in d.boots.as_slice() {
        all.push(boot(alloc, d, entry)?)?;
    }
    Ok(all)
}
