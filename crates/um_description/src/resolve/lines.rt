//! Script lines, with the addresses and numbers of what they name.

ghost use Rattle.std.specs.Prelude.{◌≡◌, ◌≤◌, ◌+◌, ◌%◌, ◌^◌, List, ℕ, length, map, slice_get};
ghost use Rattle.um_base.specs.Lawful.{futex_addr, futex_start};
ghost use Rattle.um_base.specs.declared.limits.TheConstants.{DOMAINS, PARTITIONS, SCRIPTS};
ghost use Rattle.um_description.specs.{
  Names.{partition_names},
  Resolve.{start_named, futex_named, object_addr, addr_named, term_of, ref_of, part_of, resolved},
};

use crate::indexed::Indexed;
use crate::named::{is_named, number, number_of};
use um_base::{Futex, Image, Instr, Name, ObjectDef, PartRef, PartRefs, Partition, Ref, Term};

/// The start of the partition with this name, or another address.
fn start_named(partitions: &[Partition], name: &Name, other: u32) -> u32
    ensures { result ≡ start_named name.now other partitions.now }
{
    for p in partitions {
        if is_named(&p.name, name.as_slice()) {
            return p.range.start.0;
        }
    }
    other
}

/// Where the partition of a number begins, or 0.
fn start_of(partitions: &[Partition], number: u8) -> u32
    ensures { (offset : ℕ) → futex_start (slice_get partitions.now number) offset ≡ result + offset }
{
    match partitions.get(number as usize) {
        None => 0,
        Some(partition) => partition.range.start.0,
    }
}

/// The address of a futex.
fn futex_addr(image: &Image, futex: &Futex) -> u32
    ensures { result ≡ futex_addr image.now futex.now % 2 ^ 32 }
{
    start_of(image.partitions.as_slice(), futex.partition).wrapping_add(futex.offset)
}

/// The address of the futex with this name, or another one.
fn futex_named(image: &Image, futexes: &[Futex], name: &Name, other: u32) -> u32
    ensures { result ≡ futex_named image.now name.now other futexes.now }
{
    for futex in futexes {
        if is_named(&futex.name, name.as_slice()) {
            return futex_addr(image, futex);
        }
    }
    other
}

/// The address of the object with this name, or another one.
fn object_addr(objects: &[ObjectDef], name: &Name, other: u32) -> u32
    ensures { result ≡ object_addr name.now other objects.now }
{
    for o in objects {
        if is_named(&o.name, name.as_slice()) {
            return o.addr.0;
        }
    }
    other
}

/// The address of what a place names.
fn addr_named(image: &Image, d: &Indexed<'_>, name: &Name) -> u32
    ensures { result ≡ addr_named image.now d.now name.now }
{
    let partitions = image.partitions.as_slice();
    let variable = d.variable_addr(partitions, name.as_slice());
    let futex = futex_named(image, image.futexes.as_slice(), name, variable);
    let other = start_named(partitions, name, futex);
    object_addr(image.objects.as_slice(), name, other)
}

fn term_of(image: &Image, d: &Indexed<'_>, term: &Term) -> Term
    ensures { result ≡ term_of image.now d.now term.now }
{
    match term {
        Term::Num(n) => Term::Num(*n),
        Term::Reg(r) => Term::Reg(*r),
        Term::Place { name, offset } => {
            Term::Num(addr_named(image, d, name).wrapping_add(*offset))
        },
    }
}

/// The number of the entry that is named, where it isn't a number already.
fn ref_in<T, F: Fn(&T) -> Name>(entries: &[T], name_of: F, named: &Ref) -> Ref
    requires few { length entries.now ≤ SCRIPTS }
    requires callable { F.IsAlwaysCallable name_of }
    ensures { (f : T → List ℕ) → ((entry : _) (name : _) → F.post name_of entry name → name ≡ f entry.now) → result ≡ ref_of (map f entries.now) named.now }
{
    match named {
        Ref::At(i) => Ref::At(*i),
        Ref::Named(name) => Ref::At(number(number_of(entries, name_of, name.as_slice()))),
    }
}

fn part_ref(d: &Indexed<'_>, part: &PartRef) -> PartRef
    requires { length d.now.partitions ≤ PARTITIONS }
    ensures { result ≡ part_of (partition_names d.now) part.now }
{
    match part {
        PartRef::At(i) => PartRef::At(*i),
        PartRef::Given { range, attr } => PartRef::Given {
            range: *range,
            attr: *attr,
        },
        PartRef::Named(name) => {
            let entries = d.description().partitions.as_slice();
            PartRef::At(number(number_of(entries, |partition| partition.name, name.as_slice())))
        }
    }
}

fn part_refs(d: &Indexed<'_>, parts: &PartRefs) -> PartRefs
    requires { length d.now.partitions ≤ PARTITIONS }
    ensures { result ≡ map (part_of (partition_names d.now)) parts.now }
{
    let mut all = PartRefs::new();
    for part in parts.as_slice() {
        all.push(&part_ref(d, part));
    }
    all
}

/// An operand as it is in the image: a term by its number, a name by the number of what it names, and all others as they are.
macro_rules! operand {
    ($image:ident $d:ident same $operand:ident) => { *$operand };
    ($image:ident $d:ident term $operand:ident) => { term_of($image, $d, $operand) };
    ($image:ident $d:ident domain $operand:ident) => {
        ref_in($d.description().domains.as_slice(), |domain| domain.name, $operand)
    };
    ($image:ident $d:ident script $operand:ident) => {
        ref_in($d.description().scripts.as_slice(), |script| script.name, $operand)
    };
    ($image:ident $d:ident part $operand:ident) => { part_ref($d, $operand) };
    ($image:ident $d:ident parts $operand:ident) => { part_refs($d, $operand) };
}

/// An instruction of one of these names, with its operands resolved as they say.
macro_rules! resolve {
    ($image:ident $d:ident $instr:ident { $($name:ident $({ $($operand:ident: $form:ident),* })?),* $(,)? }) => {
        match $instr {
            $(Instr::$name $({ $($operand),* })? => Instr::$name $({ $($operand: operand!($image $d $form $operand)),* })?),*
        }
    };
}

/// An instruction whose names are resolved: places by an image, and numbers by the description.
pub fn resolved(image: &Image, d: &Indexed<'_>, instr: &Instr) -> Instr
    requires domains { length d.now.domains ≤ DOMAINS }
    requires partitions { length d.now.partitions ≤ PARTITIONS }
    requires scripts { length d.now.scripts ≤ SCRIPTS }
    ensures { result ≡ resolved image.now d.now instr.now }
{
    resolve!(image d instr {
        End,
        Oops,
        Panic,
        Repeat { times: same },
        ObjectAlloc { kind: same, to: same },
        Set { to: same, value: term },
        Add { to: same, value: term },
        Load { to: same, addr: term, size: same },
        Store { addr: term, size: same, value: term },
        Exec { addr: term },
        DomainInit { domain: domain, parts: parts },
        DomainAdd { domain: domain, part: part },
        DomainRemove { domain: domain, part: part },
        DomainMove { domain: domain, thread: term },
        Grant { object: term, thread: term },
        Revoke { object: term, thread: term },
        Release { object: term },
        AllGrant { object: term },
        SemGive { object: term },
        SemReset { object: term },
        MutexInit { object: term },
        MutexUnlock { object: term },
        MsgqPurge { object: term },
        PipeReset { object: term },
        PipeClose { object: term },
        Create { thread: term, stack: term, size: term, script: script, priority: same, options: same },
        UserMode { script: script },
        NameSet { thread: term, addr: term },
        SemInit { object: term, count: term, limit: term },
        SemTake { object: term, timeout: same },
        MutexLock { object: term, timeout: same },
        SemCount { object: term, to: same },
        MsgqUsed { object: term, to: same },
        MsgqInit { object: term, msg_size: term, max_msgs: term },
        MsgqPut { object: term, addr: term, timeout: same },
        MsgqGet { object: term, addr: term, timeout: same },
        StackPop { object: term, addr: term, timeout: same },
        MsgqPeek { object: term, addr: term },
        StackInit { object: term, entries: term },
        StackPush { object: term, value: term },
        PipeInit { object: term, size: term },
        PipeWrite { object: term, addr: term, length: term, timeout: same },
        PipeRead { object: term, addr: term, length: term, timeout: same },
        TimerStart { object: term, ticks: term },
        TimerStop { object: term },
        TimerStatus { object: term, to: same },
        TimerSync { object: term, to: same },
        Abort { thread: term },
        Join { thread: term, timeout: same },
        Suspend { thread: term },
        Continue { thread: term },
        FutexWait { addr: term, value: term, timeout: same },
        FutexWake { addr: term, all: same },
    })
}
