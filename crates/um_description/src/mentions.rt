//! The names in script lines.

ghost use Rattle.std.specs.Prelude.{◌≡◌, ◌≤◌, ◌+◌, [], ◌∷◌, length};
ghost use Rattle.um_document.specs.First.{first_of};
ghost use Rattle.um_description.specs.declared.mentions.Wanted.{Wanted};
ghost use Rattle.um_description.specs.Mentions as spec;

use crate::indexed::Indexed;
use crate::named::has_name;
use um_base::{Instr, Name, PartRef, Ref, Term};
use um_document::Description;

/// What a name in a line is to name.
#[derive(Clone, Copy, PartialEq, Eq)]
pub enum Wanted {
    /// An object, a partition, a futex, a variable, or the read-only data.
    Place,
    Domain,
    Partition,
    Script,
}

const RODATA: &[u8] = b"rodata";

/// Whether this is the name of read-only data that there is.
fn names_rodata(d: &Description, name: &[u8]) -> bool
    ensures { result ≡ spec.names_rodata d.now name.now }
{
    name == RODATA && !d.rodata.is_empty()
}

/// Whether a name is that of an object, a partition, a futex, a variable, or of the read-only data.
fn is_place(d: &Indexed<'_>, name: &[u8]) -> bool
    ensures { result ≡ spec.is_known d.now Wanted.Place name.now }
{
    d.is_variable(name)
        || has_name(
            d.description().objects.as_slice(),
            |object| object.name,
            name,
        )
        || has_name(
            d.description().partitions.as_slice(),
            |partition| partition.name,
            name,
        )
        || names_rodata(d.description(), name)
        || has_name(d.description().futexes.as_slice(), |futex| futex.name, name)
}

/// Whether a name names what is wanted.
pub fn is_known(d: &Indexed<'_>, wanted: Wanted, name: &[u8]) -> bool
    ensures { result ≡ spec.is_known d.now wanted name.now }
{
    let description = d.description();
    match wanted {
        Wanted::Place => is_place(d, name),
        Wanted::Domain => has_name(description.domains.as_slice(), |domain| domain.name, name),
        Wanted::Partition => has_name(
            description.partitions.as_slice(),
            |partition| partition.name,
            name,
        ),
        Wanted::Script => has_name(description.scripts.as_slice(), |script| script.name, name),
    }
}

/// The number of the word of a term that names nothing.
#[tactic(auto, unfolding(crate::specs::Mentions::strangers))]
pub fn in_term(d: &Indexed<'_>, at: usize, term: &Term) -> Option<usize>
    ensures { result ≡ first_of (spec.strangers d.now (spec.in_term at term.now)) }
{
    match term {
        Term::Place { name, .. } => stranger(d, Wanted::Place, at, name),
        _ => None,
    }
}

#[tactic(auto, unfolding(crate::specs::Mentions::strangers))]
fn stranger(d: &Indexed<'_>, wanted: Wanted, at: usize, name: &Name) -> Option<usize>
    ensures { result ≡ first_of (spec.strangers d.now (record { at = at; wanted = wanted; name = name.now } ∷ [])) }
{
    if is_known(d, wanted, name.as_slice()) {
        None
    } else {
        Some(at)
    }
}

#[tactic(auto, unfolding(crate::specs::Mentions::strangers))]
pub fn in_ref(d: &Indexed<'_>, wanted: Wanted, at: usize, named: &Ref) -> Option<usize>
    ensures { result ≡ first_of (spec.strangers d.now (spec.in_ref wanted at named.now)) }
{
    match named {
        Ref::Named(name) => stranger(d, wanted, at, name),
        Ref::At(_) => None,
    }
}

#[tactic(auto, unfolding(crate::specs::Mentions::strangers))]
pub fn in_part(d: &Indexed<'_>, at: usize, part: &PartRef) -> Option<usize>
    ensures { result ≡ first_of (spec.strangers d.now (spec.in_part at part.now)) }
{
    match part {
        PartRef::Named(name) => stranger(d, Wanted::Partition, at, name),
        _ => None,
    }
}

#[tactic(auto, unfolding(crate::specs::Mentions::strangers))]
pub fn in_parts(d: &Indexed<'_>, parts: &[PartRef]) -> Option<usize>
    requires { length parts.now ≤ 4 }
    ensures { result ≡ first_of (spec.strangers d.now (spec.in_parts 2 parts.now)) }
{
    let mut index = 0usize;
    for part in parts {
        let found = in_part(d, index + 2, part);
        if found.is_some() {
            return found;
        }
        index += 1;
    }
    None
}
