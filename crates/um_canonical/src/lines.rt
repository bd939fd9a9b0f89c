//! Script lines with the names of the domains, scripts and partitions that they number.

ghost use Rattle.std.specs.Prelude.{◌≡◌, ◌++◌, map, OnOk};
ghost use Rattle.um_canonical.specs.Named as named;
ghost use Rattle.um_canonical.specs.Tables.{shown_line};

use crate::names::{NameTable, name_at};
use um_base::{Instr, Name, OutOfMemory, PartRef, PartRefs, Ref};
use um_script::put_line;

fn named_ref(names: &[Name], thing: &Ref) -> Ref
    ensures { result ≡ named.named_ref names.now thing.now }
{
    match thing {
        Ref::At(index) => Ref::Named(name_at(names, *index)),
        Ref::Named(name) => Ref::Named(*name),
    }
}

fn named_part(names: &[Name], part: &PartRef) -> PartRef
    ensures { result ≡ named.named_part names.now part.now }
{
    match part {
        PartRef::At(index) => PartRef::Named(name_at(names, *index)),
        PartRef::Named(name) => PartRef::Named(*name),
        PartRef::Given { range, attr } => PartRef::Given {
            range: *range,
            attr: *attr,
        },
    }
}

fn named_parts(names: &[Name], parts: &PartRefs) -> PartRefs
    ensures { result ≡ map (named.named_part names.now) parts.now }
{
    let mut all = PartRefs::new();
    for part in parts.as_slice() {
        all.push(&named_part(names, part));
    }
    all
}

/// An instruction with names in the place of numbers.
fn shown(names: &NameTable, line: &Instr) -> Instr
    ensures { result ≡ named.shown names.now.partitions.items names.now.domains.items names.now.scripts.items line.now }
{
    let mut shown = *line;
    match &mut shown {
        Instr::DomainInit { domain, parts } => {
            *domain = named_ref(&names.domains, domain);
            *parts = named_parts(&names.partitions, parts);
        }
        Instr::DomainAdd { domain, part } => {
            *domain = named_ref(&names.domains, domain);
            *part = named_part(&names.partitions, part);
        }
        Instr::DomainRemove { domain, part } => {
            *domain = named_ref(&names.domains, domain);
            *part = named_part(&names.partitions, part);
        }
        Instr::DomainMove { domain, .. } => *domain = named_ref(&names.domains, domain),
        Instr::Create { script, .. } => *script = named_ref(&names.scripts, script),
        Instr::UserMode { script } => *script = named_ref(&names.scripts, script),
        _ => {}
    }
    shown
}

/// The canonical line of an instruction of the image.
#[tactic(auto, unfolding(crate::specs::Tables::shown_line))]
pub fn put_shown(text: &mut Vec<u8>, names: &NameTable, line: &Instr) -> Result<(), OutOfMemory>
    ensures { OnOk result (text.new.items ≡ text.old.items ++ shown_line names.now line.now) }
{
    put_line(text, &shown(names, line))
}
