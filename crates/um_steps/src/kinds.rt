//! Kinds of objects.

ghost use Rattle.std.specs.Prelude.{◌≡◌};
ghost use Rattle.um_base.specs.Places.{dynamic_kind};
ghost use Rattle.um_machine.specs.Objects.{has_kind, kind_number};

use um_base::{Kind, STATIC_ROWS};

/// The kind of the objects of a dynamic row.
#[inline]
pub fn dynamic_kind(x: usize) -> Kind
    ensures { result ≡ dynamic_kind x }
{
    let j = x.saturating_sub(STATIC_ROWS);
    if j < 4 {
        Kind::Thread
    } else if j < 12 {
        Kind::Sem
    } else if j < 16 {
        Kind::Mutex
    } else if j < 24 {
        Kind::Msgq
    } else if j < 28 {
        Kind::Stack
    } else {
        Kind::Pipe
    }
}

/// The place of a kind among the kinds.
#[inline]
pub fn kind_number(kind: Kind) -> u8
    ensures { result ≡ kind_number kind }
{
    match kind {
        Kind::Thread => 0,
        Kind::ThreadStack => 1,
        Kind::Sem => 2,
        Kind::Mutex => 3,
        Kind::Msgq => 4,
        Kind::Stack => 5,
        Kind::Pipe => 6,
        Kind::Timer => 7,
    }
}

/// Whether an object of this kind is one that a check wants.
#[inline]
pub fn has_kind(want: Option<Kind>, have: Option<Kind>) -> bool
    ensures { result ≡ has_kind want have }
{
    match want {
        None => true,
        Some(want) => match have {
            None => false,
            Some(have) => kind_number(want) == kind_number(have),
        },
    }
}
