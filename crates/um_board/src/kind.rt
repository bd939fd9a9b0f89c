//! The kinds of cells, and what those of each kind keep.

ghost use Rattle.std.specs.Prelude.{◌≡◌};
ghost use Rattle.um_board.specs.{Kept.{cell_of, room_of}, Turned.{kind_of}};

use crate::contents::Kept;
use crate::object_room::ObjectRoom;
use um_tables::{Bytes, Clock, DomainCell, Heap, Joins, Scheduler};

/// What cells of one kind keep.
pub trait Kind {
    ghost use Rattle.std.specs.Prelude.{ℕ, Option};
    ghost use Rattle.um_words.specs.declared.kind.CellKind.{CellKind};
    ghost use Rattle.um_fine.specs.Cells.{Cell};

    /// The kind of those cells.
    ghost kind: { CellKind };

    /// The cell of the fine machine with these contents.
    ghost cell: { Self → Cell };

    /// For how many marks they have room, if they are a clock.
    ghost room: { Self → Option ℕ };

    /// Takes the contents out of a cell of that kind.
    fn out_of(kept: Kept) -> Self
        requires { kind_of (cell_of kept) ≡ kind }
        ensures cell { cell_of kept ≡ cell result }
        ensures room { room_of kept ≡ room result };

    /// Puts the contents into the form that cells keep.
    fn into_kept(self) -> Kept
        ensures cell { cell_of result ≡ cell self }
        ensures room { room_of result ≡ room self };
}

impl Kind for ObjectRoom {
    ghost use Rattle.std.specs.Prelude.{None};
    ghost use Rattle.um_words.specs.declared.kind.CellKind.{CellKind};
    ghost use Rattle.um_fine.specs.Cells.{Cell};
    ghost use Rattle.um_tables.specs.ObjectCells.{kept_in};

    ghost kind = { CellKind.Object };

    ghost cell = { λ o. Cell.object (kept_in o) };

    ghost room = { λ o. None };

    fn out_of(kept: Kept) -> Self {
        match kept {
            Kept::Object(own) => own,
            _ => unreachable!(),
        }
    }

    fn into_kept(self) -> Kept {
        Kept::Object(self)
    }
}

impl Kind for Box<DomainCell> {
    ghost use Rattle.std.specs.Prelude.{None};
    ghost use Rattle.um_words.specs.declared.kind.CellKind.{CellKind};
    ghost use Rattle.um_fine.specs.Cells.{Cell};

    ghost kind = { CellKind.Domain };

    ghost cell = { λ o. Cell.parts o.value.parts };

    ghost room = { λ o. None };

    fn out_of(kept: Kept) -> Self {
        match kept {
            Kept::Parts(own) => own,
            _ => unreachable!(),
        }
    }

    fn into_kept(self) -> Kept {
        Kept::Parts(self)
    }
}

impl Kind for Box<Bytes> {
    ghost use Rattle.std.specs.Prelude.{None};
    ghost use Rattle.um_words.specs.declared.kind.CellKind.{CellKind};
    ghost use Rattle.um_fine.specs.Cells.{Cell};

    ghost kind = { CellKind.Memory };

    ghost cell = { λ o. Cell.memory o.value };

    ghost room = { λ o. None };

    fn out_of(kept: Kept) -> Self {
        match kept {
            Kept::Memory(own) => own,
            _ => unreachable!(),
        }
    }

    fn into_kept(self) -> Kept {
        Kept::Memory(self)
    }
}

impl Kind for Box<Heap> {
    ghost use Rattle.std.specs.Prelude.{None};
    ghost use Rattle.um_words.specs.declared.kind.CellKind.{CellKind};
    ghost use Rattle.um_fine.specs.Cells.{Cell};

    ghost kind = { CellKind.Heap };

    ghost cell = { λ o. Cell.heap o.value };

    ghost room = { λ o. None };

    fn out_of(kept: Kept) -> Self {
        match kept {
            Kept::Heap(own) => own,
            _ => unreachable!(),
        }
    }

    fn into_kept(self) -> Kept {
        Kept::Heap(self)
    }
}

impl Kind for Box<Scheduler> {
    ghost use Rattle.std.specs.Prelude.{None};
    ghost use Rattle.um_words.specs.declared.kind.CellKind.{CellKind};
    ghost use Rattle.um_fine.specs.Cells.{Cell};

    ghost kind = { CellKind.Scheduler };

    ghost cell = { λ o. Cell.scheduler o.value };

    ghost room = { λ o. None };

    fn out_of(kept: Kept) -> Self {
        match kept {
            Kept::Scheduler(own) => own,
            _ => unreachable!(),
        }
    }

    fn into_kept(self) -> Kept {
        Kept::Scheduler(self)
    }
}

impl Kind for Box<Clock> {
    ghost use Rattle.std.specs.Prelude.{Some};
    ghost use Rattle.um_words.specs.declared.kind.CellKind.{CellKind};
    ghost use Rattle.um_fine.specs.Cells.{Cell};

    ghost kind = { CellKind.Clock };

    ghost cell = { λ o. Cell.clock o.value.clock };

    ghost room = { λ o. Some o.value.most };

    fn out_of(kept: Kept) -> Self {
        match kept {
            Kept::Clock(own) => own,
            _ => unreachable!(),
        }
    }

    fn into_kept(self) -> Kept {
        Kept::Clock(self)
    }
}

impl Kind for Box<Joins> {
    ghost use Rattle.std.specs.Prelude.{None};
    ghost use Rattle.um_words.specs.declared.kind.CellKind.{CellKind};
    ghost use Rattle.um_fine.specs.Cells.{Cell};

    ghost kind = { CellKind.Join };

    ghost cell = { λ o. Cell.joins o.value };

    ghost room = { λ o. None };

    fn out_of(kept: Kept) -> Self {
        match kept {
            Kept::Joins(own) => own,
            _ => unreachable!(),
        }
    }

    fn into_kept(self) -> Kept {
        Kept::Joins(self)
    }
}
