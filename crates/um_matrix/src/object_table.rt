//! The objects of all rows.

ghost use Rattle.std.specs.{
  Prelude.{◌≡◌, ◌<◌, ◌≤◌, ◌-◌, ◌++◌, ℕ, IfOk, length, replicate, slice_index_or, IsTrue, vec_capacity},
  Borrow.{sem},
};
ghost use Rattle.um_base.specs.Lawful.{IsLawful};
ghost use Rattle.um_machine.specs.{
  Run.{objects_from},
  State.{vacant},
};
ghost use Rattle.um_steps.specs.Padded.{padded};

use std::alloc::Global;
use std::marker::Model;
use um_base::{Image, OutOfMemory, ROWS, STATIC_ROWS};
use um_machine::Object;
use um_steps::blank::{open_object, vacant};

/// The objects of all rows. Of the static rows, and of the dynamic ones, it has those up to the last that was ever written;
/// the others are vacant, and read as the one blank row. Room for all rows is reserved from the beginning.
#[derive(Drop)]
pub struct ObjectTable {
    statics: Vec<Object>,
    dynamics: Vec<Object>,
    blank: Vec<Object>,
}

impl Model for ObjectTable {
    ghost use Rattle.std.specs.Prelude.{List, [], ◌∷◌, ◌≡◌, ◌≤◌, ◌-◌, ◌++◌, length, vec_capacity};
    ghost use Rattle.um_base.specs.declared.limits.TheConstants.{ROWS, STATIC_ROWS};
    ghost use Rattle.um_machine.specs.{declared.object.Object.{Object}, State.{vacant}};
    ghost use Rattle.um_steps.specs.Padded.{padded};

    ghost Value = { List Object };

    ghost view = { λ t. padded vacant STATIC_ROWS t.statics.items ++ padded vacant
        (ROWS - STATIC_ROWS) t.dynamics.items };

    ghost invariant = { λ t.
        (length t.statics.items ≤ STATIC_ROWS) × (STATIC_ROWS ≤ vec_capacity t.statics)
        × (length t.dynamics.items ≤ ROWS - STATIC_ROWS) × (ROWS - STATIC_ROWS ≤ vec_capacity t.dynamics)
        × (t.blank.items ≡ vacant ∷ []) };
}

/// The objects of a description.
#[tactic(auto, using(um_boot::proofs::BootLemmas::in_limits))]
fn statics(alloc: Global, image: &Image) -> Result<Vec<Object>, OutOfMemory>
    requires { IsLawful image.now }
    ensures items { IfOk result
        (λ all. all.items ++ replicate (ROWS - length all.items) vacant
        ≡ objects_from image.now.boots 0 image.now.objects) }
    ensures few { IfOk result (λ all. length all.items ≤ STATIC_ROWS) }
    ensures room { IfOk result (λ all. STATIC_ROWS ≤ vec_capacity all) }
{
    let mut all = Vec::with_capacity(alloc, STATIC_ROWS)?;
    for (x, object) in image.objects.as_slice().iter().enumerate() {
        fill(&mut all, x + 1);
        open_object(&mut all[x], image.boots.as_slice(), x, object);
    }
    Ok(all)
}

/// Adds vacant rows until there are this many. The room is reserved.
fn fill(rows: &mut Vec<Object>, n: usize)
    requires { n ≤ vec_capacity rows.old }
    ensures items { rows.new.items ≡ rows.old.items ++ replicate (n - length rows.old.items) vacant }
    ensures room { vec_capacity rows.new ≡ vec_capacity rows.old }
{
    let missing = n.saturating_sub(rows.len());
    'rows: for _ in 0..missing {
        rows.push_reserved(vacant());
    }
}

/// The object at a place of a list, or the blank one where the list is shorter.
fn object_or<'a>(rows: &'a [Object], x: usize, blank: &'a Object) -> &'a Object
    ensures { result.now ≡ slice_index_or rows.now x blank.now }
{
    match rows.get(x) {
        Some(object) => object,
        None => blank,
    }
}

/// Whether two lists have the same objects, with vacant ones behind the shorter.
fn same_objects(a: &[Object], b: &[Object], blank: &Object) -> bool
    requires { blank.now ≡ vacant }
    ensures { IsTrue result
        → (n : ℕ) → length a.now ≤ n → length b.now ≤ n → padded vacant n a.now ≡ padded vacant n b.now }
{
    for x in 0..a.len().max(b.len()) {
        if !object_or(a, x, blank).is_same(object_or(b, x, blank)) {
            return false;
        }
    }
    true
}

/// Takes over an object, where it isn't the same already.
fn take_object(own: &mut Object, other: &Object)
    ensures { own.new ≡ other.now }
{
    if !own.is_same(other) {
        *own = other.copy();
    }
}

/// Takes over a list of objects, for which there is room. The list gets no shorter: what lies behind them is made vacant.
fn take_objects(own: &mut Vec<Object>, other: &[Object], blank: &Object)
    requires room { length other.now ≤ vec_capacity own.old }
    requires blank { blank.now ≡ vacant }
    ensures items { (n : ℕ) → length own.old.items ≤ n → length other.now ≤ n
        → (length own.new.items ≤ n) × (padded vacant n own.new.items ≡ padded vacant n other.now) }
    ensures room { vec_capacity own.new ≡ vec_capacity own.old }
{
    fill(own, other.len());
    for x in 0..own.len() {
        take_object(&mut own[x], object_or(other, x, blank));
    }
}

impl ObjectTable {
    ghost use Rattle.um_matrix.specs.Lending.{LendsRow};

    /// Makes the table of a description's objects, with no others.
    pub fn boot(alloc: Global, image: &Image) -> Result<ObjectTable, OutOfMemory>
        requires { IsLawful image.now }
        ensures items { IfOk result (λ table. table ≡ objects_from image.now.boots 0 image.now.objects) }
        ensures all { IfOk result (λ table. length table ≡ ROWS) }
    {
        let statics = statics(alloc, image)?;
        let dynamics = Vec::with_capacity(alloc, ROWS - STATIC_ROWS)?;
        let mut blank = Vec::with_capacity(alloc, 1)?;
        fill(&mut blank, 1);
        Ok(ObjectTable {
            statics,
            dynamics,
            blank,
        })
    }

    /// The object of a row.
    pub(crate) fn row(&self, x: usize) -> &Object
        requires { x < ROWS }
        ensures { result.now ≡ slice_index_or self.now x vacant }
    {
        let kept = if x < STATIC_ROWS {
            self.statics.get(x)
        } else {
            self.dynamics.get(x - STATIC_ROWS)
        };
        match kept {
            Some(object) => object,
            None => &self.blank[0],
        }
    }

    /// Whether two tables have the same objects.
    pub fn is_same(&self, other: &ObjectTable) -> bool
        ensures { IsTrue result → self.now ≡ other.now }
    {
        same_objects(&self.statics, &other.statics, &self.blank[0])
            && same_objects(&self.dynamics, &other.dynamics, &self.blank[0])
    }

    /// Takes over the objects of another table. It takes no memory.
    pub fn set_to(&mut self, other: &ObjectTable)
        ensures { self.new ≡ other.now }
    {
        take_objects(&mut self.statics, &other.statics, &other.blank[0]);
        take_objects(&mut self.dynamics, &other.dynamics, &other.blank[0]);
    }

    /// The objects that were ever written, of the static rows and of the dynamic ones.
    pub(crate) fn written(&self) -> (&[Object], &[Object]) {
        (self.statics.as_slice(), self.dynamics.as_slice())
    }

    /// The object of a row, to change it. It takes no memory.
    pub(crate) fn row_mut(&mut self, x: usize) -> &mut Object
        requires { x < ROWS }
        ensures* lends { sem 𝓛 (LendsRow self.entry x result) }
        ensures value { result.now ≡ slice_index_or self.old x vacant }
    {
        if x < STATIC_ROWS {
            fill(&mut self.statics, x + 1);
            &mut self.statics[x]
        } else {
            fill(&mut self.dynamics, x - STATIC_ROWS + 1);
            &mut self.dynamics[x - STATIC_ROWS]
        }
    }
}
