//! The contents of the heap's cell.

ghost use Rattle.std.specs.Prelude.{◌≡◌, ◌<◌, IfSome, None, false, if◌then◌else◌, slice_index, slice_index_or};
ghost use Rattle.um_base.specs.declared.{act.Act.{Act}, limits.TheConstants.{ROWS}};
ghost use Rattle.um_fine.specs.{
  Addresses.{address_or, row_named},
  Answers.{act_in},
  Heap.{can_pay, heap_after, heap_says, is_open, least_open, paid},
  Steps.{Exchange},
};
ghost use Rattle.um_tables.specs.HeapActs.{heap_act, heap_said};

use crate::heap_act::{HeapAct, HeapSaid};
use crate::slots::{get_or, put};
use std::marker::Model;
use um_base::{Addr, Image, Kind, ROWS, STATIC_ROWS};
use um_machine::Cost;
use um_steps::costs::pay_back;
use um_steps::kinds::{dynamic_kind, kind_number};
use um_steps::rows::{addr_of, row_at};

/// What is left in each pool, which dynamic addresses are free, and what each object cost.
#[derive(Drop)]
pub struct Heap {
    pools: Vec<u32>,
    /// By row: whether its dynamic address is free.
    free: Vec<bool>,
    /// By row: what its object cost.
    costs: Vec<Option<Cost>>,
}

impl Model for Heap {
    ghost use Rattle.um_fine.specs.Heap.{Heap as Contents};

    ghost Value = { Contents };

    ghost view = { λ h. record { pools = h.pools.items; free = h.free.items; costs = h.costs.items } };
}

/// Whether the pool pays.
fn can_pay(pools: &[u32], charge: Option<Cost>) -> bool
    ensures { result ≡ can_pay pools.now charge }
{
    match charge {
        None => false,
        Some(cost) => cost.bytes <= get_or(pools, cost.pool as usize, 0),
    }
}

/// Takes from the pool what it pays.
fn pay(pools: &mut [u32], charge: Option<Cost>)
    ensures { pools.new ≡ paid pools.old charge }
{
    if let Some(cost) = charge {
        let pool = cost.pool as usize;
        let left = get_or(pools, pool, 0).saturating_sub(cost.bytes);
        put(pools, pool, left);
    }
}

/// The row at an address that was checked.
fn row_named(image: &Image, addr: Addr) -> usize
    ensures { result ≡ row_named image.now addr }
{
    match row_at(image, addr.0) {
        Some(x) => x,
        None => 0,
    }
}

impl Heap {
    /// Makes the contents from these pools, free addresses and costs.
    pub fn new(pools: Vec<u32>, free: Vec<bool>, costs: Vec<Option<Cost>>) -> Heap
        ensures { result ≡ record { pools = pools.items; free = free.items; costs = costs.items } }
    {
        Heap { pools, free, costs }
    }

    /// Whether the dynamic address of a row is free.
    pub fn is_free(&self, x: usize) -> bool
        ensures { result ≡ slice_index_or self.now.free x false }
    {
        get_or(self.free.as_slice(), x, false)
    }

    /// How many bytes are left in a pool.
    pub fn left_in_pool(&self, pool: usize) -> u32
        ensures { result ≡ slice_index self.now.pools pool }
    {
        get_or(self.pools.as_slice(), pool, 0)
    }

    /// Whether an address is free for an object of this kind.
    fn is_open(&self, kind: Kind, x: usize) -> bool
        ensures { result ≡ is_open self.now kind x }
    {
        STATIC_ROWS <= x
            && kind_number(dynamic_kind(x)) == kind_number(kind)
            && get_or(self.free.as_slice(), x, false)
    }

    /// The least address that is free for an object of this kind.
    #[tactic(auto, using(crate::proofs::HeapLemmas::open_more))]
    fn least_open(&self, kind: Kind) -> Option<usize>
        ensures value { result ≡ least_open self.now kind 0 ROWS }
        ensures small { IfSome result (λ x. x < ROWS) }
    {
        for x in 0..ROWS {
            if self.is_open(kind, x) {
                return Some(x);
            }
        }
        None
    }

    /// Reserves an address for an object of this kind, if the pool pays.
    fn reserve(&mut self, image: &Image, kind: Kind, charge: Option<Cost>) -> Option<Addr>
        ensures said { result ≡
            (if can_pay self.old.pools charge then address_or image.now
            (least_open self.old kind 0 ROWS) else None) }
        ensures leaves { self.new ≡ heap_after image.now self.old (Act.Reserve kind result)
            (Exchange.charge charge) }
    {
        if !can_pay(self.pools.as_slice(), charge) {
            return None;
        }
        let x = match self.least_open(kind) {
            None => return None,
            Some(x) => x,
        };
        let addr = Addr(addr_of(image, x));
        let row = row_named(image, addr);
        pay(&mut self.pools, charge);
        put(&mut self.free, row, false);
        put(&mut self.costs, row, charge);
        Some(addr)
    }

    /// Takes a buffer, if the pool pays.
    fn buffer(&mut self, size: u32, charge: Option<Cost>) -> bool
        ensures said { result ≡ can_pay self.old.pools charge }
        ensures leaves { (image : Image)
            → self.new ≡ heap_after image self.old (Act.Buffer size result) (Exchange.charge charge) }
    {
        let fits = can_pay(self.pools.as_slice(), charge);
        if fits {
            pay(&mut self.pools, charge);
        }
        fits
    }

    /// Recycles an object whose buffer cost this.
    fn recycle(&mut self, image: &Image, addr: Addr, charge: Option<Cost>)
        ensures { self.new ≡ heap_after image.now self.old (Act.Recycle addr) (Exchange.charge charge) }
    {
        let row = row_named(image, addr);
        let cost = get_or(self.costs.as_slice(), row, None);
        pay_back(&mut self.pools, cost);
        pay_back(&mut self.pools, charge);
        put(&mut self.free, row, true);
        put(&mut self.costs, row, None);
    }

    /// Makes a step, which the cell always takes, and returns what the cell says.
    pub fn make(&mut self, image: &Image, act: &HeapAct, charge: Option<Cost>) -> HeapSaid
        ensures said { result ≡ heap_said
            (heap_says image.now self.old (Exchange.charge charge) (heap_act act.now)) }
        ensures leaves { self.new ≡ heap_after image.now self.old
            (act_in (heap_says image.now self.old (Exchange.charge charge) (heap_act act.now)))
            (Exchange.charge charge) }
    {
        match act {
            HeapAct::Reserve { kind, .. } => HeapSaid {
                addr: self.reserve(image, *kind, charge),
                fits: false,
            },
            HeapAct::Buffer { size, .. } => HeapSaid {
                addr: None,
                fits: self.buffer(*size, charge),
            },
            HeapAct::Unbuffer { .. } => {
                pay_back(&mut self.pools, charge);
                HeapSaid {
                    addr: None,
                    fits: false,
                }
            }
            HeapAct::Recycle { addr, .. } => {
                self.recycle(image, *addr, charge);
                HeapSaid {
                    addr: None,
                    fits: false,
                }
            }
        }
    }
}
