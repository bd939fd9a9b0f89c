//! Calls on memory domains.

ghost use Rattle.std.specs.Prelude.{◌≡◌, ℕ, IsTrue};
ghost use Rattle.um_machine.specs.Order.{steps_of};
ghost use Rattle.um_steps.specs.Subjects.{is_on_domain};

use crate::domains::part_named;
use crate::order::calls::privileged;
use crate::order::operands::{number_of, thread_of_addr, value_of};
use crate::order::steps::{ANSWER, needs};
use um_base::{Image, Instr, Kind, Want};
use um_machine::{Pending, Thread};

/// A thread goes on with the steps of a call on a memory domain.
pub fn begins(image: &Image, me: &mut Thread, instr: &Instr)
    requires { IsTrue (is_on_domain instr.now) }
    ensures { (t : ℕ) → me.new ≡ record me.old { pending = steps_of image.now t me.old instr.now } }
{
    match instr {
        Instr::DomainInit { domain, parts } => {
            let domain = number_of(domain);
            let parts = *parts;
            privileged(me, &[Pending::DomInit { domain, parts }, ANSWER]);
        }
        Instr::DomainAdd { domain, part } => {
            let (range, attr) = part_named(image, part);
            let add = Pending::DomAdd {
                domain: number_of(domain),
                range,
                attr,
            };
            privileged(me, &[add, ANSWER]);
        }
        Instr::DomainRemove { domain, part } => {
            let (range, attr) = part_named(image, part);
            let remove = Pending::DomRemove {
                domain: number_of(domain),
                range,
                attr,
            };
            privileged(me, &[remove, ANSWER]);
        }
        Instr::DomainMove { domain, thread } => {
            let a = value_of(&me.registers, thread);
            let moves = Pending::DomMove {
                domain: number_of(domain),
                who: thread_of_addr(image, a),
            };
            privileged(me, &[needs(a, Kind::Thread, Want::Init), moves, ANSWER]);
        }
        _ => unreachable!(),
    }
}
