//! How a thread begins a line, and goes to user mode.

ghost use Rattle.std.specs.{Prelude.{◌≡◌, ◌<◌, [], IsTrue, IfSome, Some}, Option.{option_copied}};
ghost use Rattle.um_base.specs.declared.limits.TheConstants.{THREADS};
ghost use Rattle.um_base.specs.declared.names.Mode.TheVariants as Mode;
ghost use Rattle.um_machine.specs.{
  Order.{steps_of},
  State.{first_place, instruction_at},
  Table.{at_steps, with_begin},
};
ghost use Rattle.um_steps.specs.Accesses.{is_sized};
ghost use Rattle.um_fine.specs.Continues.{begun};
ghost use Rattle.um_steps.specs.Given.{IsGiven};

use crate::context::Context;
use um_base::{Image, Instr, Mode};
use um_machine::Thread;
use um_machine::places::{first_place, instruction_at};
use um_steps::order;
use um_steps::registers::put_begin;

/// Has the thread of this index begin an instruction.
fn begin(image: &Image, t: usize, me: &mut Thread, instr: &Instr)
    requires thread { t < THREADS }
    requires sized { IsTrue (is_sized instr.now) }
    ensures { me.new ≡ at_steps image.now
        (record me.old { registers = with_begin me.old.registers instr.now })
        (steps_of image.now t me.old instr.now) }
{
    order::begins(image, t, me, instr);
    put_begin(&mut me.registers, instr);
    me.rests(image);
}

impl Context {
    /// The instruction at its place. A load or store in it has at most four bytes.
    #[tactic(auto, using(um_steps::proofs::SizeLemmas::sized_instruction))]
    fn instruction<'a>(&self, image: &'a Image) -> Option<&'a Instr>
        requires { IsGiven image.now }
        ensures value { option_copied result ≡ instruction_at image.now self.now.place }
        ensures sized { IfSome (instruction_at image.now self.now.place) (λ i. IsTrue (is_sized i)) }
    {
        instruction_at(image, self.own.place)
    }

    /// Begins an instruction.
    pub fn begins(&mut self, image: &Image, instr: &Instr)
        requires { IsTrue (is_sized instr.now) }
        ensures { self.new ≡ begun image.now self.old (Some instr.now) }
    {
        begin(image, self.thread as usize, &mut self.own, instr);
    }

    /// Begins the instruction at its place, if there is one.
    pub fn begins_line(&mut self, image: &Image)
        requires { IsGiven image.now }
        ensures { self.new ≡ begun image.now self.old (instruction_at image.now self.old.place) }
    {
        if let Some(instr) = self.instruction(image) {
            self.begins(image, instr);
        }
    }

    /// Goes to user mode for good, and to the first line of a script.
    pub fn enters_user(&mut self, image: &Image, script: u8)
        ensures { self.new ≡ record self.old {
          mode = Mode.User;
          place = first_place image.now script;
          pending = [];
        } }
    {
        self.own.mode = Mode::User;
        self.own.place = first_place(image, script);
        self.own.pending.clear();
    }
}
