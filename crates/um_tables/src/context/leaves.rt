//! How a thread's own part goes on after its next step, and what it gives to its processor.

ghost use Rattle.std.specs.Prelude.{◌≡◌, [], drop};
ghost use Rattle.um_fine.specs.Continues.{goes_on};
ghost use Rattle.um_tables.specs.Contexts.{steps_behind};

use crate::context::Context;
use arrayvec::ArrayVec;
use um_base::Image;

impl Context {
    /// Goes on after the next step. `visited` says whether visits stood before it.
    #[tactic(auto, using(crate::proofs::Fronts::dropped_twice))]
    pub fn leaves_step(&mut self, image: &Image, visited: bool)
        ensures { self.new ≡ goes_on image.now self.old (drop 1 (steps_behind visited self.old.pending)) }
    {
        if visited {
            self.own.goes_on(image, 2);
            return;
        }
        self.own.goes_on(image, 1);
    }

    /// Gives away the rows that its call holds, and keeps none.
    pub fn gives_claims(&mut self, claims: &mut ArrayVec<u8, 2>)
        requires { claims.old.items ≡ [] }
        ensures claims { claims.new.items ≡ self.old.claims }
        ensures none { self.new ≡ record self.old { claims = [] } }
    {
        std::mem::swap(claims, &mut self.claims);
    }
}
