//! How a thread begins a line.

ghost use Rattle.std.specs.Prelude.{◌≡◌, ◌+◌, [], false, true, is_some, MatchOption};
ghost use Rattle.um_machine.specs.State.{instruction_at};
ghost use Rattle.um_steps.specs.Given.{IsGiven};
ghost use Rattle.um_processor.specs.{Processors.{in_phase}, Turns.{CanTurn, HasEnded}};

use crate::phase::{Phase, Turn};
use crate::running::Running;
use crate::turns::made;
use arrayvec::ArrayVec;
use um_base::Image;
use um_machine::Place;
use um_machine::places::instruction_at;
use um_tables::{Here, Sites};
use um_words::ThreadAct;

/// The number of the line at a place, from 1 on, if one stands there.
fn line_number(image: &Image, place: Place) -> Option<u16>
    ensures { MatchOption result
        (is_some (instruction_at image.now place) ≡ false)
        (λ number. (is_some (instruction_at image.now place) ≡ true) × (number ≡ place.line + 1)) }
{
    match instruction_at(image, place) {
        Some(_) => Some(place.line + 1),
        None => None,
    }
}

impl Running {
    /// Has the thread begin its line, unless it is stopped: a doomed thread stops running, one that was aborted is killed, so that the claims
    /// of its call are to end, and one that is suspended goes to sleep.
    pub fn begin<S: Sites>(
        &mut self,
        here: &Here,
        ends: &mut ArrayVec<u8, 2>,
        sites: &mut S,
    ) -> Turn
        requires given { IsGiven here.now.image.now }
        requires none { ends.old.items ≡ [] }
        requires goes { CanTurn S.Sites here.now sites.old (in_phase Phase.Begin self.old) }
        ensures ends { HasEnded S.Sites result here.now sites.old sites.new
            (in_phase Phase.Begin self.old) self.old self.new ends.old.items ends.new.items }
    {
        let place = self.context.place();
        let line = match line_number(here.image, place) {
            None => return Turn::Stuck,
            Some(line) => line,
        };
        let script = place.script;
        let thread = self.thread();
        let act = ThreadAct::Begin {
            thread,
            script,
            line,
        };
        let word = made!(sites.thread(here, thread, &act));
        if self.rests(&word) {
            return Turn::Made;
        }
        self.actor = Some(thread.0);
        if word.aborted {
            self.context.gives_claims(ends);
            self.context.exits(here.image);
        } else {
            self.context.begins_line(here.image);
        }
        self.expands(here.image);
        Turn::Made
    }
}
