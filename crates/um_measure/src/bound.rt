//! How long runs are.

ghost use Rattle.um_machine.specs.{State.{State}, Run.{IsRun, Step, opening, ChoosesDue, RunsDue}};
ghost use Rattle.um_base.specs.{
  declared.act.Event.{Event},
  declared.image.Image.{Image},
  declared.limits.TheConstants.{STATIC_ROWS},
  Lawful.{IsLawful},
  Weight.{weight},
};
ghost use Rattle.um_measure.specs.{Measure.{measure}, Reached.{IsReached}};
ghost use Rattle.std.specs.Prelude.{List, length, ◌+◌, ◌<◌, ◌≤◌};

/// The measure of a state falls with each step, and is at most the weight of the image at the opening.
///
/// - A lawful image, whose objects have a row each, opens in a state that a run may reach, with a measure of at most
///   the image's weight.
/// - A step leads from such a state to another.
/// - It lowers the measure. An inheritance does so where it chooses a row that is due.
pub fn every_step()
    ensures opens { (image : Image) → IsLawful image → length image.objects ≤ STATIC_ROWS → IsReached (opening image) × (measure (opening image) ≤ weight image) }
    ensures keeps { (s s2 : State) (event : Event) → IsReached s → Step s event s2 → IsReached s2 }
    ensures falls { (s s2 : State) (event : Event) → IsReached s → (made : Step s event s2) → ChoosesDue s event.thread.0 made.step made.row → measure s2 < measure s }
{}

/// No run of a lawful image arms more deadlines than the weight of the image, also one in which an inheritance is of a row that isn't due.
pub fn every_deadline()
    ensures { (image : Image) (events : List Event) (s : State) → IsLawful image → length image.objects ≤ STATIC_ROWS → IsRun image events s → length s.armed ≤ weight image }
{}

/// No run of a lawful image in which each inheritance is of a row that is due has more events than the weight of the
/// image: what has come and what is left make up the weight at most.
pub fn every_run()
    ensures { (image : Image) (events : List Event) (s : State) → IsLawful image → length image.objects ≤ STATIC_ROWS → RunsDue (opening image) events s → length events + measure s ≤ weight image }
{}
