//! The laws over every board on which processors play, and have played.

ghost use Rattle.std.specs.Prelude.{◌≡◌, ℕ, ◌<◌, ◌≤◌, List, Option, length, map};
ghost use Rattle.um_base.specs.{
  Weight.{weight},
  declared.limits.TheConstants.{ROWS},
  declared.image.Image.{Image},
};
ghost use Rattle.um_machine.specs.{Run.{Runs, opening}, State.{State}};
ghost use Rattle.um_words.specs.History.{by_seat};
ghost use Rattle.um_invariants.specs.Described.{IsDescribed};
ghost use Rattle.um_fine.specs.{Erasure.{shown}, FineRun.{IsFineRun}, Steps.{FineStep}};
ghost use Rattle.um_fine.specs.FineRun as fine_run;
ghost use Rattle.um_merge.specs.{
  Logs.{Log, events_of},
  Merged.{HaveOrder, IsOrder, SameOrder},
  declared.logged.Logged.{Logged},
};
ghost use Rattle.um_site.specs.declared.view.View.{View};
ghost use Rattle.um_board.specs.{
  Contents.{Known},
  NextSteps.{seat_name},
  Noted.{logged_of},
  ReadBack.{fine_at},
};
ghost use Rattle.um_refinement.specs.{
  After.{left_by},
  Relation.{Rel},
  Room.{CanRun},
  Shows.{AreCompleteRun, AreRun},
};
ghost use Rattle.um_core.specs.PickedRun.{IsOver};
ghost use Rattle.um_history.specs.{
  Fine.{IsFineOf},
  LastHolder.{AreHeld, HasLastHolder},
  Left.{AreLeft},
  Played.{IsMoment, IsPlayed, SawQuiet},
};

use um_fine_measure::longest_fine_run;
use um_refinement::every_fine_run;

/// The law over the rows of every fine run of an image that a description gives, in whatever order of processors. The word of a row counts
/// exactly the claims that calls, lives and creators have still to end. A row in cleaning belongs to one processor: the one that made the
/// step which moved it there. Only that one may vacate it.
pub fn last_holder()
    ensures claims { (image : Image) (cpus : ℕ) (g : List FineStep) → IsDescribed image
        → IsFineRun image cpus g
        → (last : State) × Runs (opening image) (shown g) last × AreHeld image cpus g last }
    ensures cleaner { (image : Image) (cpus : ℕ) (g : List FineStep) → IsDescribed image
        → IsFineRun image cpus g
        → (x : ℕ) → x < ROWS → HasLastHolder image cpus g x }
{
    every_fine_run();
}

/// The law over every board of an image that a description gives, at every moment, if the board's rule lets each seat make only its
/// processor's next steps. Its history is one fine run of at most eight processors: its steps are those in the lists of the first eight
/// seats, and it has left the words. It has no more steps than the image's weight. Its events are a run of the access-matrix machine, to
/// whose last state it is related. Each claim that the word of a row counts has one holder. A row in cleaning belongs to one seat, whose
/// list has the step that moved it there, and only that seat may vacate it.
pub fn every_board()
    ensures { (image : Image) (v : View) (i w : ℕ) → IsDescribed image → CanRun image 8
        → (m : IsMoment image v i w) → (g : List FineStep)
        × IsFineOf image 8 m.moment.words (λ k. map (fine_at k) (by_seat (seat_name k) m.moment.history)) g
        × (length g ≤ weight image) × (last : State) × Runs (opening image) (shown g) last
        × Rel (left_by image 8 g) last
        × AreHeld image 8 g last × ((x : ℕ) → x < ROWS → HasLastHolder image 8 g x) }
{
    every_fine_run();
    longest_fine_run();
    last_holder();
}

/// The law over every closed board of an image that a description gives, on which one to eight processors have played, each at a seat of its own. The
/// image has no more domains than there are words for.
///
/// - The board's history is one fine run that has the steps of each processor in their order, and no others.
/// - The logs have an order, of no more steps than the image's weight.
/// - Take a list of steps that orders each processor's and each site's steps as every order of the logs does. It is what the logs note of a
///   fine run of these processors' steps, which leaves each site as the board has it, and the run's events are a run of the access-matrix
///   machine.
/// - A list of steps in the order of a fine run, by processors and by sites, is one itself, of whatever image and processors.
/// - If each processor saw after its last step that no thread is ready or runs, and that no mark is owed, then none can make another step: each
///   fine run of their steps is over, and the events of such a list are a complete run.
pub fn every_played_board()
    ensures fine { (image : Image) (cpus : ℕ) (v : View) (words : List ℕ) (slots : List (Option Known))
        (logs : List Log) (steps : ℕ → List FineStep) → IsDescribed image → CanRun image cpus
        → IsPlayed image cpus v words slots logs steps → (g : List FineStep) × IsFineOf image cpus words steps g }
    ensures order { (image : Image) (cpus : ℕ) (v : View) (words : List ℕ) (slots : List (Option Known))
        (logs : List Log) (steps : ℕ → List FineStep) → IsDescribed image → CanRun image cpus
        → IsPlayed image cpus v words slots logs steps → HaveOrder logs (weight image) }
    ensures run { (image : Image) (cpus : ℕ) (v : View) (words : List ℕ) (slots : List (Option Known))
        (logs : List Log) (steps : ℕ → List FineStep) → IsDescribed image → CanRun image cpus
        → IsPlayed image cpus v words slots logs steps → (list : List Logged)
        → ((order : List Logged) → IsOrder logs order → SameOrder list order)
        → (g : List FineStep) × (map logged_of g ≡ list) × IsFineOf image cpus words steps g
        × AreRun image (events_of list) × AreLeft image words slots g }
    ensures same { (image : Image) (cpus : ℕ) (g h : List FineStep) → fine_run.SameOrder g h
        → IsFineRun image cpus g → IsFineRun image cpus h }
    ensures over { (image : Image) (cpus : ℕ) (v : View) (words : List ℕ) (slots : List (Option Known))
        (logs : List Log) (steps : ℕ → List FineStep) → IsDescribed image → CanRun image cpus
        → IsPlayed image cpus v words slots logs steps → ((k : ℕ) → k < cpus → SawQuiet v.got (steps k))
        → (g : List FineStep) → IsFineOf image cpus words steps g → IsOver image cpus g }
    ensures complete { (image : Image) (cpus : ℕ) (v : View) (words : List ℕ) (slots : List (Option Known))
        (logs : List Log) (steps : ℕ → List FineStep) → IsDescribed image → CanRun image cpus
        → IsPlayed image cpus v words slots logs steps → ((k : ℕ) → k < cpus → SawQuiet v.got (steps k))
        → (list : List Logged) → ((order : List Logged) → IsOrder logs order → SameOrder list order)
        → AreCompleteRun image (events_of list) }
{
    every_fine_run();
    longest_fine_run();
}
