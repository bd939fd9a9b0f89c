//! The laws over every run.

ghost use Rattle.um_machine.specs.{State.{State}, Run.{IsRun, Step}};
ghost use Rattle.um_base.specs.declared.{
  act.Event.{Event},
  image.Image.{Image},
  names.Kind.{Kind},
  names.ThreadIx.{ThreadIx},
  names.Want.{Want},
  act.Act.{Act},
  names.Addr.{Addr},
};
ghost use Rattle.std.specs.Prelude.{◌≡◌, ℕ, true, List, [], ◌∷◌, ◌++◌, Option, None};
ghost use Rattle.um_laws.specs.{
  Laws.{WasAllowed, IsVerdict, IsUnheld, IsOfItsCreator},
  Deadlines.{is_in_time, is_without_start, HasTickTo, Watches},
  Obeys.{ObeysLaws},
  Origins.{IsOwned},
  Holds.{IsInCall},
  Service.{IsInOrderOfService},
  Lives.{born, gone, recycled, marks, InTurns, IsWithoutBirth, WasBornAndGone},
};
ghost use Rattle.um_invariants.specs.Described.{IsDescribed};

/// The laws that each event of every run of an image obeys, from its opening on. The laws of origins, lives, holds, deadlines and aborts are
/// about images that a description gives, the others about any image.
///
/// - A load, a store, a fetch, and a copy that succeeds was allowed in the state in which it stands, and each byte of
///   a string that was read, its zero too, was readable there by itself. A call on a futex that isn't refused for it
///   was allowed to read the number there.
/// - What a check says is the verdict of the state in which it stands.
/// - Where a user's check of an object that isn't public is passed, its pair with the object came from a boot entry, or
///   from a grant, an inheritance, its creation (for its own object), or a birth before it, and no drop of that pair
///   came since.
/// - The object at an address is born, loses its last pair and is recycled, again and again in this order. So between two successive births
///   it loses its last pair once and is then recycled once, and before it is recycled it was born and lost its last pair.
/// - Between a check that is passed and the thread's reply, fatal error, end or kill the object isn't recycled.
/// - An object that is recycled is gone there, and no thread holds it.
/// - What a new thread inherits is a permission that its creator has there, and not the one on the creator's own object.
/// - Those whom an act wakes are the first of those who wait there and are served by it: by priority, the least number
///   first, and among equals as they began to wait.
/// - Between the arming of a deadline and the timeout of the same call time comes to that deadline.
/// - Behind an abort that says ok its thread begins no line before its next start.
/// - Who waits on a futex found the number there that it expected, and waits from that event on.
///
/// So each run of an image that a description gives obeys all of them (`obeys`).
pub fn every_run()
    ensures accesses { (image : Image) (before : List Event) (event : Event) (s s2 : State)
        → IsRun image before s → Step s event s2 → WasAllowed s event }
    ensures verdicts { (image : Image) (before : List Event) (event : Event) (s s2 : State)
        → IsRun image before s → Step s event s2 → IsVerdict s event }
    ensures origins { (image : Image) (before : List Event) (event : Event) (s s2 : State)
        → IsDescribed image → IsRun image before s → Step s event s2 → IsOwned image before s event }
    ensures turns { (image : Image) (events : List Event) (s : State) → IsDescribed image
        → IsRun image events s → (a : ℕ) → InTurns born (marks a events) }
    ensures lives { (image : Image) (before middle : List Event) (birth rebirth : Event) (a : Addr)
        (s s2 : State) → IsDescribed image → IsRun image (before ++ birth ∷ middle) s → Step s rebirth s2
        → birth.act ≡ Act.Born a → rebirth.act ≡ Act.Born a → IsWithoutBirth a middle
        → marks a.0 middle ≡ gone ∷ recycled ∷ [] }
    ensures ends { (image : Image) (before : List Event) (event : Event) (a : Addr) (s s2 : State)
        → IsDescribed image → IsRun image before s → Step s event s2 → event.act ≡ Act.Recycle a
        → WasBornAndGone (marks a.0 before) }
    ensures holds { (image : Image) (before middle : List Event) (check recycle : Event) (a : Addr)
        (kind : Option Kind) (want : Want) (s s2 : State) → IsDescribed image
        → IsRun image (before ++ check ∷ middle) s → Step s recycle s2
        → check.act ≡ Act.Check a kind want None → IsInCall check.thread.0 middle
        → ¬ (recycle.act ≡ Act.Recycle a) }
    ensures recycles { (image : Image) (before : List Event) (event : Event) (s s2 : State)
        → IsRun image before s → Step s event s2 → IsUnheld s event }
    ensures inheritances { (image : Image) (before : List Event) (event : Event) (s s2 : State)
        → IsRun image before s → Step s event s2 → IsOfItsCreator s event }
    ensures service { (image : Image) (before : List Event) (event : Event) (s s2 : State)
        → IsRun image before s → Step s event s2 → IsInOrderOfService s event }
    ensures deadlines { (image : Image) (before middle : List Event) (arm late : Event) (d : ℕ)
        (who : ThreadIx) (s s2 : State) → IsDescribed image → IsRun image (before ++ arm ∷ middle) s
        → Step s late s2 → arm.act ≡ Act.Arm d → late.act ≡ Act.TimedOut who → arm.thread ≡ who
        → is_in_time who.0 middle ≡ true → HasTickTo d middle }
    ensures aborts { (image : Image) (before middle : List Event) (abort begin : Event) (who : ThreadIx)
        (script line : ℕ) (s s2 : State) → IsDescribed image → IsRun image (before ++ abort ∷ middle) s
        → Step s begin s2 → abort.act ≡ Act.Abort who true → begin.thread ≡ who
        → is_without_start who.0 middle ≡ true → ¬ (begin.act ≡ Act.Begin script line) }
    ensures watches { (image : Image) (before : List Event) (event : Event) (s s2 : State)
        → IsRun image before s → Step s event s2 → Watches s event.thread.0 event.act s2 }
    ensures obeys { (image : Image) (events : List Event) (s : State) → IsDescribed image
        → IsRun image events s → ObeysLaws image events }
{}
