//! Dumps, texts and summaries of states that agree.

ghost use Rattle.std.specs.Prelude.{◌≡◌, List};
ghost use Rattle.um_base.specs.declared.{act.Event.{Event}, image.Image.{Image}};
ghost use Rattle.um_machine.specs.State.{State};
ghost use Rattle.um_closing.specs.Agreement.{AgreeInDump};
ghost use Rattle.um_trace.specs.{Dump.{dump}, Summary.{summary_text}, Text.{text}};

/// The law over two states that agree in all that a dump reads: they are printed alike.
///
/// - `dumps`: they have the same dump.
/// - `texts`: so they have the same text, behind the same events.
/// - `summaries`: and the same summary.
pub fn one_dump()
    ensures dumps { (image : Image) (s s2 : State) → AgreeInDump image s s2 → dump image s ≡ dump image s2 }
    ensures texts { (image : Image) (events : List Event) (s s2 : State) → AgreeInDump image s s2
        → text image events s ≡ text image events s2 }
    ensures summaries { (image : Image) (events : List Event) (s s2 : State) → AgreeInDump image s s2
        → summary_text image events s ≡ summary_text image events s2 }
{}
