//! What is written follows from the words and the input.

ghost use Rattle.std.specs.Prelude.{◌≡◌, ℕ, IsTrue, List, Option, Some};
ghost use Rattle.um_command.specs.declared.{command.Command.{Command}, command.Options.{Options}};
ghost use Rattle.um_app.specs.{Inputs.{has_one_answer}, Top.{Answers}};

/// The law over what commands write for what their source holds.
///
/// - `one`: every command but `run` on several processors writes one text: run again, it gives the same bytes.
/// - `pick`: on one processor `sim` writes the same text whatever the pick.
/// - `thread`: that is the text which `run` writes on one processor.
pub fn one_answer()
    ensures one { (command : Command) (source written other : List ℕ) (left left2 : Option (List ℕ))
        → IsTrue (has_one_answer command)
        → Answers command (Some source) left written → Answers command (Some source) left2 other
        → written ≡ other }
    ensures pick { (options options2 : Options) (source written other : List ℕ) (left left2 : Option (List ℕ))
        → options.cpus ≡ 1 → options2.cpus ≡ 1
        → Answers (Command.Sim options) (Some source) left written
        → Answers (Command.Sim options2) (Some source) left2 other → written ≡ other }
    ensures thread { (options : Options) (source written other : List ℕ) (left left2 : Option (List ℕ))
        → options.cpus ≡ 1 → Answers (Command.Sim options) (Some source) left written
        → Answers (Command.Run 1) (Some source) left2 other → written ≡ other }
{}
