//! The weight of an image.

ghost use Rattle.std.specs.Prelude.{◌≡◌, ◌+◌, ◌*◌, ◌≤◌, ◌<◌, ℕ, List, length, slice_index};
ghost use Rattle.um_base.specs.Weight.{weight_named, line_cost, turns_after, lines_cost, boots_weight, weight};
ghost use Rattle.um_description.specs.Weights.{counted, AreCounted, StandFrom};

use um_base::{Boot, Image, Instr, Ref, SCRIPTS, Script};

/// The weight of the script that a line of the i-th script names.
fn weight_named(weights: &[u64; SCRIPTS], i: usize, script: &Ref) -> u64
    requires { i < SCRIPTS }
    ensures { (later : List ℕ) → AreCounted weights.now (i + 1) later → result ≡ counted (weight_named later i script.now) }
{
    match script {
        Ref::Named(_) => 0,
        Ref::At(c) => {
            let c = (*c as usize).max(i + 1);
            if c < SCRIPTS { weights[c] } else { 0 }
        }
    }
}

/// What a line of the i-th script costs.
fn line_cost(weights: &[u64; SCRIPTS], i: usize, line: &Instr) -> u64
    requires { i < SCRIPTS }
    ensures { (later : List ℕ) → AreCounted weights.now (i + 1) later → result ≡ counted (line_cost later i line.now) }
{
    match line {
        Instr::Repeat { .. } | Instr::End => 0,
        Instr::Set { .. } | Instr::Add { .. } => 4,
        Instr::Load { .. } | Instr::Store { .. } | Instr::Exec { .. } => 12,
        Instr::ObjectAlloc { .. } => 240,
        Instr::Create { script, .. } => weight_named(weights, i, script).saturating_add(240),
        Instr::UserMode { script } => weight_named(weights, i, script).saturating_add(40),
        Instr::TimerStart { .. }
        | Instr::TimerStop { .. }
        | Instr::TimerStatus { .. }
        | Instr::TimerSync { .. }
        | Instr::Abort { .. }
        | Instr::Join { .. }
        | Instr::Suspend { .. }
        | Instr::Continue { .. }
        | Instr::FutexWait { .. }
        | Instr::FutexWake { .. } => 80,
        _ => 40,
    }
}

/// How often the lines behind this one are made.
fn turns_after(turns: u64, line: &Instr) -> u64
    ensures { result ≡ turns_after turns line.now }
{
    match line {
        Instr::Repeat { times } => *times as u64,
        Instr::End => 1,
        _ => turns,
    }
}

/// What the lines of the i-th script cost.
fn lines_cost(weights: &[u64; SCRIPTS], i: usize, lines: &[Instr]) -> u64
    requires { i < SCRIPTS }
    ensures { (later : List ℕ) → AreCounted weights.now (i + 1) later → result ≡ counted (lines_cost later i 1 lines.now) }
{
    let mut sum: u64 = 0;
    let mut turns: u64 = 1;
    for line in lines {
        sum = sum.saturating_add(turns.saturating_mul(line_cost(weights, i, line)));
        turns = turns_after(turns, line);
    }
    sum
}

/// The weight of the i-th script.
fn script_weight(weights: &[u64; SCRIPTS], i: usize, script: &Script) -> u64
    requires { i < SCRIPTS }
    ensures { (later : List ℕ) → AreCounted weights.now (i + 1) later → result ≡ counted (240 + lines_cost later i 1 script.now.lines) }
{
    lines_cost(weights, i, script.lines.as_slice()).saturating_add(240)
}

/// Weighs the scripts from the i-th on, the last one first.
fn weigh(weights: &mut [u64; SCRIPTS], i: usize, scripts: &[Script])
    requires few { i + length scripts.now ≤ SCRIPTS }
    requires blank { (k : ℕ) → slice_index weights.old k ≡ 0 }
    ensures { StandFrom weights.new i scripts.now }
{
    match scripts {
        [] => {}
        [script, rest @ ..] => {
            weigh(weights, i + 1, rest);
            weights[i] = script_weight(weights, i, script);
        }
    }
}

/// The sum of the weights of the boot entries' scripts.
fn boots_weight(weights: &[u64; SCRIPTS], boots: &[Boot]) -> u64
    ensures { (all : List ℕ) → AreCounted weights.now 0 all → result ≡ counted (boots_weight all boots.now) }
{
    let mut sum: u64 = 0;
    for boot in boots {
        let script = boot.script as usize;
        sum = sum.saturating_add(if script < SCRIPTS { weights[script] } else { 0 });
    }
    sum
}

/// The weight of an image, which stands still at the greatest number: no run from it makes more steps.
pub fn weight(image: &Image) -> u64
    ensures { result ≡ counted (weight image.now) }
{
    let mut weights = [0; SCRIPTS];
    weigh(&mut weights, 0, image.scripts.as_slice());
    boots_weight(&weights, image.boots.as_slice())
}
