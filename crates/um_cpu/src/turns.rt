//! All turns of a processor.

ghost use Rattle.std.specs.Prelude.{◌≡◌};
ghost use Rattle.um_board.specs.{Placed.{IsAt}, Seated.{KeepsPlace}};
ghost use Rattle.um_cpu.specs.Playing.{CanPlay, PlaysOut};

use crate::cpu::Cpu;
use crate::turn::Turn;
use std::hint::spin_loop;
use std::sync::Wait;
use std::thread::yield_now;
use um_base::Image;
use um_io::Gate;

/// How long a pause is, in rounds of an empty loop.
const SPINS: u32 = 16;

/// After this many turns in a row without a step, a processor yields its core to another thread.
const MISSES: u32 = 64;

/// Pauses for a moment.
fn spin() {
    for _ in 0..SPINS {
        spin_loop();
    }
}

/// Pauses for a moment, and lets another thread have the core.
fn wait() {
    spin();
    yield_now();
}

/// Takes the turns of a processor, until it has no thread, none is ready, none runs, and nothing is owed. The gate can hold it before each
/// turn, by its number and the number of turns that it has taken. After a turn without a step it pauses.
pub(crate) fn turns<R: Wait, G: Gate>(rt: &R, image: &Image, cpu: &mut Cpu<'_>, gate: &G)
    requires { CanPlay image.now cpu.old }
    ensures number { cpu.new.number ≡ cpu.old.number }
    ensures place { IsAt image.now cpu.new.place }
    ensures keeps { KeepsPlace cpu.old.place.seat cpu.new.place.seat }
    ensures out { PlaysOut image.now cpu.old cpu.new }
{
    let mut turn: u64 = 0;
    let mut missed: u32 = 0;
    for _ in rt.forever() {
        gate.pause(u32::from(cpu.number), turn);
        turn = turn.saturating_add(1);
        let made = cpu.place.log.len();
        match cpu.step(image) {
            Turn::Did => {
                if cpu.place.log.len() > made {
                    missed = 0;
                } else if missed < MISSES {
                    missed += 1;
                    spin();
                } else {
                    missed = 0;
                    wait();
                }
            }
            Turn::Idle { word: _ } => wait(),
            Turn::Quiet { word: _ } => return,
        }
    }
    unreachable!()
}
