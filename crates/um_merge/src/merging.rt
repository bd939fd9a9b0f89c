//! The merge of logs.

ghost use Rattle.std.specs.Prelude.{◌≡◌, ℕ, ◌<◌, ◌≤◌, List, [], length, ◌↔◌, IsTrue, IfSome, IfNone};
ghost use Rattle.um_merge.specs.{
  Merged.{AreAtSites, ArePlaced, HaveOrder, IsNext, IsNextIn, IsOrder, SameOrder},
  declared.logged.Logged.{Logged},
};

use crate::log::Log;
use crate::logged::{PROCESSORS, SITES};

/// Whether the step at a place of a log has the next number of its site.
fn is_next(log: &Log, place: usize, done: &[u32; SITES]) -> bool
    requires { ArePlaced log.now.items }
    ensures { IsTrue result ↔ IsNextIn log.now.items place done.now }
{
    if place >= log.len() {
        return false;
    }
    let (site, number) = log.place(place);
    let seen = done[site as usize];
    seen < number && number - seen == 1
}

/// Finds a processor whose next step has the next number of its site.
fn next_of(logs: &[Log], places: &[usize; PROCESSORS], done: &[u32; SITES]) -> Option<usize>
    requires few { length logs.now ≤ 8 }
    requires sites { AreAtSites logs.now }
    ensures found { IfSome result (λ cpu. (cpu < length logs.now) × IsNext logs.now places.now done.now cpu) }
    ensures none { IfNone result ((cpu : ℕ) → cpu < length logs.now → IsNext logs.now places.now done.now cpu → ⊥) }
{
    for cpu in 0..logs.len() {
        if is_next(&logs[cpu], places[cpu], done) {
            return Some(cpu);
        }
    }
    None
}

/// Writes into `room` one list of all the steps, in which each processor's and each site's steps keep their order.
/// `logs` are those of the processors 0, 1, .., at most 8. The caller shows that there is such a list, in which each site's steps are
/// numbered from 1 without a gap; `room` is empty and has room for it. For each step the processors are tried in turn. No memory is taken.
pub fn merge(logs: &[Log], room: &mut Log)
    requires few { length logs.now ≤ 8 }
    requires sites { AreAtSites logs.now }
    requires fits { HaveOrder logs.now room.old.room }
    requires empty { room.old.items ≡ [] }
    ensures { (order : List Logged) → IsOrder logs.now order → SameOrder room.new.items order }
{
    let mut places = [0usize; PROCESSORS];
    let mut shown = [0usize; PROCESSORS];
    let mut done = [0u32; SITES];
    'steps: while let Some(cpu) = next_of(logs, &places, &done) {
        let place = places[cpu];
        let log = &logs[cpu];
        let (site, number) = log.place(place);
        shown[cpu] = room.copy(log, place, shown[cpu]);
        places[cpu] = place + 1;
        done[site as usize] = number;
    }
}

/// One list of all the steps of the logs of the processors 0, 1, .., at most 8, in which each processor's and each site's steps keep their
/// order: a single log as it is, several ones merged into `room`. The caller shows what `merge` asks for.
pub fn merged(logs: Vec<Log>, room: Log) -> Log
    requires few { length logs.items ≤ 8 }
    requires sites { AreAtSites logs.items }
    requires fits { HaveOrder logs.items room.room }
    requires empty { room.items ≡ [] }
    ensures { (order : List Logged) → IsOrder logs.items order → SameOrder result.items order }
{
    let mut logs = logs;
    let mut room = room;
    if logs.len() == 1 {
        match logs.pop() {
            Some(log) => return log,
            None => unreachable!(),
        }
    }
    merge(&logs, &mut room);
    room
}
