//! What a thread does with its seat, and many threads at once.

ghost use Rattle.std.specs.Prelude.{◌≡◌, ◌<◌, ◌≤◌, []};
ghost use Rattle.um_seated.specs.Seats.{ComesBack, IsSameKin, Remains};
ghost use denote.Param.Send.{IsSync};

use crate::play::play;
use crate::seated::Seated;
use crate::tally::Tally;
use std::thread::{Threads, join};
use um_base::{Row, ThreadIx};
use um_site::{Board, Seat};
use um_thread::{Outcome, ThreadCall};
use um_words::AnyStep;

/// How often a step is tried at most.
const MOST_TRIES: u32 = 1_000_000_000;

/// What a thread is to do.
#[derive(Clone, Copy)]
pub enum Job {
    /// Steps of many kinds on the first row.
    Play { steps: u32 },
    /// Recorded reads of a thread's word: one for each thread, or the same for all.
    Read { own: bool, times: u32 },
}

/// This many recorded reads of a thread's word.
fn reads(at: &mut Seated<'_>, who: ThreadIx, times: u32) -> Tally
    requires here { at.old.seat.token.table_id ≡ at.old.board.now.table.shared.table_id }
    requires who { who.0 < 32 }
    requires sites { 160 ≤ at.old.board.now.table.shared.table_id.words }
    ensures stays { Remains at.old at.new }
{
    let mut tally = Tally::none();
    'tries: for _ in 0..MOST_TRIES {
        if tally.steps >= times {
            break;
        }
        if let Some(Ok(Outcome::Recorded { .. })) = at.thread(who, who, ThreadCall::ReadWord) {
            tally.step();
        }
    }
    tally
}

/// Does the job in the caller's thread.
fn one(board: &Board<(), AnyStep>, seat: Seat<()>, job: Job, me: u8) -> (Seat<()>, Tally)
    requires here { seat.token.table_id ≡ board.now.table.shared.table_id }
    requires sites { 160 ≤ board.now.table.shared.table_id.words }
    ensures back { ComesBack 0 seat result.0 }
    ensures kin { IsSameKin seat result.0 }
{
    let mut at = Seated::new(board, seat);
    let tally = match job {
        Job::Play { steps } => play(&mut at, Row(0), ThreadIx(me % 32), steps),
        Job::Read { own, times } => {
            let who = if own { me % 4 * 8 } else { 0 };
            reads(&mut at, ThreadIx(who), times)
        }
    };
    (at.seat, tally)
}

/// Does it in two threads.
fn two<R: Threads + Sync>(
    rt: &R,
    board: &Board<(), AnyStep>,
    seat: Seat<()>,
    job: Job,
    me: u8,
) -> (Seat<()>, Tally)
    requires here { seat.token.table_id ≡ board.now.table.shared.table_id }
    requires sites { 160 ≤ board.now.table.shared.table_id.words }
    requires few { (seat.split < 1010) × (seat.joined < 1010) }
    requires slots { seat.token.me.1 ≡ [] }
    ensures back { ComesBack 1 seat result.0 }
    ensures kin { IsSameKin seat result.0 }
{
    let mut seat = seat;
    let other = board.split(&mut seat);
    let (mine, theirs) = join(
        rt,
        || -> (Seat<()>, Tally)
            requires here { seat.token.table_id ≡ board.now.table.shared.table_id }
            requires sites { 160 ≤ board.now.table.shared.table_id.words }
            ensures back { ComesBack 0 seat result.0 }
            ensures kin { IsSameKin seat result.0 }
        { one(board, seat, job, me) },
        || -> (Seat<()>, Tally)
            requires here { other.token.table_id ≡ board.now.table.shared.table_id }
            requires sites { 160 ≤ board.now.table.shared.table_id.words }
            ensures back { ComesBack 0 other result.0 }
            ensures kin { IsSameKin other result.0 }
        { one(board, other, job, me.wrapping_add(1)) },
    );
    let (mut seat, tally) = mine;
    let (other, more) = theirs;
    board.join(&mut seat, other);
    (seat, tally.and(more))
}

/// Does it in four threads.
fn four<R: Threads + Sync>(
    rt: &R,
    board: &Board<(), AnyStep>,
    seat: Seat<()>,
    job: Job,
    me: u8,
) -> (Seat<()>, Tally)
    requires here { seat.token.table_id ≡ board.now.table.shared.table_id }
    requires sites { 160 ≤ board.now.table.shared.table_id.words }
    requires few { (seat.split < 1005) × (seat.joined < 1005) }
    requires slots { seat.token.me.1 ≡ [] }
    ensures back { ComesBack 3 seat result.0 }
    ensures kin { IsSameKin seat result.0 }
{
    let mut seat = seat;
    let other = board.split(&mut seat);
    let (mine, theirs) = join(
        rt,
        || -> (Seat<()>, Tally)
            requires here { seat.token.table_id ≡ board.now.table.shared.table_id }
            requires sites { 160 ≤ board.now.table.shared.table_id.words }
            requires few { (seat.split < 1010) × (seat.joined < 1010) }
            requires slots { seat.token.me.1 ≡ [] }
            requires sync { IsSync R.row }
            ensures back { ComesBack 1 seat result.0 }
            ensures kin { IsSameKin seat result.0 }
        { two(rt, board, seat, job, me) },
        || -> (Seat<()>, Tally)
            requires here { other.token.table_id ≡ board.now.table.shared.table_id }
            requires sites { 160 ≤ board.now.table.shared.table_id.words }
            requires few { (other.split < 1010) × (other.joined < 1010) }
            requires slots { other.token.me.1 ≡ [] }
            requires sync { IsSync R.row }
            ensures back { ComesBack 1 other result.0 }
            ensures kin { IsSameKin other result.0 }
        { two(rt, board, other, job, me.wrapping_add(2)) },
    );
    let (mut seat, tally) = mine;
    let (other, more) = theirs;
    board.join(&mut seat, other);
    (seat, tally.and(more))
}

/// Does it in eight threads.
fn eight<R: Threads + Sync>(
    rt: &R,
    board: &Board<(), AnyStep>,
    seat: Seat<()>,
    job: Job,
    me: u8,
) -> (Seat<()>, Tally)
    requires here { seat.token.table_id ≡ board.now.table.shared.table_id }
    requires sites { 160 ≤ board.now.table.shared.table_id.words }
    requires few { (seat.split < 1000) × (seat.joined < 1000) }
    requires slots { seat.token.me.1 ≡ [] }
    ensures back { ComesBack 7 seat result.0 }
    ensures kin { IsSameKin seat result.0 }
{
    let mut seat = seat;
    let other = board.split(&mut seat);
    let (mine, theirs) = join(
        rt,
        || -> (Seat<()>, Tally)
            requires here { seat.token.table_id ≡ board.now.table.shared.table_id }
            requires sites { 160 ≤ board.now.table.shared.table_id.words }
            requires few { (seat.split < 1005) × (seat.joined < 1005) }
            requires slots { seat.token.me.1 ≡ [] }
            requires sync { IsSync R.row }
            ensures back { ComesBack 3 seat result.0 }
            ensures kin { IsSameKin seat result.0 }
        { four(rt, board, seat, job, me) },
        || -> (Seat<()>, Tally)
            requires here { other.token.table_id ≡ board.now.table.shared.table_id }
            requires sites { 160 ≤ board.now.table.shared.table_id.words }
            requires few { (other.split < 1005) × (other.joined < 1005) }
            requires slots { other.token.me.1 ≡ [] }
            requires sync { IsSync R.row }
            ensures back { ComesBack 3 other result.0 }
            ensures kin { IsSameKin other result.0 }
        { four(rt, board, other, job, me.wrapping_add(4)) },
    );
    let (mut seat, tally) = mine;
    let (other, more) = theirs;
    board.join(&mut seat, other);
    (seat, tally.and(more))
}

/// Does the job in this many threads: 1, 2, 4 or 8.
pub fn work_by<R: Threads + Sync>(
    rt: &R,
    board: &Board<(), AnyStep>,
    seat: Seat<()>,
    job: Job,
    threads: u8,
) -> (Seat<()>, Tally)
    requires here { seat.token.table_id ≡ board.now.table.shared.table_id }
    requires sites { 160 ≤ board.now.table.shared.table_id.words }
    requires few { (seat.split < 1000) × (seat.joined < 1000) }
    requires slots { seat.token.me.1 ≡ [] }
    ensures here { result.0.token.table_id ≡ seat.token.table_id }
{
    match threads {
        1 => one(board, seat, job, 0),
        2 => two(rt, board, seat, job, 0),
        4 => four(rt, board, seat, job, 0),
        _ => eight(rt, board, seat, job, 0),
    }
}
