//! The calls on a board by worked rows, and many threads at one row.

ghost use Rattle.std.specs.Prelude.{◌≡◌, ◌<◌, ◌≤◌, [], IfOk};
ghost use Rattle.um_seated.specs.Seats.{OnDomain, OnRow, OnThread, Remains};

use std::alloc::Global;
use std::mem::size_of;
use um_base::{
    Act, Addr, Attr, Cause, Errno, Given, Kind, Mode, OutOfMemory, Range, Reply, Row, ThreadIx,
    Want,
};
use um_perm::{Answer, Dropped, Passed, RowCall, Set};
use um_seated::{Job, LAST, OBJECT, Seated, Tally, board_of, last_word, words_with, worked};
use um_site::{Asked, Board, Changed, Seat, StillOut, domain_site};
use um_thread::{DomainCall, Outcome, ThreadCall, call_domain};
use um_verify::Checked;
use um_words::{AnyStep, DomWord, RowWord, Stage, ThreadWord};

/// The words of a board without cells.
const WORDS: u16 = 168;

const ROW: Row = Row(0);

const FIRST: ThreadIx = ThreadIx(0);

const SECOND: ThreadIx = ThreadIx(1);

/// Why there is no board.
#[derive(Debug, Drop)]
enum NoBoard {
    Memory(OutOfMemory),
    /// None opens with these words.
    Words,
}

impl From<OutOfMemory> for NoBoard {
    fn from(e: OutOfMemory) -> NoBoard {
        NoBoard::Memory(e)
    }
}

/// The board of this many words, one of which is this one at its site, with its first seat.
fn board_with(
    alloc: Global,
    count: u16,
    site: u16,
    word: u64,
) -> Result<(Board<(), AnyStep>, Seat<()>), NoBoard>
    ensures same { IfOk result (λ b. b.1.token.table_id ≡ b.0.table.shared.table_id) }
    ensures sites { IfOk result (λ b. count ≤ b.0.table.shared.table_id.words) }
    ensures first { IfOk result (λ b. (b.1.split ≡ 0) × (b.1.joined ≡ 0) × (b.1.token.me.1 ≡ [])) }
{
    let words = words_with(alloc, count, site, word)?;
    if words.len() < usize::from(count) {
        return Err(NoBoard::Words);
    }
    match board_of(alloc, words)? {
        Some(board) => Ok(board),
        None => Err(NoBoard::Words),
    }
}

/// A seat at a board of this many words, one of which is this one at its site.
macro_rules! seated {
    ($rt:ident, $at:ident, $count:expr, $site:expr, $word:expr) => {
        let (board, seat) = board_with($rt.alloc(), $count, $site, $word)?;
        let mut $at = Seated::new(&board, seat);
    };
}

/// Whether this word stands at the site.
fn stands(at: &mut Seated<'_>, site: u16, word: u64) -> bool
    requires here { at.old.seat.token.table_id ≡ at.old.board.now.table.shared.table_id }
    requires site { site < at.old.board.now.table.shared.table_id.words }
    ensures stays { Remains at.old at.new }
{
    at.board.look(&mut at.seat, site) == word
}

/// Whether a call on the row, other than the end of a cleaning, has this answer.
fn answers(at: &mut Seated<'_>, by: ThreadIx, call: RowCall, answer: Answer) -> bool
    requires on { OnRow at.old 0 }
    ensures stays { Remains at.old at.new }
{
    match call {
        RowCall::Vacate => false,
        _ => at.row(ROW, by, call) == Some(Ok(answer)),
    }
}

/// A check that holds the object, and one that is refused.
#[test]
fn a_check_holds_or_is_refused(rt: HostRuntime) -> Result<(), NoBoard> {
    let (board, seat) = board_with(rt.alloc(), 1, 0, 0x0000_0009_0000_0001)?;
    let mut at = Seated::new(&board, seat);
    let refused = at.check(ROW, SECOND, Want::Uninit);
    assert!(rt; refused == Some(Ok(Checked::Refused(Errno::EPERM))));
    assert!(rt; stands(&mut at, 0, 0x0000_1009_0000_0001));
    let held = at.check(ROW, FIRST, Want::Init);
    assert!(rt; held == Some(Ok(Checked::Held)));
    let seat = at.seat;
    assert!(rt; last_word(board, seat, 0) == Some(0x0000_2029_0000_0001));
    Ok(())
}

/// A drop that is an event.
fn drop_of(who: ThreadIx) -> RowCall {
    RowCall::Drop {
        who,
        is_shown: true,
        addr: OBJECT,
    }
}

/// Whether the last permission goes, and whether the object is to be cleaned then.
fn is_gone(at: &mut Seated<'_>, clean: bool) -> bool
    requires on { OnRow at.old 0 }
    ensures stays { Remains at.old at.new }
{
    answers(
        at,
        FIRST,
        drop_of(FIRST),
        Answer::Dropped(Dropped::Gone { clean }),
    )
}

/// The last permission goes while nobody holds the object.
#[test]
fn the_last_drop_cleans_at_once(rt: HostRuntime) -> Result<(), NoBoard> {
    seated!(rt, at, 1, 0, 0x0000_000c_0000_0001);
    assert!(rt; is_gone(&mut at, true));
    assert!(rt; stands(&mut at, 0, 0x0000_101c_0000_0000));
    Ok(())
}

/// From a last drop under a hold to the next birth.
#[test]
fn an_object_dies_and_is_born_again(rt: HostRuntime) -> Result<(), NoBoard> {
    seated!(rt, at, 1, 0, 0x0000_002c_0000_0001);
    let addr = OBJECT;
    assert!(rt; is_gone(&mut at, false));
    assert!(rt; stands(&mut at, 0, 0x0000_1034_0000_0000));
    let late = RowCall::Grant { who: SECOND, addr };
    assert!(rt; answers(&mut at, FIRST, late, Answer::Given(Given::Gone)));
    assert!(rt; stands(&mut at, 0, 0x0000_2034_0000_0000));
    let Some(Ok(true)) = at.end(ROW) else {
        assert!(rt; false, "the last claim");
        return Ok(());
    };
    let vacated = at.row(ROW, FIRST, RowCall::Vacate);
    assert!(rt; vacated == Some(Ok(Answer::Done)));
    assert!(rt; stands(&mut at, 0, 0x0000_4000_0000_0000));
    assert!(rt; answers(&mut at, SECOND, RowCall::Born { addr }, Answer::Done));
    assert!(rt; stands(&mut at, 0, 0x0000_500c_0000_0002));
    Ok(())
}

/// Permissions that are given, passed on and dropped, and an object that is opened and marked.
#[test]
fn permissions_are_given_and_dropped(rt: HostRuntime) -> Result<(), NoBoard> {
    seated!(rt, at, 1, 0, 0x0000_0008_0000_0001);
    let at = &mut at;
    let addr = OBJECT;
    let given = Answer::Given(Given::Done);
    assert!(rt; answers(at, FIRST, RowCall::Grant { who: SECOND, addr }, given));
    let child = ThreadIx(2);
    let passes = RowCall::Inherit { child, addr };
    assert!(rt; answers(at, FIRST, passes, Answer::Passed(Passed::Pair)));
    let child = SECOND;
    let passes = RowCall::Inherit { child, addr };
    assert!(rt; answers(at, FIRST, passes, Answer::Passed(Passed::Nothing)));
    assert!(rt; answers(at, FIRST, RowCall::Own { who: ThreadIx(31) }, given));
    assert!(rt; stands(at, 0, 0x0000_4028_8000_0007));
    assert!(rt; answers(at, SECOND, drop_of(SECOND), Answer::Dropped(Dropped::Kept)));
    assert!(rt;
        answers(
            at,
            SECOND,
            drop_of(SECOND),
            Answer::Dropped(Dropped::NoPair)
        )
    );
    let set = RowCall::SetInit { strict: true, addr };
    assert!(rt; answers(at, FIRST, set, Answer::Set(Set::Done)));
    assert!(rt; answers(at, FIRST, set, Answer::Set(Set::Already)));
    assert!(rt; answers(at, FIRST, RowCall::Publish { addr }, given));
    assert!(rt; stands(at, 0, 0x0000_902b_8000_0005));
    assert!(rt; answers(at, FIRST, RowCall::ClearInit { addr }, Answer::Done));
    assert!(rt; stands(at, 0, 0x0000_a02a_8000_0005));
    Ok(())
}

/// What the word said on which a call on a thread was recorded.
fn recorded(
    at: &mut Seated<'_>,
    who: ThreadIx,
    by: ThreadIx,
    call: ThreadCall,
) -> Option<ThreadWord>
    requires on { OnThread at.old who.0 }
    ensures stays { Remains at.old at.new }
{
    match at.thread(who, by, call) {
        Some(Ok(Outcome::Recorded { before })) => Some(before),
        _ => None,
    }
}

/// Whether a thread's word, which is this one, forbids a call by the thread.
fn forbids(at: &mut Seated<'_>, who: ThreadIx, call: ThreadCall, word: u64) -> bool
    requires on { OnThread at.old who.0 }
    ensures stays { Remains at.old at.new }
{
    match at.thread(who, who, call) {
        Some(Ok(Outcome::Forbidden { word: found })) => found == word,
        _ => false,
    }
}

const BEGIN: ThreadCall = ThreadCall::Begin { script: 0, line: 1 };

const MOVE: ThreadCall = ThreadCall::Move { domain: 0 };

/// A hold keeps a thread's domain, and a doomed thread begins no line.
#[test]
fn a_hold_keeps_a_threads_domain(rt: HostRuntime) -> Result<(), NoBoard> {
    seated!(rt, at, WORDS, 128, 0x41);
    let at = &mut at;
    let Some(before) = recorded(at, FIRST, FIRST, ThreadCall::Hold) else {
        assert!(rt; false, "a hold");
        return Ok(());
    };
    assert!(rt; before.domain == 2);
    let held = 0x0000_0010_0000_0049;
    assert!(rt; stands(at, 128, held));
    assert!(rt; forbids(at, FIRST, MOVE, held));
    assert!(rt; stands(at, 128, held));
    assert!(rt; recorded(at, FIRST, FIRST, ThreadCall::LetGo).is_some());
    assert!(rt; stands(at, 128, 0x0000_0020_0000_0041));
    assert!(rt; recorded(at, FIRST, FIRST, MOVE).is_some());
    assert!(rt; recorded(at, FIRST, FIRST, BEGIN).is_some());
    assert!(rt; recorded(at, FIRST, FIRST, ThreadCall::Reply(Reply::Num(0))).is_some());
    assert!(rt; stands(at, 128, 0x0000_0050_0000_0001));
    assert!(rt; recorded(at, FIRST, SECOND, ThreadCall::Doom).is_some());
    let doomed = 0x0000_0060_0000_0005;
    assert!(rt; stands(at, 128, doomed));
    assert!(rt; forbids(at, FIRST, BEGIN, doomed));
    let cause = Cause::Refused(Errno::EBADF);
    assert!(rt; recorded(at, FIRST, FIRST, ThreadCall::ReadWord).is_some());
    assert!(rt; recorded(at, FIRST, FIRST, ThreadCall::Fatal { reason: 3, cause }).is_some());
    assert!(rt; stands(at, 128, 0x0000_0080_0000_0006));
    Ok(())
}

/// Whether a call by the second thread on the first is recorded, on a word with this note, and leaves this word.
fn leaves(at: &mut Seated<'_>, call: ThreadCall, note: Option<u16>, word: u64) -> bool
    requires on { OnThread at.old 0 }
    ensures stays { Remains at.old at.new }
{
    match recorded(at, FIRST, SECOND, call) {
        Some(before) => before.note == note && stands(at, 128, word),
        None => false,
    }
}

/// An aborted thread begins nothing. Who aborts it sees which cell it noted, and it is killed.
#[test]
fn an_aborted_thread_is_killed(rt: HostRuntime) -> Result<(), NoBoard> {
    seated!(rt, at, WORDS, 128, 0x41);
    let at = &mut at;
    assert!(rt; at.thread(FIRST, FIRST, ThreadCall::Killed).is_none());
    assert!(rt; at.thread(FIRST, FIRST, ThreadCall::Note(309)).is_none());
    assert!(rt; leaves(at, ThreadCall::Note(168), None, 0x0000_0010_0005_4441));
    let aborted = 0x0000_0020_0005_4541;
    assert!(rt; leaves(at, ThreadCall::Abort, Some(168), aborted));
    assert!(rt;
        forbids(at, FIRST, BEGIN, aborted) && forbids(at, FIRST, ThreadCall::Exit, aborted)
    );
    assert!(rt; leaves(at, ThreadCall::Killed, Some(168), 0x0000_0030_0000_0142));
    assert!(rt; leaves(at, ThreadCall::Abort, None, 0x0000_0040_0000_0142));
    Ok(())
}

/// A suspended thread begins nothing until it may continue.
#[test]
fn a_suspended_thread_continues(rt: HostRuntime) -> Result<(), NoBoard> {
    seated!(rt, at, WORDS, 128, 0x41);
    let at = &mut at;
    let suspended = 0x0000_0010_0000_0241;
    assert!(rt; leaves(at, ThreadCall::Suspend, None, suspended));
    assert!(rt;
        forbids(at, FIRST, BEGIN, suspended) && forbids(at, FIRST, ThreadCall::Exit, suspended)
    );
    assert!(rt; leaves(at, ThreadCall::Continue, None, 0x0000_0020_0000_0041));
    assert!(rt; recorded(at, FIRST, FIRST, BEGIN).is_some());
    assert!(rt; recorded(at, FIRST, FIRST, ThreadCall::Exit).is_some());
    assert!(rt; leaves(at, ThreadCall::Suspend, None, 0x0000_0050_0000_0042));
    Ok(())
}

/// A thread from its start to its end.
#[test]
fn a_thread_starts_and_ends(rt: HostRuntime) -> Result<(), NoBoard> {
    seated!(rt, at, WORDS, 129, 0);
    let start = ThreadCall::Start {
        mode: Mode::Supervisor,
        domain: 1,
    };
    assert!(rt; recorded(&mut at, SECOND, FIRST, start).is_some());
    assert!(rt; stands(&mut at, 129, 0x0000_0010_0000_0031));
    let miss = ThreadCall::Miss {
        addr: Addr(0),
        kind: Some(Kind::Sem),
        want: Want::Init,
    };
    assert!(rt; recorded(&mut at, SECOND, SECOND, miss).is_some());
    assert!(rt; recorded(&mut at, SECOND, SECOND, ThreadCall::EnterUser).is_some());
    assert!(rt; recorded(&mut at, SECOND, SECOND, ThreadCall::Exit).is_some());
    assert!(rt; stands(&mut at, 129, 0x0000_0040_0000_0022));
    Ok(())
}

/// The call of the first thread on the first domain, where its word allows it.
fn domain_now(at: &mut Seated<'_>, call: DomainCall) -> Option<Result<Outcome<DomWord>, Changed>>
    requires on { OnDomain at.old 0 }
    ensures stays { Remains at.old at.new }
{
    let seen = at.board.look(&mut at.seat, domain_site(0));
    let word = DomWord::unpack(seen)?;
    if word.number >= LAST || !call.fits(0, &word) {
        return None;
    }
    let asked = Asked {
        by: FIRST,
        call,
        seen,
    };
    Some(call_domain(at.board, &mut at.seat, 0, asked))
}

/// Whether a call on the first domain is recorded, where the domain is initialised and in its first version.
fn records(at: &mut Seated<'_>, call: DomainCall) -> bool
    requires on { OnDomain at.old 0 }
    ensures stays { Remains at.old at.new }
{
    match domain_now(at, call) {
        Some(Ok(Outcome::Recorded { before })) => before.init && before.version == 0,
        _ => false,
    }
}

/// Whether the first domain's word, which is this one, forbids a call.
fn keeps_out(at: &mut Seated<'_>, call: DomainCall, word: u64) -> bool
    requires on { OnDomain at.old 0 }
    ensures stays { Remains at.old at.new }
{
    match domain_now(at, call) {
        Some(Ok(Outcome::Forbidden { word: found })) => found == word,
        _ => false,
    }
}

/// Nobody writes while somebody reads, and nobody reads while somebody writes.
#[test]
fn readers_and_writers_exclude_each_other(rt: HostRuntime) -> Result<(), NoBoard> {
    seated!(rt, at, WORDS, 160, 1);
    let at = &mut at;
    assert!(rt; records(at, DomainCall::ReadClaim));
    let read = 0x0000_0010_0000_0005;
    assert!(rt; stands(at, 160, read));
    assert!(rt; keeps_out(at, DomainCall::WriteClaim, read));
    assert!(rt; records(at, DomainCall::ReadDone { failed: None }));
    assert!(rt; stands(at, 160, 0x0000_0020_0000_0001));
    assert!(rt; records(at, DomainCall::WriteClaim));
    let written = 0x0000_0030_0000_0003;
    assert!(rt; stands(at, 160, written));
    assert!(rt; keeps_out(at, DomainCall::ReadClaim, written));
    let range = Range {
        start: Addr(0x2000_0000),
        size: 32,
    };
    let edit = Act::DomAdd {
        domain: 0,
        range,
        attr: Attr(27),
        reply: Reply::Num(0),
    };
    assert!(rt; records(at, DomainCall::WriteDone { edit }));
    assert!(rt; stands(at, 160, 0x0000_0040_0000_0201));
    Ok(())
}

/// Both seats see one word; the first one's check is recorded, the second's isn't. The board closes once the second is joined in.
#[test]
fn two_seats_see_one_word(rt: HostRuntime) -> Result<(), NoBoard> {
    let (board, mut seat) = board_with(rt.alloc(), 1, 0, 0x0000_0009_0000_0001)?;
    let other = board.split(&mut seat);
    let mut first = Seated::new(&board, seat);
    let mut second = Seated::new(&board, other);
    let (Some((seen, _)), Some((too_late, _))) = (first.row_seen(ROW), second.row_seen(ROW)) else {
        assert!(rt; false, "the word that both see");
        return Ok(());
    };
    let held = first.check_seen(ROW, FIRST, Want::Init, seen);
    assert!(rt; held == Some(Ok(Checked::Held)));
    let word = Changed {
        seen: 0x0000_1029_0000_0001,
    };
    assert!(rt; second.check_seen(ROW, FIRST, Want::Init, too_late) == Some(Err(word)));
    let seat = first.seat;
    let other = second.seat;
    let out = match board.close(seat) {
        Ok(closed) => {
            assert!(rt; false, "closed while a seat was out");
            closed.free();
            return Ok(());
        }
        Err(out) => out,
    };
    let StillOut {
        board,
        mut seat,
        seats,
    } = out;
    assert!(rt; seats == 1);
    board.join(&mut seat, other);
    assert!(rt; last_word(board, seat, 0) == Some(0x0000_1029_0000_0001));
    Ok(())
}

/// Whether the word says what the seats' steps add up to, where the object stood at first.
fn adds_up(tally: Tally, word: u64) -> bool {
    let row = RowWord::read(word);
    let live = u32::from(row.stage == Stage::Live);
    let dying = u32::from(row.stage == Stage::Dying);
    let cleaning = u32::from(row.stage == Stage::Cleaning);
    row.number == tally.steps
        && u32::from(row.claims) == tally.held.saturating_sub(tally.ended)
        && tally.born.saturating_add(1) == tally.gone.saturating_add(live)
        && tally.gone == tally.told.saturating_add(dying)
        && tally.told == tally.cleaned.saturating_add(cleaning)
}

/// Threads grant, drop, check, clean and bear one object, and the closed board's word is what their steps add up to.
#[test]
fn the_steps_of_many_threads_add_up(rt: HostRuntime) -> Result<(), OutOfMemory> {
    let job = Job::Play { steps: 100_000 };
    for threads in [2, 8] {
        let words = words_with(rt.alloc(), WORDS, 0, 0x0000_000c_0000_0001)?;
        let Some((tally, word)) = worked(&rt, rt.alloc(), words, job, threads, 0)? else {
            assert!(rt; false, "a board");
            return Ok(());
        };
        assert!(rt; tally.steps >= u32::from(threads) * 100_000);
        assert!(rt; adds_up(tally, word), "{threads} threads");
    }
    Ok(())
}

/// What a seat and a board take in memory: ghost data takes nothing.
#[test]
fn seats_are_small(rt: HostRuntime) {
    assert!(rt; size_of::<Seat<()>>() == 12);
    assert!(rt; size_of::<Board<(), AnyStep>>() == 64);
}
