//! Words before and after worked steps, and words that say nothing.

use super::*;
use um_base::{Addr, Attr, Errno, Given, Kind, Leftover, Mode, Range, Reply, ThreadIx, Want};

const OBJECT: Addr = Addr(0x4800_0000);

const FIRST: ThreadIx = ThreadIx(0);

const SECOND: ThreadIx = ThreadIx(1);

fn check(want: Want, thread: ThreadIx) -> RowAct {
    RowAct::Check {
        thread,
        addr: OBJECT,
        kind: Some(Kind::Sem),
        want,
        mode: Mode::User,
        fits: true,
    }
}

/// What a row says of the step by which that word comes to stand, if it is that one.
fn said(act: RowAct, word: u64, after: u64) -> Option<RowSaid> {
    match act.step(word) {
        Some((next, said)) if next == after => Some(said),
        _ => None,
    }
}

fn is_refused(act: RowAct, word: u64) -> bool {
    act.step(word).is_none()
}

/// An object's row from its last permission, by its cleaning, to its next birth.
#[test]
fn a_row_is_cleaned_and_born_again(rt: HostRuntime) {
    let held = said(check(Want::Init, FIRST), 0x9_0000_0001, 0x1029_0000_0001);
    assert!(rt; matches!(held, Some(said) if said.verdict.is_none()));
    let refused = said(check(Want::Uninit, SECOND), 0x9_0000_0001, 0x1009_0000_0001);
    assert!(rt; matches!(refused, Some(said) if said.verdict == Some(Errno::EPERM)));
    let drop = RowAct::DropPair {
        thread: FIRST,
        who: FIRST,
        addr: OBJECT,
    };
    let gone = said(drop, 0xc_0000_0001, 0x101c_0000_0000);
    assert!(rt; matches!(gone, Some(said) if said.left == Leftover::Gone && said.cleans));
    let dying = said(drop, 0x2c_0000_0001, 0x1034_0000_0000);
    assert!(rt; matches!(dying, Some(said) if said.left == Leftover::Gone && !said.cleans));
    let grant = RowAct::Grant {
        thread: FIRST,
        who: SECOND,
        addr: OBJECT,
    };
    let late = said(grant, 0x1034_0000_0000, 0x2034_0000_0000);
    assert!(rt; matches!(late, Some(said) if said.given == Given::Gone));
    let end = said(RowAct::EndCall, 0x2034_0000_0000, 0x301c_0000_0000);
    assert!(rt; matches!(end, Some(said) if said.cleans));
    assert!(rt; said(RowAct::Vacate, 0x301c_0000_0000, 0x4000_0000_0000).is_some());
    let birth = RowAct::Born {
        thread: SECOND,
        addr: OBJECT,
    };
    assert!(rt; said(birth, 0x4000_0000_0000, 0x500c_0000_0002).is_some());
}

/// Steps that no row takes: a claim that isn't there, an object that isn't gone, and a number that ends.
#[test]
fn rows_refuse_wrong_steps(rt: HostRuntime) {
    assert!(rt; is_refused(RowAct::EndCall, 0xc_0000_0001));
    assert!(rt; is_refused(RowAct::Vacate, 0xc_0000_0001));
    let sweep = RowAct::Sweep {
        thread: FIRST,
        who: SECOND,
        addr: OBJECT,
    };
    assert!(rt; is_refused(sweep, 0xffff_f00c_0000_0001));
}

/// A hold that keeps a domain, and a thread that is doomed.
#[test]
fn a_hold_keeps_a_doomed_threads_domain(rt: HostRuntime) {
    assert!(rt; ThreadAct::Hold.step(0x41) == Some(0x10_0000_0049));
    let moved = ThreadAct::DomMove {
        thread: FIRST,
        domain: 0,
        who: FIRST,
        reply: Reply::Num(0),
    };
    assert!(rt; moved.step(0x10_0000_0049).is_none());
    assert!(rt; ThreadAct::LetGo.step(0x10_0000_0049) == Some(0x20_0000_0041));
    let begin = ThreadAct::Begin {
        thread: FIRST,
        script: 0,
        line: 1,
    };
    assert!(rt; begin.step(0x41) == Some(0x10_0000_0041));
    assert!(rt; begin.step(0x45) == Some(0x10_0000_0045));
}

/// A thread that is aborted is killed at its turn; where it is doomed or only suspended, its word is read.
#[test]
fn a_stopped_thread_begins_nothing(rt: HostRuntime) {
    let abort = ThreadAct::Abort {
        thread: FIRST,
        who: SECOND,
    };
    assert!(rt; abort.step(0x41) == Some(0x10_0000_0141));
    assert!(rt; abort.step(0x40) == Some(0x10_0000_0040));
    let begin = ThreadAct::Begin {
        thread: FIRST,
        script: 0,
        line: 1,
    };
    assert!(rt; begin.step(0x141) == Some(0x10_0000_0142));
    assert!(rt; begin.step(0x241) == Some(0x10_0000_0241));
    assert!(rt; begin.step(0x345) == Some(0x10_0000_0345));
    let resume = ThreadAct::Continue {
        thread: SECOND,
        who: FIRST,
    };
    assert!(rt; resume.step(0x241) == Some(0x10_0000_0041));
}

/// The site that a thread's word notes, until its call's reply.
#[test]
fn a_note_ends_with_its_call(rt: HostRuntime) {
    assert!(rt; ThreadAct::Note(168).step(0x41) == Some(0x10_0005_4441));
    assert!(rt; ThreadAct::Note(309).step(0x41).is_none());
    let reply = ThreadAct::Answered {
        thread: FIRST,
        reply: Reply::Num(0),
    };
    assert!(rt; reply.step(0x5_4441) == Some(0x10_0000_0041));
}

/// A claim to read, a claim to write and the edit that ends it.
#[test]
fn an_edit_ends_its_claim(rt: HostRuntime) {
    assert!(rt; DomainAct::ReadClaim.step(0x1) == Some(0x10_0000_0005));
    assert!(rt; DomainAct::WriteClaim.step(0x10_0000_0005).is_none());
    assert!(rt; DomainAct::ReadDone.step(0x10_0000_0005) == Some(0x20_0000_0001));
    assert!(rt; DomainAct::WriteClaim.step(0x20_0000_0001) == Some(0x30_0000_0003));
    assert!(rt; DomainAct::ReadClaim.step(0x30_0000_0003).is_none());
    let added = DomainAct::DomAdd {
        thread: FIRST,
        domain: 0,
        range: Range {
            start: Addr(0x2000_0000),
            size: 32,
        },
        attr: Attr(27),
        reply: Reply::Num(0),
    };
    assert!(rt; added.step(0x30_0000_0003) == Some(0x40_0000_0201));
}

/// Each word's fields by bits, and the bits that are always zero.
#[test]
fn words_keep_their_fields_by_bits(rt: HostRuntime) {
    let row = RowWord::read(0xffff_ffff_ffff_ffff);
    assert!(rt; row.claims == 127 && row.number == 0xf_ffff && row.stage == Stage::Cleaning);
    assert!(rt; row.permissions.has(31) && !row.permissions.has(32));
    assert!(rt; row.pack() == 0xffff_ffff_ffff_ffff);
    assert!(rt; ThreadWord::unpack(0x3).is_none() && ThreadWord::unpack(0x800_0000).is_none());
    assert!(rt; ThreadWord::unpack(0x800).is_none() && ThreadWord::unpack(0x400).is_some());
    let stopped = ThreadWord::unpack(0x5_4741);
    assert!(rt; matches!(stopped, Some(t) if t.aborted && t.suspended && t.note == Some(168)));
    assert!(rt;
        ThreadWord::unpack(0x8_0000_0000).is_none() && ThreadWord::unpack(0x10_0000_00fe).is_some()
    );
    assert!(rt; DomWord::unpack(0x2000_0000).is_none() && DomWord::unpack(0x8_0000_0000).is_none());
    let cell = CellWord::read(0x10_0002_0403);
    assert!(rt;
        cell.turn && cell.ready == 1 && cell.running == 2 && cell.owed == 1 && cell.number == 1
    );
}
