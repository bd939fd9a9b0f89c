//! Tests of the short lists.

use super::*;
use crate::names::Errno;

#[test]
fn replies_are_kept(rt: HostRuntime) {
    let mut woken = Replies::new();
    assert_eq!(rt; woken.len(), 0);
    woken.push(ThreadIx(3), Reply::Num(0));
    woken.push(ThreadIx(1), Reply::Fail(Errno::EAGAIN));
    woken.push(ThreadIx(2), Reply::Num(256));
    assert_eq!(rt; woken.len(), 3);
    assert!(rt; woken.at(0) == (ThreadIx(3), Reply::Num(0)));
    assert!(rt; woken.at(1) == (ThreadIx(1), Reply::Fail(Errno::EAGAIN)));
    assert!(rt; woken.at(2) == (ThreadIx(2), Reply::Num(256)));
}

#[test]
fn named_partitions_are_kept(rt: HostRuntime) {
    let mut parts = PartRefs::new();
    assert_eq!(rt; parts.len(), 0);
    parts.push(&PartRef::At(2));
    parts.push(&PartRef::At(0));
    assert_eq!(rt; parts.len(), 2);
    assert!(rt; parts.as_slice() == [PartRef::At(2), PartRef::At(0)].as_slice());
}

#[test]
fn partitions_are_kept(rt: HostRuntime) {
    let range = Range {
        start: Addr(0x2000_0000),
        size: 32,
    };
    let other = Range {
        start: Addr(0x2000_0020),
        size: 64,
    };
    let mut parts = Parts::new();
    assert_eq!(rt; parts.len(), 0);
    parts.push(range, Attr::P_RW_U_RW);
    parts.push(other, Attr::P_RO_U_RO);
    assert_eq!(rt; parts.len(), 2);
    assert!(rt;
        parts.as_slice() == [(range, Attr::P_RW_U_RW), (other, Attr::P_RO_U_RO)].as_slice()
    );
}

#[test]
fn pieces_are_kept(rt: HostRuntime) {
    let mut piece = Piece::new();
    assert_eq!(rt; piece.len(), 0);
    piece.push(b'a');
    piece.push(b'b');
    assert_eq!(rt; piece.len(), 2);
    assert_eq!(rt; piece.as_slice(), b"ab".as_slice());
    let mut shorter = Piece::new();
    shorter.push(b'a');
    assert!(rt; piece != shorter);
}
