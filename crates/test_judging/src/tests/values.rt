//! Another value for a field of an event.

use um_base::{
    Access, Addr, Answer, Attr, Cause, Errno, Found, Given, Kind, Leftover, Replies, Reply,
    SetSaid, ThreadIx, Want,
};

pub fn access_of(other: Access) -> Access {
    match other {
        Access::Read => Access::Write,
        _ => Access::Read,
    }
}

pub fn kind_of(other: Kind) -> Kind {
    match other {
        Kind::Sem => Kind::Mutex,
        _ => Kind::Sem,
    }
}

pub fn kind_or_any(other: Option<Kind>) -> Option<Kind> {
    match other {
        None => Some(Kind::Sem),
        Some(_) => None,
    }
}

pub fn want_of(other: Want) -> Want {
    match other {
        Want::Any => Want::Init,
        _ => Want::Any,
    }
}

pub fn verdict_of(other: Option<Errno>) -> Option<Errno> {
    match other {
        None => Some(Errno::EPERM),
        Some(_) => None,
    }
}

pub fn place_of(other: Option<Addr>) -> Option<Addr> {
    match other {
        None => Some(Addr(0)),
        Some(a) => Some(Addr(a.0 ^ 1)),
    }
}

pub fn reply_of(other: Reply) -> Reply {
    match other {
        Reply::Void => Reply::Null,
        Reply::Num(n) => Reply::Num(n ^ 1),
        Reply::At(a) => Reply::At(Addr(a.0 ^ 1)),
        _ => Reply::Void,
    }
}

pub fn answer_of(other: Answer) -> Answer {
    match other {
        Answer::Wait => Answer::Now(Reply::Void),
        Answer::Now(_) => Answer::Wait,
    }
}

/// Nobody, if somebody is woken, and otherwise somebody.
pub fn woken_of(woken: &Replies) -> Replies {
    let mut other = Replies::new();
    if woken.len() == 0 {
        other.push(ThreadIx(1), Reply::Num(0));
    }
    other
}

pub fn found_of(other: Found) -> Found {
    match other {
        Found::Length(n) => Found::Length(n ^ 1),
        _ => Found::Length(0),
    }
}

pub fn given_of(other: Given) -> Given {
    match other {
        Given::Done => Given::Gone,
        Given::Gone => Given::Done,
    }
}

pub fn left_of(other: Leftover) -> Leftover {
    match other {
        Leftover::Kept => Leftover::Gone,
        Leftover::Gone => Leftover::NoPair,
        Leftover::NoPair => Leftover::Kept,
    }
}

pub fn set_of(other: SetSaid) -> SetSaid {
    match other {
        SetSaid::Done => SetSaid::Gone,
        _ => SetSaid::Done,
    }
}

pub fn attr_of(other: Attr) -> Attr {
    Attr(other.0 ^ 1)
}

pub fn cause_of(other: Cause) -> Cause {
    match other {
        Cause::Access => Cause::Size,
        _ => Cause::Access,
    }
}
