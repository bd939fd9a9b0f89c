//! Events with one field wrong.

use super::values::{
    access_of, answer_of, attr_of, cause_of, found_of, given_of, kind_of, kind_or_any, left_of,
    place_of, reply_of, set_of, verdict_of, want_of, woken_of,
};
use um_base::{Act, Attr, Range, Reply};

/// Makes the change with this number, if there is one.
macro_rules! change_nth {
    ($number:expr;) => { return false };
    ($number:expr; $first:expr $(; $rest:expr)*) => {
        if $number == 0 { $first } else { change_nth!($number - 1; $($rest);*) }
    };
}

/// Changes the field of this number of a call with a partition.
fn change_part(
    domain: &mut u8,
    range: &mut Range,
    attr: &mut Attr,
    reply: &mut Reply,
    field: usize,
) -> bool {
    change_nth!(field; *domain ^= 1; range.start.0 ^= 1; range.size ^= 1; *attr = attr_of(*attr); *reply = reply_of(*reply));
    true
}

/// Changes the field with this number, if the event has one. A changed address is no object's.
fn change(act: &mut Act, field: usize) -> bool {
    match act {
        Act::Begin { script, line } => change_nth!(field; *script ^= 1; *line ^= 1),
        Act::Check {
            addr,
            kind,
            want,
            verdict,
        } =>
            change_nth!(field; addr.0 ^= 1; *kind = kind_or_any(*kind); *want = want_of(*want); *verdict = verdict_of(*verdict)),
        Act::Load { addr, size, value } => change_nth!(field; addr.0 ^= 1; *size ^= 1; *value ^= 1),
        Act::Store { addr, size, value } =>
            change_nth!(field; addr.0 ^= 1; *size ^= 1; *value ^= 1),
        Act::Fetch { addr } => change_nth!(field; addr.0 ^= 1),
        Act::Fault { access, addr, size } =>
            change_nth!(field; *access = access_of(*access); addr.0 ^= 1; *size ^= 1),
        Act::Probe { addr, size, fits } =>
            change_nth!(field; addr.0 ^= 1; *size ^= 1; *fits = !*fits),
        Act::CopyIn { addr, size, fits } =>
            change_nth!(field; addr.0 ^= 1; *size ^= 1; *fits = !*fits),
        Act::CopyOut { addr, size, fits } =>
            change_nth!(field; addr.0 ^= 1; *size ^= 1; *fits = !*fits),
        Act::CopyStr { addr, found } => change_nth!(field; addr.0 ^= 1; *found = found_of(*found)),
        Act::Erase { stack } => change_nth!(field; stack.0 ^= 1),
        Act::Work {
            addr,
            answer,
            woken,
        } =>
            change_nth!(field; addr.0 ^= 1; *answer = answer_of(*answer); *woken = woken_of(woken)),
        Act::Answered { reply } => change_nth!(field; *reply = reply_of(*reply)),
        Act::Grant { who, addr, given } =>
            change_nth!(field; who.0 ^= 1; addr.0 ^= 1; *given = given_of(*given)),
        Act::Own { who, given } => change_nth!(field; who.0 ^= 1; *given = given_of(*given)),
        Act::Inherit { who, addr } => change_nth!(field; who.0 ^= 1; addr.0 ^= 1),
        Act::DropPair { who, addr, left } =>
            change_nth!(field; who.0 ^= 1; addr.0 ^= 1; *left = left_of(*left)),
        Act::Publish { addr, given } => change_nth!(field; addr.0 ^= 1; *given = given_of(*given)),
        Act::SetInit { addr, set } => change_nth!(field; addr.0 ^= 1; *set = set_of(*set)),
        Act::ClearInit { addr } => change_nth!(field; addr.0 ^= 1),
        Act::Named { who } => change_nth!(field; who.0 ^= 1),
        Act::Reserve { kind, addr } =>
            change_nth!(field; *kind = kind_of(*kind); *addr = place_of(*addr)),
        Act::Born { addr } => change_nth!(field; addr.0 ^= 1),
        Act::Buffer { size, fits } => change_nth!(field; *size ^= 1; *fits = !*fits),
        Act::Unbuffer { size } => change_nth!(field; *size ^= 1),
        Act::Recycle { addr } => change_nth!(field; addr.0 ^= 1),
        Act::DomInit { domain, reply } =>
            change_nth!(field; *domain ^= 1; *reply = reply_of(*reply)),
        Act::DomAdd {
            domain,
            range,
            attr,
            reply,
        } => return change_part(domain, range, attr, reply, field),
        Act::DomRemove {
            domain,
            range,
            attr,
            reply,
        } => return change_part(domain, range, attr, reply, field),
        Act::DomMove { domain, who, reply } =>
            change_nth!(field; *domain ^= 1; who.0 ^= 1; *reply = reply_of(*reply)),
        Act::Start { who } => change_nth!(field; who.0 ^= 1),
        Act::Fatal { reason, cause } => change_nth!(field; *reason ^= 1; *cause = cause_of(*cause)),
        Act::Doom { who } => change_nth!(field; who.0 ^= 1),
        Act::Arm { deadline } => change_nth!(field; *deadline ^= 1),
        Act::Tick { now } => change_nth!(field; *now ^= 1),
        Act::TimedOut { who } => change_nth!(field; who.0 ^= 1),
        Act::Expire { addr, woken } => change_nth!(field; addr.0 ^= 1; *woken = woken_of(woken)),
        Act::Abort { who, done } => change_nth!(field; who.0 ^= 1; *done = !*done),
        Act::Suspend { who, done } => change_nth!(field; who.0 ^= 1; *done = !*done),
        Act::Continue { who, done } => change_nth!(field; who.0 ^= 1; *done = !*done),
        Act::Cut { who } => change_nth!(field; who.0 ^= 1),
        Act::Join { who, answer } => change_nth!(field; who.0 ^= 1; *answer = answer_of(*answer)),
        Act::Left { who, woken } => change_nth!(field; who.0 ^= 1; *woken = woken_of(woken)),
        Act::FutexWait {
            addr,
            value,
            answer,
        } => change_nth!(field; addr.0 ^= 1; *value ^= 1; *answer = answer_of(*answer)),
        Act::FutexWake {
            addr,
            answer,
            woken,
        } =>
            change_nth!(field; addr.0 ^= 1; *answer = answer_of(*answer); *woken = woken_of(woken)),
        Act::Resume | Act::EnterUser | Act::Exit | Act::Killed => return false,
    }
    true
}

/// The event with the field of this number wrong, if it has such a field.
pub fn changed(act: &Act, field: usize) -> Option<Act> {
    let mut other = *act;
    if change(&mut other, field) {
        Some(other)
    } else {
        None
    }
}
