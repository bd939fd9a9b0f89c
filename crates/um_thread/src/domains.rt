//! Claims to read and to write the partitions of a domain.

ghost use Rattle.std.specs.Prelude.{◌≡◌, IsTrue};
ghost use Rattle.um_words.specs.Packed.{domain_in};
ghost use Rattle.um_site.specs.Calls.{domain_site, Stays, AtDomain, MayNext};
ghost use Rattle.um_thread.specs.{Acts.{domain_act, asked_edit, asked_of_domain, forbids_domain, fits_domain, is_edit_of}, Tells.{Tells}};

use crate::outcome::{Outcome, forbidden};
use std::marker::Brand;
use um_base::{Act, Errno, Reply, ThreadIx};
use um_site::{Asked, Board, Changed, Place, Seat};
use um_words::{Content, DomWord, DomainAct, Local};

/// What a call does with a domain's partitions.
#[derive(Clone, Copy)]
pub enum DomainCall {
    /// Claims them for reading, if nobody changes them.
    ReadClaim,
    /// Ends a claim to read: with this thread's move, which fails since the domain isn't initialised, or with a step that no trace shows.
    ReadDone { failed: Option<ThreadIx> },
    /// Claims them for a change, if nobody reads or changes them.
    WriteClaim,
    /// Ends a claim to change them, with the edit.
    WriteDone { edit: Act },
}

/// Whether an act is an edit of a domain's partitions.
fn is_edit_of(domain: u8, act: &Act) -> bool
    ensures { result ≡ is_edit_of domain act.now }
{
    match act {
        Act::DomInit { domain: of, .. }
        | Act::DomAdd { domain: of, .. }
        | Act::DomRemove { domain: of, .. } => *of == domain,
        _ => false,
    }
}

/// What an edit asks of the word. No other act is handed in: of one, this would be a claim.
fn asked_edit(by: ThreadIx, edit: &Act) -> DomainAct
    ensures { result ≡ asked_edit by edit.now }
{
    let thread = by;
    match *edit {
        Act::DomInit { domain, reply } => DomainAct::DomInit {
            thread,
            domain,
            reply,
        },
        Act::DomAdd {
            domain,
            range,
            attr,
            reply,
        } => DomainAct::DomAdd {
            thread,
            domain,
            range,
            attr,
            reply,
        },
        Act::DomRemove {
            domain,
            range,
            attr,
            reply,
        } => DomainAct::DomRemove {
            thread,
            domain,
            range,
            attr,
            reply,
        },
        _ => DomainAct::WriteClaim,
    }
}

impl DomainCall {
    /// Whether a domain with this word takes the call, given that the word doesn't forbid it.
    pub fn fits(&self, domain: u8, word: &DomWord) -> bool
        ensures { result ≡ fits_domain domain self.now word.now }
    {
        match self {
            DomainCall::ReadClaim => word.writer || word.readers < 127,
            DomainCall::ReadDone { failed: None } => word.readers > 0,
            DomainCall::ReadDone { failed: Some(_) } => word.readers > 0 && !word.init,
            DomainCall::WriteClaim => true,
            DomainCall::WriteDone { edit } => {
                word.writer && word.version < 0xf_ffff && is_edit_of(domain, edit)
            }
        }
    }

    /// What the call asks of the word of this domain.
    fn act(&self, by: ThreadIx, domain: u8) -> DomainAct
        ensures { result ≡ asked_of_domain by domain self.now }
    {
        match self {
            DomainCall::ReadClaim => DomainAct::ReadClaim,
            DomainCall::ReadDone { failed: None } => DomainAct::ReadDone,
            DomainCall::ReadDone { failed: Some(who) } => DomainAct::DomMove {
                thread: by,
                domain,
                who: *who,
                reply: Reply::Fail(Errno::EINVAL),
            },
            DomainCall::WriteClaim => DomainAct::WriteClaim,
            DomainCall::WriteDone { edit } => asked_edit(by, edit),
        }
    }

    /// Whether the word forbids the call.
    fn is_forbidden(&self, word: &DomWord) -> bool
        ensures { result ≡ forbids_domain self.now word.now }
    {
        match self {
            DomainCall::ReadClaim => word.writer,
            DomainCall::WriteClaim => word.writer || word.readers > 0,
            _ => false,
        }
    }
}

/// A call on a domain's word.
pub fn call_domain<T: Content, L: Local>(
    board: &Board<T, L>,
    seat: &mut Seat<T>,
    domain: u8,
    asked: Asked<DomainCall>,
) -> Result<Outcome<DomWord>, Changed>
    requires at { AtDomain board.now.table.shared.table_id seat.old domain asked.seen }
    requires fits { IsTrue (fits_domain domain asked.call (domain_in asked.seen)) }
    requires goes { MayNext L.goes seat.old (domain_site domain) asked.seen
        (domain_act asked.by domain asked.call) }
    ensures stays { Stays seat.old seat.new }
    ensures told { Tells L.goes seat.old (domain_site domain) asked.seen
        (forbids_domain asked.call (domain_in asked.seen)) (domain_act asked.by domain asked.call)
        (domain_in asked.seen) result seat.new }
{
    let Some(before) = DomWord::unpack(asked.seen) else {
        unreachable!();
    };
    let place = Place::Domain(domain);
    if asked.call.is_forbidden(&before) {
        return forbidden(board, seat, place, asked.seen);
    }
    let act = asked.call.act(asked.by, domain);
    let Some(next) = act.step(asked.seen) else {
        unreachable!();
    };
    let about = (asked.by, domain, asked.call);
    board.step_at::<Brand, _>(seat, place, asked.seen, next, &about)?;
    Ok(Outcome::Recorded { before })
}
