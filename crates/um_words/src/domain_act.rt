//! What is asked of the word of a domain, and the word that it leaves: the only code that steps a domain's word.

ghost use Rattle.std.specs.Prelude.{◌≡◌, ◌<◌, false, true, IsTrue, MatchOption};
ghost use Rattle.um_words.specs.{
  DomainActs.{domain_act, domain_takes_at},
  Domains.{DomainMay, domain_after, domain_takes, is_zero, left_by_reader, writes, written},
  Packed.{domain_in, is_domain},
  ShownActs.{event_of},
  Steps.{DomainStep},
};

use crate::dom_word::DomWord;
use crate::events::shown;
use crate::kind::LAST;
use crate::next_word::next_word;
use um_base::{Act, Attr, Event, Range, Reply, ThreadIx};

/// What is asked of the word of a domain, and by which thread.
#[derive(Clone, Copy)]
pub enum DomainAct {
    ReadClaim,
    ReadDone,
    WriteClaim,
    DomInit {
        thread: ThreadIx,
        domain: u8,
        reply: Reply,
    },
    DomAdd {
        thread: ThreadIx,
        domain: u8,
        range: Range,
        attr: Attr,
        reply: Reply,
    },
    DomRemove {
        thread: ThreadIx,
        domain: u8,
        range: Range,
        attr: Attr,
        reply: Reply,
    },
    /// A move to a domain that isn't initialised.
    DomMove {
        thread: ThreadIx,
        domain: u8,
        who: ThreadIx,
        reply: Reply,
    },
}

fn is_zero(reply: &Reply) -> bool
    ensures { result ≡ is_zero reply.now }
{
    match reply {
        Reply::Num(number) => *number == 0,
        _ => false,
    }
}

/// Whether the claim to write can end.
fn writes(word: &DomWord) -> bool
    ensures { result ≡ writes word.now }
{
    word.writer && word.version < 0xf_ffff
}

/// The claim to write ends. Init: the domain is initialised by it.
fn end_write(word: &mut DomWord, init: bool)
    requires { IsTrue (writes word.old) }
    ensures { word.new ≡ written word.old init }
{
    word.init = word.init || init;
    word.writer = false;
    word.version += 1;
}

/// A claim to read ends.
fn end_read(word: &mut DomWord)
    requires { 0 < word.old.readers }
    ensures { word.new ≡ left_by_reader word.old }
{
    word.readers -= 1;
}

impl DomainAct {
    /// Whether the word takes it.
    #[inline(always)]
    fn is_taken(&self, word: &DomWord) -> bool
        ensures { result ≡ domain_takes word.now (domain_act self.now) }
    {
        match self {
            DomainAct::ReadClaim => !word.writer && word.readers < 127,
            DomainAct::ReadDone => 0 < word.readers,
            DomainAct::WriteClaim => !word.writer && word.readers == 0,
            DomainAct::DomInit { .. } => writes(word),
            DomainAct::DomAdd { .. } => writes(word),
            DomainAct::DomRemove { .. } => writes(word),
            DomainAct::DomMove { .. } => 0 < word.readers && !word.init,
        }
    }

    /// What is left but for the step number.
    #[inline(always)]
    fn take(&self, word: &mut DomWord)
        requires { IsTrue (domain_takes word.old (domain_act self.now)) }
        ensures { word.new ≡ domain_after word.old (domain_act self.now) }
    {
        match self {
            DomainAct::ReadClaim => word.readers += 1,
            DomainAct::ReadDone => end_read(word),
            DomainAct::WriteClaim => word.writer = true,
            DomainAct::DomInit { reply, .. } => end_write(word, is_zero(reply)),
            DomainAct::DomAdd { .. } => end_write(word, false),
            DomainAct::DomRemove { .. } => end_write(word, false),
            DomainAct::DomMove { .. } => end_read(word),
        }
    }

    /// The word that the step leaves; nothing where the word takes no such step.
    #[inline(always)]
    pub fn make(&self, word: &DomWord) -> Option<DomWord>
        ensures { MatchOption result
            (domain_takes_at word.now self.now ≡ false)
            (λ next. DomainMay word.now (domain_act self.now) next) }
    {
        Some(next_word!(self, word))
    }

    /// The same of the bits of a word that says something.
    pub fn step(&self, seen: u64) -> Option<u64>
        requires { is_domain seen ≡ true }
        ensures { MatchOption result
            (domain_takes_at (domain_in seen) self.now ≡ false)
            (λ next. DomainStep seen (domain_act self.now) next) }
    {
        let Some(word) = DomWord::unpack(seen) else {
            unreachable!();
        };
        match self.make(&word) {
            None => None,
            Some(next) => Some(next.pack()),
        }
    }

    /// The event of the step, if a trace shows it.
    #[inline(always)]
    pub fn event(&self) -> Option<Event>
        ensures { result ≡ event_of (domain_act self.now) }
    {
        match *self {
            DomainAct::ReadClaim => None,
            DomainAct::ReadDone => None,
            DomainAct::WriteClaim => None,
            DomainAct::DomInit {
                thread,
                domain,
                reply,
            } => shown(thread, Act::DomInit { domain, reply }),
            DomainAct::DomAdd {
                thread,
                domain,
                range,
                attr,
                reply,
            } => shown(
                thread,
                Act::DomAdd {
                    domain,
                    range,
                    attr,
                    reply,
                },
            ),
            DomainAct::DomRemove {
                thread,
                domain,
                range,
                attr,
                reply,
            } => shown(
                thread,
                Act::DomRemove {
                    domain,
                    range,
                    attr,
                    reply,
                },
            ),
            DomainAct::DomMove {
                thread,
                domain,
                who,
                reply,
            } => shown(thread, Act::DomMove { domain, who, reply }),
        }
    }
}
