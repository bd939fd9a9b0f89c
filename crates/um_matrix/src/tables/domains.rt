//! The steps of memory domains.

ghost use Rattle.std.specs.Prelude.{◌≡◌, ◌<◌, drop, map, ℕ};

use crate::tables::Tables;
use um_base::{Act, Attr, Errno, PartRefs, Parts, Range, Reply, THREADS, ThreadIx};
use um_machine::Pending;
use um_steps::domains::{added, domain_after, initialised, removed, reply_to};

impl<'a> Tables<'a> {
    ghost use Rattle.um_base.specs.Lawful.{most_parts};
    ghost use Rattle.um_machine.specs.{
      Domains.{initialised, added, removed, reply_to, domain_after, part_named},
      Goes.{Change, Next, Way, went},
      State.{thread_at},
      Table.{act_of, after, move_reply, domain_at},
      Writes.{Effect, effect, is_number, only, write},
    };

    /// The partitions of a domain, where it is initialised.
    fn domain_at(&self, domain: u8) -> Option<Parts>
        ensures { result ≡ domain_at self.now domain }
    {
        match self.domains.get(domain as usize) {
            Some(parts) => *parts,
            None => None,
        }
    }

    /// What a call makes of a domain.
    fn put_domain(&mut self, t: usize, domain: u8, parts: Option<Parts>, reply: Reply, taken: usize)
        requires { t < THREADS }
        ensures { self.new ≡ went (drop taken (thread_at self.old t).pending)
            (effect (Effect.edits domain parts) self.old) t (Next.on (Change.says reply) Way.rest) }
    {
        if (domain as usize) < self.domains.len() {
            self.domains[domain as usize] = parts;
        }
        let thread = &mut self.threads[t];
        thread.reply = reply;
        thread.goes_on(self.image, taken);
    }

    /// Changes a domain as an edit asks, and has its thread told.
    fn edit_domain(
        &mut self,
        t: usize,
        domain: u8,
        before: Option<Parts>,
        made: Result<Parts, Errno>,
        taken: usize,
    )
        requires { t < THREADS }
        ensures { self.new ≡ went (drop taken (thread_at self.old t).pending)
            (effect (Effect.edits domain (domain_after before made)) self.old) t
            (Next.on (Change.says (reply_to made)) Way.rest) }
    {
        let reply = reply_to(&made);
        self.put_domain(t, domain, domain_after(before, made), reply, taken);
    }

    /// What an initialisation makes of a domain.
    fn initialised(&self, domain: u8, parts: &PartRefs) -> Result<Parts, Errno>
        ensures { result ≡ initialised self.now.image.mpu (most_parts self.now.image)
            (domain_at self.now domain) (map (part_named self.now.image) parts.now) }
    {
        initialised(self.image, &self.domain_at(domain), parts.as_slice())
    }

    /// What the initialisation of a domain says.
    pub(crate) fn says_domain_init(&self, domain: u8, parts: &PartRefs, act: &mut Act)
        ensures { (t x : ℕ) → act.new ≡ act_of self.now t x (Pending.DomInit domain parts.now) }
    {
        let made = self.initialised(domain, parts);
        *act = Act::DomInit {
            domain,
            reply: reply_to(&made),
        };
    }

    /// What the addition of a partition to a domain says.
    pub(crate) fn says_domain_add(&self, domain: u8, range: Range, attr: Attr, act: &mut Act)
        ensures { (t x : ℕ) → act.new ≡ act_of self.now t x (Pending.DomAdd domain range attr) }
    {
        let made = added(self.image, &self.domain_at(domain), range, attr);
        *act = Act::DomAdd {
            domain,
            range,
            attr,
            reply: reply_to(&made),
        };
    }

    /// What the removal of a partition from a domain says.
    pub(crate) fn says_domain_remove(&self, domain: u8, range: Range, attr: Attr, act: &mut Act)
        ensures { (t x : ℕ) → act.new ≡ act_of self.now t x (Pending.DomRemove domain range attr) }
    {
        let made = removed(&self.domain_at(domain), range);
        *act = Act::DomRemove {
            domain,
            range,
            attr,
            reply: reply_to(&made),
        };
    }

    /// The initialisation of a domain.
    pub(crate) fn domain_init(&mut self, t: usize, domain: u8, parts: &PartRefs, taken: usize)
        requires { t < THREADS }
        ensures { self.new ≡ after self.old t 0 (Pending.DomInit domain parts.now)
            (drop taken (thread_at self.old t).pending) }
    {
        let made = self.initialised(domain, parts);
        self.edit_domain(t, domain, self.domain_at(domain), made, taken);
    }

    /// The addition of a partition to a domain.
    pub(crate) fn domain_add(
        &mut self,
        t: usize,
        domain: u8,
        range: Range,
        attr: Attr,
        taken: usize,
    )
        requires { t < THREADS }
        ensures { self.new ≡ after self.old t 0 (Pending.DomAdd domain range attr)
            (drop taken (thread_at self.old t).pending) }
    {
        let before = self.domain_at(domain);
        let made = added(self.image, &before, range, attr);
        self.edit_domain(t, domain, before, made, taken);
    }

    /// The removal of a partition from a domain.
    pub(crate) fn domain_remove(
        &mut self,
        t: usize,
        domain: u8,
        range: Range,
        attr: Attr,
        taken: usize,
    )
        requires { t < THREADS }
        ensures { self.new ≡ after self.old t 0 (Pending.DomRemove domain range attr)
            (drop taken (thread_at self.old t).pending) }
    {
        let before = self.domain_at(domain);
        let made = removed(&before, range);
        self.edit_domain(t, domain, before, made, taken);
    }

    /// What moving a thread into a domain replies.
    pub(crate) fn move_reply(&self, domain: u8) -> Reply
        ensures { result ≡ move_reply (domain_at self.now domain) }
    {
        match self.domains.get(domain as usize) {
            Some(Some(_)) => Reply::Num(0),
            _ => Reply::Fail(Errno::EINVAL),
        }
    }

    /// A thread moves into a domain, where that is initialised.
    #[tactic(auto, using(crate::proofs::PairLemmas::pendings_kept))]
    pub(crate) fn domain_move(&mut self, t: usize, domain: u8, who: ThreadIx, taken: usize)
        requires { t < THREADS }
        ensures { self.new ≡ after self.old t 0 (Pending.DomMove domain who)
            (drop taken (thread_at self.old t).pending) }
    {
        let reply = self.move_reply(domain);
        self.move_thread(who, domain, reply);
        let thread = &mut self.threads[t];
        thread.reply = reply;
        thread.goes_on(self.image, taken);
    }

    /// A thread moves into a domain, unless that is refused.
    fn move_thread(&mut self, who: ThreadIx, domain: u8, reply: Reply)
        ensures { self.new ≡ write (only (is_number reply) (Effect.moves who.0 domain)) self.old }
    {
        if let Reply::Num(_) = reply {
            if (who.0 as usize) < THREADS {
                self.threads[who.0 as usize].domain = domain;
            }
        }
    }
}
