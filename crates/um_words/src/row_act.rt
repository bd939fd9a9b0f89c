//! What is asked of the word of a row, the word that it leaves, and what the word says: the only code that steps a row's word.

ghost use Rattle.std.specs.Prelude.{◌≡◌, ◌<◌, false, IsTrue, MatchOption};
ghost use Rattle.um_words.specs.{
  Packed.{row_of},
  RowActs.{drop_said, row_act_at, row_answers, row_event, row_takes_at},
  Rows.{RowMay, dropped, left_of, row_after, row_takes},
  Steps.{RowStep},
};

use crate::events::{checked, shown};
use crate::row_word::RowWord;
use um_base::{Act, Addr, Errno, Event, Given, Kind, Leftover, Mode, SetSaid, ThreadIx, Want};

/// The greatest step number: there the word takes no step.
const LAST: u32 = 0xf_ffff;

/// What is asked of the word of a row, and by which thread.
#[derive(Clone, Copy)]
pub enum RowAct {
    /// To hold the object for a call, where it passes the check. Fits: the row has the wanted kind.
    Check {
        thread: ThreadIx,
        addr: Addr,
        kind: Option<Kind>,
        want: Want,
        mode: Mode,
        fits: bool,
    },
    Grant {
        thread: ThreadIx,
        who: ThreadIx,
        addr: Addr,
    },
    Own {
        thread: ThreadIx,
        who: ThreadIx,
    },
    /// To pass the thread's permission on, where it has one and the other hasn't.
    Pass {
        thread: ThreadIx,
        who: ThreadIx,
        addr: Addr,
    },
    DropPair {
        thread: ThreadIx,
        who: ThreadIx,
        addr: Addr,
    },
    /// To drop a permission, where there is one.
    Sweep {
        thread: ThreadIx,
        who: ThreadIx,
        addr: Addr,
    },
    Publish {
        thread: ThreadIx,
        addr: Addr,
    },
    SetInit {
        thread: ThreadIx,
        addr: Addr,
        strict: bool,
    },
    ClearInit {
        thread: ThreadIx,
        addr: Addr,
    },
    Born {
        thread: ThreadIx,
        addr: Addr,
    },
    EndCall,
    Vacate,
}

/// What the word of a row says.
#[derive(Clone, Copy, PartialEq, Eq)]
pub struct RowSaid {
    pub verdict: Option<Errno>,
    pub given: Given,
    pub left: Leftover,
    pub set: SetSaid,
    /// Whether there was nothing to pass on or to drop.
    pub visits: bool,
    /// Whether the row came to cleaning by this step.
    pub cleans: bool,
}

/// A row that says nothing.
const QUIET: RowSaid = RowSaid {
    verdict: None,
    given: Given::Done,
    left: Leftover::NoPair,
    set: SetSaid::Done,
    visits: false,
    cleans: false,
};

/// A permission is taken away.
fn drops(word: &mut RowWord, who: ThreadIx) -> RowSaid
    ensures word { word.new ≡ dropped word.old who.0 }
    ensures said { result ≡ drop_said (left_of word.old who.0) word.new }
{
    match word.drop_one(who.0) {
        Leftover::Gone => RowSaid {
            left: Leftover::Gone,
            cleans: word.is_cleaning(),
            ..QUIET
        },
        Leftover::Kept => RowSaid {
            left: Leftover::Kept,
            ..QUIET
        },
        Leftover::NoPair => QUIET,
    }
}

impl RowAct {
    /// Whether the word takes it.
    #[inline(always)]
    fn is_taken(&self, word: &RowWord) -> bool
        ensures { result ≡ row_takes word.now (row_act_at word.now self.now) }
    {
        match self {
            RowAct::Check { .. } => word.claims < 127,
            RowAct::Own { .. } => word.claims < 127 && !word.is_free() && !word.is_cleaning(),
            RowAct::Grant { .. } => !word.is_free(),
            RowAct::Publish { .. } => !word.is_free(),
            RowAct::SetInit { .. } => !word.is_free(),
            RowAct::ClearInit { .. } => !word.is_free(),
            RowAct::Born { .. } => word.is_free(),
            RowAct::DropPair { .. } => true,
            RowAct::Pass { .. } => true,
            RowAct::Sweep { .. } => true,
            RowAct::EndCall => 0 < word.claims,
            RowAct::Vacate => word.is_cleaning() && word.claims == 0,
        }
    }

    /// What the word says, and the word that is left but for its step number.
    #[inline(always)]
    fn take(&self, word: &mut RowWord) -> RowSaid
        requires { IsTrue (row_takes word.old (row_act_at word.old self.now)) }
        ensures word { word.new ≡ row_after word.old (row_act_at word.old self.now) }
        ensures said { result ≡ row_answers word.old self.now }
    {
        match self {
            RowAct::Check {
                thread,
                want,
                mode,
                fits,
                ..
            } => RowSaid {
                verdict: word.check(thread.0, *mode, *fits, *want),
                ..QUIET
            },
            RowAct::Grant { who, .. } => RowSaid {
                given: word.grant(who.0),
                ..QUIET
            },
            RowAct::Own { who, .. } => RowSaid {
                given: word.own(who.0),
                ..QUIET
            },
            RowAct::Pass { thread, who, .. } => {
                if word.has(thread.0) && !word.has(who.0) {
                    word.inherit(who.0);
                    return QUIET;
                }
                RowSaid {
                    visits: true,
                    ..QUIET
                }
            }
            RowAct::DropPair { who, .. } => drops(word, *who),
            RowAct::Sweep { who, .. } => {
                if word.has(who.0) {
                    return drops(word, *who);
                }
                RowSaid {
                    visits: true,
                    ..QUIET
                }
            }
            RowAct::Publish { .. } => RowSaid {
                given: word.publish(),
                ..QUIET
            },
            RowAct::SetInit { strict, .. } => RowSaid {
                set: word.set_init(*strict),
                ..QUIET
            },
            RowAct::ClearInit { .. } => {
                word.init = false;
                QUIET
            }
            RowAct::Born { thread, .. } => {
                word.born(thread.0);
                QUIET
            }
            RowAct::EndCall => {
                word.end_call();
                RowSaid {
                    cleans: word.is_cleaning(),
                    ..QUIET
                }
            }
            RowAct::Vacate => {
                word.vacate();
                QUIET
            }
        }
    }

    /// The word that the step leaves, with what it says; nothing where the word takes no such step.
    #[inline(always)]
    pub fn make(&self, word: &RowWord) -> Option<(RowWord, RowSaid)>
        ensures { MatchOption result
            (row_takes_at word.now self.now ≡ false)
            (λ made. RowMay word.now (row_act_at word.now self.now) made.0 × (made.1 ≡ row_answers word.now self.now)) }
    {
        if word.number >= LAST || !self.is_taken(word) {
            return None;
        }
        let mut next = *word;
        let said = self.take(&mut next);
        next.number += 1;
        Some((next, said))
    }

    /// The same of the bits of a word.
    pub fn step(&self, seen: u64) -> Option<(u64, RowSaid)>
        ensures { MatchOption result
            (row_takes_at (row_of seen) self.now ≡ false)
            (λ made. RowStep seen (row_act_at (row_of seen) self.now) made.0 × (made.1 ≡ row_answers (row_of seen) self.now)) }
    {
        let word = RowWord::read(seen);
        let (next, said) = match self.make(&word) {
            None => return None,
            Some(made) => made,
        };
        Some((next.pack(), said))
    }

    /// The event of the step, by what the word says, if a trace shows it.
    #[inline(always)]
    pub fn event(&self, said: &RowSaid) -> Option<Event>
        ensures { result ≡ row_event self.now said.now }
    {
        match *self {
            RowAct::Check {
                thread,
                addr,
                kind,
                want,
                ..
            } => {
                let verdict = said.verdict;
                checked(thread, addr, kind, want, verdict)
            }
            RowAct::Grant { thread, who, addr } => {
                let given = said.given;
                shown(thread, Act::Grant { who, addr, given })
            }
            RowAct::Own { thread, who } => {
                let given = said.given;
                shown(thread, Act::Own { who, given })
            }
            RowAct::Pass { thread, who, addr } => {
                if said.visits {
                    return None;
                }
                shown(thread, Act::Inherit { who, addr })
            }
            RowAct::DropPair { thread, who, addr } => {
                let left = said.left;
                shown(thread, Act::DropPair { who, addr, left })
            }
            RowAct::Sweep { thread, who, addr } => {
                if said.visits {
                    return None;
                }
                let left = said.left;
                shown(thread, Act::DropPair { who, addr, left })
            }
            RowAct::Publish { thread, addr } => {
                let given = said.given;
                shown(thread, Act::Publish { addr, given })
            }
            RowAct::SetInit { thread, addr, .. } => {
                let set = said.set;
                shown(thread, Act::SetInit { addr, set })
            }
            RowAct::ClearInit { thread, addr } => shown(thread, Act::ClearInit { addr }),
            RowAct::Born { thread, addr } => shown(thread, Act::Born { addr }),
            RowAct::EndCall => None,
            RowAct::Vacate => None,
        }
    }
}
