//! What is asked of the word of a thread index, and the word that it leaves: the only code that steps a thread's word.

ghost use Rattle.std.specs.Prelude.{◌≡◌, ◌<◌, ◌&&◌, ◌||◌, false, true, not, IfSome, IsTrue, MatchOption};
ghost use Rattle.um_base.specs.declared.limits.TheConstants.{DOMAINS};
ghost use Rattle.um_machine.specs.State.{is_living};
ghost use Rattle.um_words.specs.{
  Packed.{is_thread, thread_in},
  Steps.{ThreadStep},
  ThreadActs.{event_unless_stopped, thread_act_at, thread_event, thread_takes_at},
  Threads.{ThreadMay, ended_word, thread_after, thread_takes},
};

use crate::events::{checked, shown};
use crate::kind::{LAST, SITES};
use crate::next_word::next_word;
use crate::thread_word::ThreadWord;
use um_base::{Act, Addr, Cause, DOMAINS, Errno, Event, Kind, Mode, Reply, ThreadIx, Want};
use um_machine::Life;

/// What is asked of the word of a thread index, and by which thread.
#[derive(Clone, Copy)]
pub enum ThreadAct {
    /// To begin a line. An aborted thread is killed instead; where it is doomed, or only suspended, its word is read.
    Begin {
        thread: ThreadIx,
        script: u8,
        line: u16,
    },
    /// To end after the last line. Where it is stopped, the same comes instead.
    Exit {
        thread: ThreadIx,
    },
    /// A check of an address where nothing stands.
    Miss {
        thread: ThreadIx,
        addr: Addr,
        kind: Option<Kind>,
        want: Want,
        mode: Mode,
    },
    Answered {
        thread: ThreadIx,
        reply: Reply,
    },
    Fatal {
        thread: ThreadIx,
        reason: u8,
        cause: Cause,
    },
    Doom {
        thread: ThreadIx,
        who: ThreadIx,
    },
    DomMove {
        thread: ThreadIx,
        domain: u8,
        who: ThreadIx,
        reply: Reply,
    },
    /// Mode and domain are those of the new thread.
    Start {
        thread: ThreadIx,
        who: ThreadIx,
        mode: Mode,
        domain: u8,
    },
    EnterUser {
        thread: ThreadIx,
    },
    Abort {
        thread: ThreadIx,
        who: ThreadIx,
    },
    Suspend {
        thread: ThreadIx,
        who: ThreadIx,
    },
    Continue {
        thread: ThreadIx,
        who: ThreadIx,
    },
    Killed {
        thread: ThreadIx,
    },
    /// To note the site of the cell in which the thread's call may wait.
    Note(u16),
    /// To keep the thread's domain.
    Hold,
    /// To let its domain change again.
    LetGo,
    /// To read the word, which changes the step number alone.
    ReadWord,
}

impl ThreadWord {
    pub fn is_living(&self) -> bool
        ensures { result ≡ is_living self.now.life }
    {
        matches!(self.life, Life::Living)
    }

    /// Whether it takes what comes of a begin or an exit.
    fn takes_turn(&self) -> bool
        ensures { result ≡ (self.now.doomed || (self.now.suspended && not self.now.aborted) || is_living self.now.life) }
    {
        self.doomed || (self.suspended && !self.aborted) || self.is_living()
    }

    /// Of a thread that would begin or end, the event, by this word, which the step leaves.
    fn turn(&self, thread: ThreadIx, act: Act) -> Option<Event>
        ensures { result ≡ event_unless_stopped self.now thread act }
    {
        if self.doomed {
            None
        } else if self.aborted {
            shown(thread, Act::Killed)
        } else if self.suspended {
            None
        } else {
            shown(thread, act)
        }
    }

    /// Its life ends, and its call's note.
    fn end(&mut self)
        ensures { self.new ≡ ended_word self.old }
    {
        self.life = Life::Ended;
        self.note = None;
    }
}

impl ThreadAct {
    /// Whether the word takes it.
    #[inline(always)]
    fn is_taken(&self, word: &ThreadWord) -> bool
        ensures { result ≡ thread_takes word.now (thread_act_at word.now self.now) }
    {
        match self {
            ThreadAct::Begin { .. } => word.takes_turn(),
            ThreadAct::Exit { .. } => word.takes_turn(),
            ThreadAct::Miss { .. } => true,
            ThreadAct::Answered { .. } => true,
            ThreadAct::Fatal { .. } => true,
            ThreadAct::Doom { .. } => true,
            ThreadAct::DomMove { domain, .. } => !word.held && (*domain as usize) < DOMAINS,
            ThreadAct::Start { domain, .. } => (*domain as usize) < DOMAINS,
            ThreadAct::EnterUser { .. } => true,
            ThreadAct::Abort { .. } => true,
            ThreadAct::Suspend { .. } => true,
            ThreadAct::Continue { .. } => true,
            ThreadAct::Killed { .. } => word.is_living() && word.aborted,
            ThreadAct::Note(site) => *site < SITES,
            ThreadAct::Hold => !word.held,
            ThreadAct::LetGo => word.held,
            ThreadAct::ReadWord => true,
        }
    }

    /// What is left but for the step number.
    #[inline(always)]
    fn take(&self, word: &mut ThreadWord)
        requires { IsTrue (thread_takes word.old (thread_act_at word.old self.now)) }
        ensures domain { word.old.domain < DOMAINS → word.new.domain < DOMAINS }
        ensures word { word.new ≡ thread_after word.old (thread_act_at word.old self.now) }
    {
        match self {
            ThreadAct::Begin { .. } => {
                if word.aborted && !word.doomed {
                    word.end();
                }
            }
            ThreadAct::Exit { .. } => {
                if !word.doomed && (word.aborted || !word.suspended) {
                    word.end();
                }
            }
            ThreadAct::Miss { .. } => {}
            ThreadAct::Answered { .. } => word.note = None,
            ThreadAct::Fatal { .. } => word.end(),
            ThreadAct::Doom { .. } => word.doomed = true,
            ThreadAct::DomMove { domain, .. } => word.domain = *domain,
            ThreadAct::Start { mode, domain, .. } => {
                word.life = Life::Living;
                word.mode = *mode;
                word.domain = *domain;
                word.aborted = false;
                word.suspended = false;
                word.note = None;
            }
            ThreadAct::EnterUser { .. } => word.mode = Mode::User,
            ThreadAct::Abort { .. } => word.aborted = word.aborted || word.is_living(),
            ThreadAct::Suspend { .. } => word.suspended = word.suspended || word.is_living(),
            ThreadAct::Continue { .. } => word.suspended = word.suspended && !word.is_living(),
            ThreadAct::Killed { .. } => word.end(),
            ThreadAct::Note(site) => word.note = Some(*site),
            ThreadAct::Hold => word.held = true,
            ThreadAct::LetGo => word.held = false,
            ThreadAct::ReadWord => {}
        }
    }

    /// The word that the step leaves; nothing where the word takes no such step.
    #[inline(always)]
    pub fn make(&self, word: &ThreadWord) -> Option<ThreadWord>
        ensures domain { word.now.domain < DOMAINS → IfSome result (λ next. next.domain < DOMAINS) }
        ensures made { MatchOption result
            (thread_takes_at word.now self.now ≡ false)
            (λ next. ThreadMay word.now (thread_act_at word.now self.now) next) }
    {
        Some(next_word!(self, word))
    }

    /// The same of the bits of a word that says something.
    pub fn step(&self, seen: u64) -> Option<u64>
        requires { is_thread seen ≡ true }
        ensures { MatchOption result
            (thread_takes_at (thread_in seen) self.now ≡ false)
            (λ next. ThreadStep seen (thread_act_at (thread_in seen) self.now) next) }
    {
        let Some(word) = ThreadWord::unpack(seen) else {
            unreachable!();
        };
        match self.make(&word) {
            None => None,
            Some(next) => Some(next.pack()),
        }
    }

    /// The event of the step, by the word that it leaves, if a trace shows it.
    #[inline(always)]
    pub fn event(&self, next: &ThreadWord) -> Option<Event>
        ensures { result ≡ thread_event self.now next.now }
    {
        match *self {
            ThreadAct::Begin {
                thread,
                script,
                line,
            } => next.turn(thread, Act::Begin { script, line }),
            ThreadAct::Exit { thread } => next.turn(thread, Act::Exit),
            ThreadAct::Miss {
                thread,
                addr,
                kind,
                want,
                ..
            } => checked(thread, addr, kind, want, Some(Errno::EBADF)),
            ThreadAct::Answered { thread, reply } => shown(thread, Act::Answered { reply }),
            ThreadAct::Fatal {
                thread,
                reason,
                cause,
            } => shown(thread, Act::Fatal { reason, cause }),
            ThreadAct::Doom { thread, who } => shown(thread, Act::Doom { who }),
            ThreadAct::DomMove {
                thread,
                domain,
                who,
                reply,
            } => shown(thread, Act::DomMove { domain, who, reply }),
            ThreadAct::Start { thread, who, .. } => shown(thread, Act::Start { who }),
            ThreadAct::EnterUser { thread } => shown(thread, Act::EnterUser),
            ThreadAct::Abort { thread, who } => {
                let done = next.is_living();
                shown(thread, Act::Abort { who, done })
            }
            ThreadAct::Suspend { thread, who } => {
                let done = next.is_living();
                shown(thread, Act::Suspend { who, done })
            }
            ThreadAct::Continue { thread, who } => {
                let done = next.is_living();
                shown(thread, Act::Continue { who, done })
            }
            ThreadAct::Killed { thread } => shown(thread, Act::Killed),
            ThreadAct::Note(_) => None,
            ThreadAct::Hold => None,
            ThreadAct::LetGo => None,
            ThreadAct::ReadWord => None,
        }
    }
}
