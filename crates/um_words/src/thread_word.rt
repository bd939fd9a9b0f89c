//! The word of a thread index.

ghost use Rattle.std.specs.Prelude.{◌≡◌, ◌<◌, Some, IfSome, not, true};
ghost use Rattle.um_machine.specs.State.{is_user};
ghost use Rattle.um_words.specs.Packed.{FitsThread, is_thread, packed_thread, thread_in, thread_of};

use um_base::Mode;
use um_machine::Life;

/// What stands in the word of a thread index.
#[derive(Clone, Copy)]
pub struct ThreadWord {
    pub life: Life,
    pub doomed: bool,
    /// Whether the thread is held, so that its domain stays as it is.
    pub held: bool,
    pub mode: Mode,
    /// Below 8.
    pub domain: u8,
    /// Whether it has to end as soon as it is at rest or waits.
    pub aborted: bool,
    /// Whether it may begin no line and not exit for now.
    pub suspended: bool,
    /// The site of the cell in which its call may wait.
    pub note: Option<u16>,
    /// How many steps the word has taken, below 2^28.
    pub number: u32,
}

fn life_code(life: Life) -> u64
    ensures { result ≡ Rattle.um_words.specs.Packed.life_code life }
{
    match life {
        Life::Unborn => 0,
        Life::Living => 1,
        Life::Ended => 2,
    }
}

/// The life with this code. There are three codes, and each is the value's own number, so this compiles to nothing.
fn life_of(code: u64) -> Life
    requires { code < 3 }
    ensures { result ≡ Rattle.um_words.specs.Packed.life_of code }
{
    match code {
        0 => Life::Unborn,
        1 => Life::Living,
        2 => Life::Ended,
        _ => unreachable!(),
    }
}

fn is_supervisor(mode: Mode) -> bool
    ensures { result ≡ not (is_user mode) }
{
    match mode {
        Mode::User => false,
        Mode::Supervisor => true,
    }
}

fn note_code(note: Option<u16>) -> u64
    ensures { result ≡ Rattle.um_words.specs.Packed.note_code note }
{
    match note {
        None => 0,
        Some(site) => 1 + 2 * u64::from(site),
    }
}

fn note_of(code: u64) -> Option<u16>
    requires { code < 131072 }
    ensures { result ≡ Rattle.um_words.specs.Packed.note_of code }
{
    if code % 2 == 1 {
        Some((code / 2) as u16)
    } else {
        None
    }
}

fn mode_of(supervisor: bool) -> Mode
    ensures { result ≡ Rattle.um_words.specs.Packed.mode_of supervisor }
{
    if supervisor {
        Mode::Supervisor
    } else {
        Mode::User
    }
}

fn is_note(code: u64) -> bool
    ensures { result ≡ Rattle.um_words.specs.Packed.is_note code }
{
    code % 2 == 1 || code == 0
}

fn is_thread(word: u64) -> bool
    ensures { result ≡ is_thread word }
{
    word % 4 < 3 && word / 0x800_0000 % 0x200 == 0 && is_note(word / 0x400 % 0x2_0000)
}

impl ThreadWord {
    /// Its 64 bits, which `unpack` takes apart.
    pub fn pack(&self) -> u64
        requires { FitsThread self.now }
        ensures value { result ≡ packed_thread self.now }
        ensures back { thread_of result ≡ Some (self.now) }
    {
        let flags = life_code(self.life)
            + 4 * u64::from(self.doomed)
            + 8 * u64::from(self.held)
            + 16 * u64::from(is_supervisor(self.mode));
        let stops = 32 * u64::from(self.domain)
            + 0x100 * u64::from(self.aborted)
            + 0x200 * u64::from(self.suspended);
        flags + stops + 0x400 * note_code(self.note) + 0x10_0000_0000 * u64::from(self.number)
    }

    /// Reads a word: `None` if a bit is set that has to be zero, if the life's code is none of the three, or if there is a site that isn't
    /// noted.
    pub fn unpack(word: u64) -> Option<ThreadWord>
        ensures value { result ≡ thread_of word }
        ensures back { IfSome result (λ t. packed_thread t ≡ word) }
        ensures fits { IfSome result FitsThread }
    {
        if !is_thread(word) {
            return None;
        }
        Some(ThreadWord::read(word))
    }

    /// What stands in a word that says something.
    fn read(word: u64) -> ThreadWord
        requires { is_thread word ≡ true }
        ensures value { result ≡ thread_in word }
        ensures back { packed_thread result ≡ word }
        ensures fits { FitsThread result }
    {
        ThreadWord {
            life: life_of(word % 4),
            doomed: word / 4 % 2 == 1,
            held: word / 8 % 2 == 1,
            mode: mode_of(word / 16 % 2 == 1),
            domain: (word / 32 % 8) as u8,
            aborted: word / 0x100 % 2 == 1,
            suspended: word / 0x200 % 2 == 1,
            note: note_of(word / 0x400 % 0x2_0000),
            number: (word / 0x10_0000_0000) as u32,
        }
    }
}
