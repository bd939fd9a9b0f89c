//! The words that lines begin with, each by the name of its instruction. The calls have Zephyr's names.

ghost use Rattle.std.specs.Prelude.{◌≡◌, ◌==◌, IfSome, IsTrue, length, find, filter, bytes_eq};
ghost use Rattle.um_script.specs.Instructions.{spelling, mnemonics};

/// What a line does.
#[derive(Clone, Copy)]
pub enum Mnemonic {
    End,
    Oops,
    Panic,
    Repeat,
    Set,
    Add,
    Load,
    Store,
    Exec,
    DomainInit,
    DomainAdd,
    DomainRemove,
    DomainMove,
    ObjectAlloc,
    Grant,
    Revoke,
    Release,
    AllGrant,
    Create,
    UserMode,
    NameSet,
    SemInit,
    SemTake,
    SemGive,
    SemReset,
    SemCount,
    MutexInit,
    MutexLock,
    MutexUnlock,
    MsgqInit,
    MsgqPut,
    MsgqGet,
    MsgqPeek,
    MsgqPurge,
    MsgqUsed,
    StackInit,
    StackPush,
    StackPop,
    PipeInit,
    PipeWrite,
    PipeRead,
    PipeReset,
    PipeClose,
    TimerStart,
    TimerStop,
    TimerStatus,
    TimerSync,
    Abort,
    Join,
    Suspend,
    Continue,
    FutexWait,
    FutexWake,
}

/// All, the shortest words first.
const ALL: [Mnemonic; 53] = [
    Mnemonic::End,
    Mnemonic::Set,
    Mnemonic::Add,
    Mnemonic::Load,
    Mnemonic::Exec,
    Mnemonic::Store,
    Mnemonic::Oops,
    Mnemonic::Repeat,
    Mnemonic::Panic,
    Mnemonic::SemInit,
    Mnemonic::SemTake,
    Mnemonic::SemGive,
    Mnemonic::MsgqPut,
    Mnemonic::MsgqGet,
    Mnemonic::SemReset,
    Mnemonic::MsgqPeek,
    Mnemonic::StackPop,
    Mnemonic::PipeInit,
    Mnemonic::PipeRead,
    Mnemonic::MutexInit,
    Mnemonic::MutexLock,
    Mnemonic::MsgqPurge,
    Mnemonic::StackPush,
    Mnemonic::PipeWrite,
    Mnemonic::PipeReset,
    Mnemonic::PipeClose,
    Mnemonic::TimerStop,
    Mnemonic::FutexWait,
    Mnemonic::FutexWake,
    Mnemonic::TimerStart,
    Mnemonic::Join,
    Mnemonic::ObjectAlloc,
    Mnemonic::MutexUnlock,
    Mnemonic::Abort,
    Mnemonic::Create,
    Mnemonic::SemCount,
    Mnemonic::Continue,
    Mnemonic::Release,
    Mnemonic::Suspend,
    Mnemonic::DomainInit,
    Mnemonic::NameSet,
    Mnemonic::MsgqInit,
    Mnemonic::StackInit,
    Mnemonic::TimerStatus,
    Mnemonic::MsgqUsed,
    Mnemonic::TimerSync,
    Mnemonic::Grant,
    Mnemonic::Revoke,
    Mnemonic::DomainMove,
    Mnemonic::UserMode,
    Mnemonic::AllGrant,
    Mnemonic::DomainAdd,
    Mnemonic::DomainRemove,
];

/// Some that hold all whose words have this length.
fn of_length(size: usize) -> &'static [Mnemonic]
    ensures { filter (λ m. length (spelling m) == size) result.now ≡ filter (λ m. length (spelling m) == size) mnemonics }
{
    let all: &'static [Mnemonic] = &ALL;
    match size {
        3 => &all[..3],
        4 => &all[3..5],
        5 => &all[5..6],
        6 => &all[6..8],
        7 => &all[8..9],
        10 => &all[9..14],
        11 => &all[14..19],
        12 => &all[19..29],
        13 => &all[29..31],
        14 => &all[31..34],
        15 => &all[34..37],
        16 => &all[37..39],
        17 => &all[39..42],
        _ => all,
    }
}

/// The one among some whose word this is.
fn among(some: &[Mnemonic], word: &[u8]) -> Option<Mnemonic>
    ensures { result ≡ find (λ m. bytes_eq word.now (spelling m)) some.now }
{
    some.iter()
        .copied()
        .find(|mnemonic| word == mnemonic.word())
}

impl Mnemonic {
    /// The word.
    pub fn word(self) -> &'static [u8]
        ensures { result.now ≡ spelling self }
    {
        match self {
            Mnemonic::End => b"end",
            Mnemonic::Oops => b"k_oops",
            Mnemonic::Panic => b"k_panic",
            Mnemonic::Repeat => b"repeat",
            Mnemonic::Set => b"set",
            Mnemonic::Add => b"add",
            Mnemonic::Load => b"load",
            Mnemonic::Store => b"store",
            Mnemonic::Exec => b"exec",
            Mnemonic::DomainInit => b"k_mem_domain_init",
            Mnemonic::DomainAdd => b"k_mem_domain_add_partition",
            Mnemonic::DomainRemove => b"k_mem_domain_remove_partition",
            Mnemonic::DomainMove => b"k_mem_domain_add_thread",
            Mnemonic::ObjectAlloc => b"k_object_alloc",
            Mnemonic::Grant => b"k_object_access_grant",
            Mnemonic::Revoke => b"k_object_access_revoke",
            Mnemonic::Release => b"k_object_release",
            Mnemonic::AllGrant => b"k_object_access_all_grant",
            Mnemonic::Create => b"k_thread_create",
            Mnemonic::UserMode => b"k_thread_user_mode_enter",
            Mnemonic::NameSet => b"k_thread_name_set",
            Mnemonic::SemInit => b"k_sem_init",
            Mnemonic::SemTake => b"k_sem_take",
            Mnemonic::SemGive => b"k_sem_give",
            Mnemonic::SemReset => b"k_sem_reset",
            Mnemonic::SemCount => b"k_sem_count_get",
            Mnemonic::MutexInit => b"k_mutex_init",
            Mnemonic::MutexLock => b"k_mutex_lock",
            Mnemonic::MutexUnlock => b"k_mutex_unlock",
            Mnemonic::MsgqInit => b"k_msgq_alloc_init",
            Mnemonic::MsgqPut => b"k_msgq_put",
            Mnemonic::MsgqGet => b"k_msgq_get",
            Mnemonic::MsgqPeek => b"k_msgq_peek",
            Mnemonic::MsgqPurge => b"k_msgq_purge",
            Mnemonic::MsgqUsed => b"k_msgq_num_used_get",
            Mnemonic::StackInit => b"k_stack_alloc_init",
            Mnemonic::StackPush => b"k_stack_push",
            Mnemonic::StackPop => b"k_stack_pop",
            Mnemonic::PipeInit => b"k_pipe_init",
            Mnemonic::PipeWrite => b"k_pipe_write",
            Mnemonic::PipeRead => b"k_pipe_read",
            Mnemonic::PipeReset => b"k_pipe_reset",
            Mnemonic::PipeClose => b"k_pipe_close",
            Mnemonic::TimerStart => b"k_timer_start",
            Mnemonic::TimerStop => b"k_timer_stop",
            Mnemonic::TimerStatus => b"k_timer_status_get",
            Mnemonic::TimerSync => b"k_timer_status_sync",
            Mnemonic::Abort => b"k_thread_abort",
            Mnemonic::Join => b"k_thread_join",
            Mnemonic::Suspend => b"k_thread_suspend",
            Mnemonic::Continue => b"k_thread_resume",
            Mnemonic::FutexWait => b"k_futex_wait",
            Mnemonic::FutexWake => b"k_futex_wake",
        }
    }

    /// The one whose word this is. It is looked for among those of the same length.
    pub fn of_word(word: &[u8]) -> Option<Mnemonic>
        ensures { result ≡ find (λ m. bytes_eq word.now (spelling m)) mnemonics }
    {
        among(of_length(word.len()), word)
    }
}
