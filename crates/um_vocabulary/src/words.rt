//! The words of values, and the values that texts name.

ghost use Rattle.std.specs.Prelude.{◌≡◌, ◌≤◌, Some, IfSome, IsTrue, length};
ghost use Rattle.um_base.specs.Lawful.{is_dynamic_kind, is_given_attr, is_named_attr};
ghost use Rattle.um_vocabulary.specs.Words as words;

use um_base::{Access, Attr, Errno, Kind, Mode, Mpu, Policy, Want};

const MPUS: [Mpu; 2] = [Mpu::V7, Mpu::V8];

/// The word of a profile of the memory protection unit.
pub fn mpu_word(mpu: Mpu) -> &'static [u8]
    ensures value { result.now ≡ words.mpu_word mpu }
    ensures again { words.mpu_named result.now ≡ Some mpu }
{
    match mpu {
        Mpu::V7 => b"pmsav7",
        Mpu::V8 => b"pmsav8",
    }
}

/// The profile that a text names.
pub fn mpu_named(text: &[u8]) -> Option<Mpu>
    ensures value { result ≡ words.mpu_named text.now }
    ensures word { IfSome result (λ mpu. words.mpu_word mpu ≡ text.now) }
{
    MPUS.iter().copied().find(|mpu| text == mpu_word(*mpu))
}

const POLICIES: [Policy; 2] = [Policy::Abort, Policy::Halt];

/// The word of what an oops does.
pub fn policy_word(policy: Policy) -> &'static [u8]
    ensures value { result.now ≡ words.policy_word policy }
    ensures again { words.policy_named result.now ≡ Some policy }
{
    match policy {
        Policy::Abort => b"abort",
        Policy::Halt => b"halt",
    }
}

/// What a text says that an oops does.
pub fn policy_named(text: &[u8]) -> Option<Policy>
    ensures value { result ≡ words.policy_named text.now }
    ensures word { IfSome result (λ policy. words.policy_word policy ≡ text.now) }
{
    POLICIES
        .iter()
        .copied()
        .find(|policy| text == policy_word(*policy))
}

const MODES: [Mode; 2] = [Mode::User, Mode::Supervisor];

/// The word of a mode.
pub fn mode_word(mode: Mode) -> &'static [u8]
    ensures value { result.now ≡ words.mode_word mode }
    ensures short { length result.now ≤ 10 }
    ensures again { words.mode_named result.now ≡ Some mode }
{
    match mode {
        Mode::User => b"user",
        Mode::Supervisor => b"supervisor",
    }
}

/// The mode that a text names.
pub fn mode_named(text: &[u8]) -> Option<Mode>
    ensures value { result ≡ words.mode_named text.now }
    ensures word { IfSome result (λ mode. words.mode_word mode ≡ text.now) }
{
    MODES.iter().copied().find(|mode| text == mode_word(*mode))
}

/// The attributes, and at the end the one that no description may give.
const ATTRS: [Attr; 7] = [
    Attr::P_RW_U_RW,
    Attr::P_RW_U_RO,
    Attr::P_RW_U_NA,
    Attr::P_RO_U_RO,
    Attr::P_RO_U_NA,
    Attr::P_RX_U_RX,
    Attr::P_RWX_U_RWX,
];

/// The name of a partition's attribute; other rights have none.
pub fn attr_word(attr: Attr) -> &'static [u8]
    ensures value { result.now ≡ words.attr_word attr }
    ensures short { length result.now ≤ 11 }
    ensures again { IsTrue (is_named_attr attr) → words.attr_named result.now ≡ Some attr }
    ensures given_again { IsTrue (is_given_attr attr) → words.given_attr_named result.now ≡ Some attr }
{
    match attr.0 {
        27 => b"P_RW_U_RW",
        11 => b"P_RW_U_RO",
        3 => b"P_RW_U_NA",
        9 => b"P_RO_U_RO",
        1 => b"P_RO_U_NA",
        45 => b"P_RX_U_RX",
        63 => b"P_RWX_U_RWX",
        _ => b"",
    }
}

/// The attribute that a text names in a line of a script.
pub fn attr_named(text: &[u8]) -> Option<Attr>
    ensures value { result ≡ words.attr_named text.now }
    ensures word { IfSome result (λ attr. words.attr_word attr ≡ text.now) }
    ensures fits { IfSome result (λ attr. IsTrue (is_named_attr attr)) }
{
    ATTRS.iter().copied().find(|attr| text == attr_word(*attr))
}

/// The attribute that a text names in a description.
pub fn given_attr_named(text: &[u8]) -> Option<Attr>
    ensures value { result ≡ words.given_attr_named text.now }
    ensures word { IfSome result (λ attr. words.attr_word attr ≡ text.now) }
    ensures fits { IfSome result (λ attr. IsTrue (is_given_attr attr)) }
{
    ATTRS[..6]
        .iter()
        .copied()
        .find(|attr| text == attr_word(*attr))
}

/// The kinds of objects.
const KINDS: [Kind; 8] = [
    Kind::Thread,
    Kind::ThreadStack,
    Kind::Sem,
    Kind::Mutex,
    Kind::Msgq,
    Kind::Stack,
    Kind::Pipe,
    Kind::Timer,
];

/// The word of a kind.
pub fn kind_word(kind: Kind) -> &'static [u8]
    ensures value { result.now ≡ words.kind_word kind }
    ensures short { length result.now ≤ 12 }
    ensures again { words.kind_named result.now ≡ Some kind }
    ensures dynamic_again { IsTrue (is_dynamic_kind kind) → words.dynamic_kind_named result.now ≡ Some kind }
{
    match kind {
        Kind::Thread => b"thread",
        Kind::ThreadStack => b"thread_stack",
        Kind::Sem => b"sem",
        Kind::Mutex => b"mutex",
        Kind::Msgq => b"msgq",
        Kind::Stack => b"stack",
        Kind::Pipe => b"pipe",
        Kind::Timer => b"timer",
    }
}

/// The kind that a text names.
pub fn kind_named(text: &[u8]) -> Option<Kind>
    ensures value { result ≡ words.kind_named text.now }
    ensures word { IfSome result (λ kind. words.kind_word kind ≡ text.now) }
{
    KINDS.iter().copied().find(|kind| text == kind_word(*kind))
}

const DYNAMIC_KINDS: [Kind; 6] = [
    Kind::Thread,
    Kind::Sem,
    Kind::Mutex,
    Kind::Msgq,
    Kind::Stack,
    Kind::Pipe,
];

/// The kind that a text names, of those that can be allocated.
pub fn dynamic_kind_named(text: &[u8]) -> Option<Kind>
    ensures value { result ≡ words.dynamic_kind_named text.now }
    ensures word { IfSome result (λ kind. words.kind_word kind ≡ text.now) }
    ensures fits { IfSome result (λ kind. IsTrue (is_dynamic_kind kind)) }
{
    DYNAMIC_KINDS
        .iter()
        .copied()
        .find(|kind| text == kind_word(*kind))
}

/// An error by its name. This and the two below are words that traces alone have.
pub fn errno_word(error: Errno) -> &'static [u8]
    ensures value { result.now ≡ words.errno_word error }
    ensures short { length result.now ≤ 10 }
    ensures again { words.errno_named result.now ≡ Some error }
{
    match error {
        Errno::EPERM => b"EPERM",
        Errno::EBADF => b"EBADF",
        Errno::EINVAL => b"EINVAL",
        Errno::EADDRINUSE => b"EADDRINUSE",
        Errno::EFAULT => b"EFAULT",
        Errno::EBUSY => b"EBUSY",
        Errno::EAGAIN => b"EAGAIN",
        Errno::ENOMEM => b"ENOMEM",
        Errno::ENOMSG => b"ENOMSG",
        Errno::ENOSPC => b"ENOSPC",
        Errno::ENOENT => b"ENOENT",
        Errno::EPIPE => b"EPIPE",
        Errno::ECANCELED => b"ECANCELED",
        Errno::EDEADLK => b"EDEADLK",
        Errno::EACCES => b"EACCES",
        Errno::ETIMEDOUT => b"ETIMEDOUT",
    }
}

/// The state that a check asks for.
pub fn want_word(want: Want) -> &'static [u8]
    ensures value { result.now ≡ words.want_word want }
    ensures short { length result.now ≤ 6 }
    ensures again { words.want_named result.now ≡ Some want }
{
    match want {
        Want::Init => b"init",
        Want::Uninit => b"uninit",
        Want::Any => b"any",
    }
}

/// What an instruction does with memory.
pub fn access_word(access: Access) -> &'static [u8]
    ensures value { result.now ≡ words.access_word access }
    ensures short { length result.now ≤ 5 }
    ensures again { words.access_named result.now ≡ Some access }
{
    match access {
        Access::Read => b"read",
        Access::Write => b"write",
        Access::Exec => b"exec",
    }
}
