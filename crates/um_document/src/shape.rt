//! The shape of a description: which keys stand where, and what their values are.

ghost use Rattle.std.specs.Prelude.{◌≡◌, flat_map};
ghost use Rattle.um_document.specs.Shape as shape;
ghost use Rattle.um_vocabulary.specs.Words.{kinds};

use um_base::Kind;

/// The lists of entries.
#[derive(Clone, Copy, PartialEq, Eq)]
pub enum Section {
    /// `pool`: resource pools, at most 4.
    Pool,
    /// `partition` in version 1: memory partitions, each with its size, at most 32.
    Partition,
    /// `partition` in version 2: memory partitions, each with the variables that lie in it, at most 32.
    PackedPartition,
    /// `domain`: memory domains, at most 8.
    Domain,
    /// `object`: kernel objects, at most 96.
    Object,
    /// `boot`: threads that are ready from the beginning, at most 28.
    Boot,
    /// `script`: scripts, at most 32.
    Script,
    /// `futex`: words in memory on which threads wait, at most 16.
    Futex,
}

/// The keys of all tables, each written as its name in lower case with `_` between words.
#[derive(Clone, Copy, PartialEq, Eq)]
pub enum Key {
    /// Of the whole: the version of the form, 1 or 2.
    Version,
    /// Of the whole: the profile of the memory protection unit.
    Mpu,
    /// Of the whole: how many regions that unit has, 4 to 32.
    Regions,
    /// Of the whole: what a fatal error does.
    Oops,
    /// Of the whole: the bytes of the read-only data, at most 65,536.
    Rodata,
    /// Of the whole the section, of a boot entry the name of its resource pool (`k_thread_heap_assign`).
    Pool,
    /// Of the whole the section (`K_APPMEM_PARTITION_DEFINE`), of a futex the name of its partition.
    Partition,
    /// Of the whole the section, of a boot entry the name of its memory domain (`k_mem_domain`).
    Domain,
    /// Of the whole: the section.
    Object,
    /// Of the whole: the section.
    Boot,
    /// Of the whole the section, of a boot entry the name of its script.
    Script,
    /// Of an entry: its name, of 1 to 24 letters, digits or `_`.
    Name,
    /// Bytes: of a pool 0 to 65,536, of a partition, a variable and a thread stack 1 to 65,536, of a pipe 1 to 256.
    Size,
    /// Of a partition: its attribute, in Zephyr `k_mem_partition_attr_t`.
    Attr,
    /// Of a partition or a variable: the bytes at its start, at most its size.
    Data,
    /// Of a partition in version 2: the variables that lie in it, 1 to 32.
    Vars,
    /// Of a variable: 1, 2, 4, 8, 16 or 32, of which its offset is a multiple.
    Align,
    /// Of a domain: the names of its partitions.
    Partitions,
    /// Of an object: its kind, in Zephyr `k_objects`.
    Kind,
    /// Of an object: whether all threads have the permission.
    Public,
    /// Of a semaphore: its count, 0 to its limit.
    Count,
    /// Of a semaphore: its limit, 1 to 4,294,967,295.
    Limit,
    /// Of a mutex: whether it is initialised.
    Init,
    /// Of a message queue: bytes of a message, 1 to 256.
    MsgSize,
    /// Of a message queue: how many messages it holds, 1 to 64.
    MaxMsgs,
    /// Of a stack: how many values of 4 bytes it holds, 1 to 64.
    Entries,
    /// Of a boot entry: the name of its thread object.
    Thread,
    /// Of a boot entry: the name of its thread stack.
    Stack,
    /// Of a boot entry: -16 to 14; a lower number is a higher priority.
    Priority,
    /// Of a boot entry: user or supervisor.
    Mode,
    /// Of a boot entry: the names of the objects that it has the permission for.
    Grants,
    /// Of a script: its lines, 1 to 1,000.
    Lines,
    /// Of the whole: the section, in Zephyr `k_futex`.
    Futex,
    /// Of a futex: where it lies in its partition, 0 to the partition's size less 4.
    Offset,
}

/// What a word may say.
#[derive(Clone, Copy, PartialEq, Eq)]
pub enum Choice {
    Mpu,
    Policy,
    Attr,
    Kind,
    Mode,
}

/// What a value is.
#[derive(Clone, Copy, PartialEq, Eq)]
pub enum Form {
    Number,
    Truth,
    /// The name of an entry.
    Name,
    /// One of a few words.
    Word(Choice),
    /// Any text, as a name that is looked up or a line.
    Text,
    /// Bytes as pairs of lower-case hexadecimal digits.
    Digits,
    /// A list of texts.
    Texts,
    /// A list of tables.
    Tables,
    /// The list of a partition's variables.
    Variables,
    /// The number of an alignment.
    Alignment,
    /// An entry, or a variable.
    Table,
}

/// Whether a key has to be there: always, never, or where another one is.
#[derive(Clone, Copy, PartialEq, Eq)]
pub enum Need {
    Required,
    Optional,
    With(Key),
}

/// A key with what its value is.
pub type Field = (Key, Form, Need);

impl Key {
    /// The key as it is written.
    pub fn word(self) -> &'static str
        ensures { result.now ≡ shape.word self }
    {
        match self {
            Key::Version => "version",
            Key::Mpu => "mpu",
            Key::Regions => "regions",
            Key::Oops => "oops",
            Key::Rodata => "rodata",
            Key::Pool => "pool",
            Key::Partition => "partition",
            Key::Domain => "domain",
            Key::Object => "object",
            Key::Boot => "boot",
            Key::Script => "script",
            Key::Name => "name",
            Key::Size => "size",
            Key::Attr => "attr",
            Key::Data => "data",
            Key::Vars => "vars",
            Key::Align => "align",
            Key::Partitions => "partitions",
            Key::Kind => "kind",
            Key::Public => "public",
            Key::Count => "count",
            Key::Limit => "limit",
            Key::Init => "init",
            Key::MsgSize => "msg_size",
            Key::MaxMsgs => "max_msgs",
            Key::Entries => "entries",
            Key::Thread => "thread",
            Key::Stack => "stack",
            Key::Priority => "priority",
            Key::Mode => "mode",
            Key::Grants => "grants",
            Key::Lines => "lines",
            Key::Futex => "futex",
            Key::Offset => "offset",
        }
    }
}

/// The sections of version 1, in their order.
pub const FIRST_SECTIONS: &[Section] = &[
    Section::Pool,
    Section::Partition,
    Section::Domain,
    Section::Object,
    Section::Boot,
    Section::Script,
    Section::Futex,
];

/// The sections of version 2, in their order.
pub const SECOND_SECTIONS: &[Section] = &[
    Section::Pool,
    Section::PackedPartition,
    Section::Domain,
    Section::Object,
    Section::Boot,
    Section::Script,
    Section::Futex,
];

/// The keys of the whole document.
const TOP: &[Field] = &[
    (Key::Version, Form::Number, Need::Required),
    (Key::Mpu, Form::Word(Choice::Mpu), Need::Required),
    (Key::Regions, Form::Number, Need::Required),
    (Key::Oops, Form::Word(Choice::Policy), Need::Required),
    (Key::Rodata, Form::Digits, Need::Optional),
    (Key::Pool, Form::Tables, Need::Optional),
    (Key::Partition, Form::Tables, Need::Optional),
    (Key::Domain, Form::Tables, Need::Optional),
    (Key::Object, Form::Tables, Need::Optional),
    (Key::Boot, Form::Tables, Need::Optional),
    (Key::Script, Form::Tables, Need::Optional),
    (Key::Futex, Form::Tables, Need::Optional),
];

/// The name that an entry has.
const NAME: Field = (Key::Name, Form::Name, Need::Required);

/// How many bytes an entry takes.
const SIZE: Field = (Key::Size, Form::Number, Need::Required);

/// The attribute of a partition.
const ATTR: Field = (Key::Attr, Form::Word(Choice::Attr), Need::Required);

/// The first bytes of what an entry takes.
const DATA: Field = (Key::Data, Form::Digits, Need::Optional);

const POOL: &[Field] = &[NAME, SIZE];

const PARTITION: &[Field] = &[NAME, SIZE, ATTR, DATA];

const PACKED_PARTITION: &[Field] = &[NAME, ATTR, (Key::Vars, Form::Variables, Need::Required)];

const VARIABLE: &[Field] = &[
    NAME,
    SIZE,
    (Key::Align, Form::Alignment, Need::Optional),
    DATA,
];

const DOMAIN: &[Field] = &[NAME, (Key::Partitions, Form::Texts, Need::Optional)];

/// The keys of an object of any kind.
const OBJECT: &[Field] = &[
    NAME,
    (Key::Kind, Form::Word(Choice::Kind), Need::Required),
    (Key::Public, Form::Truth, Need::Optional),
];

const BOOT: &[Field] = &[
    (Key::Thread, Form::Text, Need::Required),
    (Key::Stack, Form::Text, Need::Required),
    (Key::Script, Form::Text, Need::Required),
    (Key::Priority, Form::Number, Need::Required),
    (Key::Domain, Form::Text, Need::Required),
    (Key::Mode, Form::Word(Choice::Mode), Need::Optional),
    (Key::Pool, Form::Text, Need::Optional),
    (Key::Grants, Form::Texts, Need::Optional),
];

const SCRIPT: &[Field] = &[NAME, (Key::Lines, Form::Texts, Need::Required)];

const FUTEX: &[Field] = &[
    NAME,
    (Key::Partition, Form::Text, Need::Required),
    (Key::Offset, Form::Number, Need::Required),
];

const THREAD_STACK: &[Field] = &[SIZE];

const SEM: &[Field] = &[
    (Key::Count, Form::Number, Need::With(Key::Limit)),
    (Key::Limit, Form::Number, Need::With(Key::Count)),
];

const MUTEX: &[Field] = &[(Key::Init, Form::Truth, Need::Optional)];

const MSGQ: &[Field] = &[
    (Key::MsgSize, Form::Number, Need::With(Key::MaxMsgs)),
    (Key::MaxMsgs, Form::Number, Need::With(Key::MsgSize)),
];

const STACK: &[Field] = &[(Key::Entries, Form::Number, Need::Optional)];

const PIPE: &[Field] = &[(Key::Size, Form::Number, Need::Optional)];

/// The keys of the whole document.
pub fn top_fields() -> &'static [Field]
    ensures { result.now ≡ shape.top_fields }
{
    TOP
}

/// The keys of a variable.
pub fn variable_fields() -> &'static [Field]
    ensures { result.now ≡ shape.variable_fields }
{
    VARIABLE
}

impl Section {
    /// The key at which its entries stand.
    pub fn key(self) -> Key
        ensures { result ≡ shape.section_key self }
    {
        match self {
            Section::Pool => Key::Pool,
            Section::Partition | Section::PackedPartition => Key::Partition,
            Section::Domain => Key::Domain,
            Section::Object => Key::Object,
            Section::Boot => Key::Boot,
            Section::Script => Key::Script,
            Section::Futex => Key::Futex,
        }
    }

    /// The keys of each of its entries.
    pub fn fields(self) -> &'static [Field]
        ensures { result.now ≡ shape.section_fields self }
    {
        match self {
            Section::Pool => POOL,
            Section::Partition => PARTITION,
            Section::PackedPartition => PACKED_PARTITION,
            Section::Domain => DOMAIN,
            Section::Object => OBJECT,
            Section::Boot => BOOT,
            Section::Script => SCRIPT,
            Section::Futex => FUTEX,
        }
    }
}

/// The further keys of an object of this kind.
pub fn kind_fields(kind: Kind) -> &'static [Field]
    ensures { result.now ≡ shape.kind_fields kind }
{
    match kind {
        Kind::Thread | Kind::Timer => &[],
        Kind::ThreadStack => THREAD_STACK,
        Kind::Sem => SEM,
        Kind::Mutex => MUTEX,
        Kind::Msgq => MSGQ,
        Kind::Stack => STACK,
        Kind::Pipe => PIPE,
    }
}

/// The further keys of objects of all kinds.
const ANY_KIND: &[Field] = &[
    SIZE,
    (Key::Count, Form::Number, Need::With(Key::Limit)),
    (Key::Limit, Form::Number, Need::With(Key::Count)),
    (Key::Init, Form::Truth, Need::Optional),
    (Key::MsgSize, Form::Number, Need::With(Key::MaxMsgs)),
    (Key::MaxMsgs, Form::Number, Need::With(Key::MsgSize)),
    (Key::Entries, Form::Number, Need::Optional),
    (Key::Size, Form::Number, Need::Optional),
];

/// The further keys of objects of all kinds.
pub fn any_kind_fields() -> &'static [Field]
    ensures { result.now ≡ flat_map shape.kind_fields kinds }
{
    ANY_KIND
}
