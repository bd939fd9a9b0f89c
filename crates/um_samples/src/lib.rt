//! Descriptions that tests of several crates read, texts of their runs, and an image without anything.
#![tactic(auto)]

/// A description of version 1 for a unit of eight regions of the seventh version, with this behind its head.
#[macro_export]
macro_rules! described {
    ($sections:literal) => {
        concat!(
            "version = 1\nmpu = \"pmsav7\"\nregions = 8\noops = \"abort\"\n",
            $sections
        )
    };
}

/// An image without anything.
#[macro_export]
macro_rules! empty_image {
    ($alloc:expr) => {
        um_base::Image {
            mpu: um_base::Mpu::V8,
            regions: 8,
            policy: um_base::Policy::Abort,
            rodata: None,
            rodata_bytes: um_base::BoundedVec::new($alloc),
            pools: um_base::BoundedVec::new($alloc),
            partitions: um_base::BoundedVec::new($alloc),
            domains: um_base::BoundedVec::new($alloc),
            objects: um_base::BoundedVec::new($alloc),
            boots: um_base::BoundedVec::new($alloc),
            scripts: um_base::BoundedVec::new($alloc),
            futexes: um_base::BoundedVec::new($alloc),
        }
    };
}

/// A store to the last byte of a partition, and a load past it.
pub const LAST_BYTE: &str = described!(
    "partition = [{name = \"p\", size = 32, attr = \"P_RW_U_RW\"}]
domain = [{name = \"d\", partitions = [\"p\"]}]
object = [{name = \"a\", kind = \"thread\"}, {name = \"sa\", kind = \"thread_stack\", size = 64}]
boot = [{thread = \"a\", stack = \"sa\", script = \"m\", priority = 0, domain = \"d\"}]
script = [{name = \"m\", lines = [\"store @p+31 1 0xab\", \"load r0 @p+32 1\"]}]
"
);

/// The text of its run.
pub const LAST_BYTE_RUN: &str = "a begin m 1
a store 0x2000001f 1 0xab
a begin m 2
a fault read 0x20000020 1
a fatal 0 access
a drop a a kept
a uninit sa
a uninit a
dump
thread a ended user 0 d
object a thread uninit private - -
object sa thread_stack uninit private - -
domain d 0x20000000/32/P_RW_U_RW
memory 0x20000000 00000000000000000000000000000000000000000000000000000000000000ab
";

/// The canonical description of its image.
pub const LAST_BYTE_CANONICAL: &str = "version = 2
mpu = \"pmsav7\"
regions = 8
oops = \"abort\"
[[partition]]
name = \"p\"
attr = \"P_RW_U_RW\"
vars = [{name = \"v0\", size = 32, align = 32}]
[[domain]]
name = \"d\"
partitions = [\"p\"]
[[object]]
name = \"a\"
kind = \"thread\"
[[object]]
name = \"sa\"
kind = \"thread_stack\"
size = 64
[[boot]]
thread = \"a\"
stack = \"sa\"
script = \"m\"
priority = 0
domain = \"d\"
mode = \"user\"
[[script]]
name = \"m\"
lines = [\"store 536870943 1 171\", \"load r0 536870944 1\"]
";

/// A thread creates another, which gets its permissions.
pub const INHERITANCE: &str = described!(
    "domain = [{name = \"d\", partitions = []}]
object = [{name = \"a\", kind = \"thread\"}, {name = \"sa\", kind = \"thread_stack\", size = 64}, {name = \"b\", kind = \"thread\"}, {name = \"sb\", kind = \"thread_stack\", size = 64}, {name = \"s\", kind = \"sem\", count = 0, limit = 1}]
boot = [{thread = \"a\", stack = \"sa\", script = \"m\", priority = 0, domain = \"d\", grants = [\"b\", \"sb\", \"s\"]}]
script = [{name = \"m\", lines = [\"k_thread_create @b @sb 64 c 0 K_USER+K_INHERIT_PERMS\"]}, {name = \"c\", lines = [\"k_sem_give @s\", \"k_object_release @a\"]}]
"
);

/// One thread grants a semaphore to another, which takes it.
pub const GRANT_RACE: &str = described!(
    "domain = [{name = \"d\", partitions = []}]
object = [{name = \"t0\", kind = \"thread\"}, {name = \"k0\", kind = \"thread_stack\", size = 64},
 {name = \"t1\", kind = \"thread\"}, {name = \"k1\", kind = \"thread_stack\", size = 64},
 {name = \"s0\", kind = \"sem\", count = 0, limit = 1}]
boot = [{thread = \"t0\", stack = \"k0\", script = \"c0\", priority = 0, domain = \"d\", grants = [\"t1\", \"s0\"]},
 {thread = \"t1\", stack = \"k1\", script = \"c1\", priority = 0, domain = \"d\"}]
script = [{name = \"c0\", lines = [\"k_object_access_grant @s0 @t1\"]}, {name = \"c1\", lines = [\"k_sem_take @s0 K_NO_WAIT\"]}]
"
);

/// Two threads have a permission on a dynamic queue, and both release it.
pub const LAST_RELEASE: &str = described!(
    "pool = [{name = \"h\", size = 64}]
domain = [{name = \"d\", partitions = []}]
object = [{name = \"a\", kind = \"thread\"}, {name = \"sa\", kind = \"thread_stack\", size = 64},
 {name = \"b\", kind = \"thread\"}, {name = \"sb\", kind = \"thread_stack\", size = 64}]
boot = [{thread = \"a\", stack = \"sa\", script = \"m\", priority = 0, domain = \"d\", pool = \"h\", grants = [\"b\"]},
 {thread = \"b\", stack = \"sb\", script = \"c\", priority = 0, domain = \"d\"}]
script = [{name = \"m\", lines = [\"k_object_alloc msgq r0\", \"k_object_access_grant r0 @b\", \"k_object_release r0\"]},
 {name = \"c\", lines = [\"set r0 0\", \"set r0 0\", \"k_object_release 0x48000400\"]}]
"
);

/// A supervisor sets up a domain and two user threads; one stores a value and sends it to the other.
pub const REALISTIC: &str = described!(
    "rodata = \"73656e736f7200\"
partition = [
 {name = \"p_app\", size = 256, attr = \"P_RW_U_RW\"}]
domain = [
 {name = \"boot_d\", partitions = []},
 {name = \"app\"}]
object = [
 {name = \"main\", kind = \"thread\"},
 {name = \"main_s\", kind = \"thread_stack\", size = 1024},
 {name = \"sensor\", kind = \"thread\"},
 {name = \"sensor_s\", kind = \"thread_stack\", size = 512},
 {name = \"logger\", kind = \"thread\"},
 {name = \"logger_s\", kind = \"thread_stack\", size = 512},
 {name = \"q\", kind = \"msgq\", msg_size = 4, max_msgs = 8}]
boot = [
 {thread = \"main\", stack = \"main_s\", script = \"go\", mode = \"supervisor\", priority = 0, domain = \"boot_d\"}]

[[script]]
name = \"go\"
lines = [
 \"k_mem_domain_init app p_app\",
 \"k_mem_domain_add_thread app @main\",
 \"k_object_access_grant @q @sensor\",
 \"k_object_access_grant @q @logger\",
 \"k_thread_create @logger @logger_s 512 log 5 K_USER\",
 \"k_thread_create @sensor @sensor_s 512 sense 5 K_USER\",
 \"k_thread_user_mode_enter idle\"]

[[script]]
name = \"log\"
lines = [
 \"k_msgq_get @q @p_app K_FOREVER\"]

[[script]]
name = \"sense\"
lines = [
 \"k_thread_name_set @sensor @rodata\",
 \"store @p_app+16 4 0x2a\",
 \"k_msgq_put @q @p_app+16 K_FOREVER\"]

[[script]]
name = \"idle\"
lines = [
 \"set r0 1\"]
"
);

/// A supervisor works on a domain, and moves a user to it who loads, stores and executes.
pub const DOMAINS: &str = described!(
    "rodata = \"6e616d6500\"
partition = [{name = \"p\", size = 64, attr = \"P_RW_U_RW\"}, {name = \"x\", size = 32, attr = \"P_RX_U_RX\"}]
domain = [{name = \"d\", partitions = [\"p\", \"x\"]}, {name = \"e\"}]
object = [{name = \"a\", kind = \"thread\"}, {name = \"sa\", kind = \"thread_stack\", size = 64},
 {name = \"b\", kind = \"thread\"}, {name = \"sb\", kind = \"thread_stack\", size = 64},
 {name = \"s\", kind = \"sem\", count = 0, limit = 1}]
boot = [{thread = \"a\", stack = \"sa\", script = \"m\", priority = 0, domain = \"d\", mode = \"supervisor\"},
 {thread = \"b\", stack = \"sb\", script = \"n\", priority = 0, domain = \"d\"}]
script = [{name = \"m\", lines = [\"k_mem_domain_init e p\", \"k_mem_domain_add_partition e x\",
  \"k_mem_domain_remove_partition e p\", \"k_object_access_all_grant @s\", \"k_object_access_revoke @s @b\",
  \"k_mem_domain_add_thread e @b\", \"k_thread_user_mode_enter u\"]},
 {name = \"n\", lines = [\"store @p 4 0x2a\", \"load r0 @p 4\", \"exec @x\", \"k_thread_name_set @b @rodata\", \"load r0 @sa 4\"]},
 {name = \"u\", lines = [\"set r0 1\"]}]
"
);

/// A user allocates, grants and releases objects, sends to another who waits, and creates a third that inherits.
pub const OBJECTS: &str = described!(
    "pool = [{name = \"h\", size = 1024}]
partition = [{name = \"p\", size = 64, attr = \"P_RW_U_RW\"}]
domain = [{name = \"d\", partitions = [\"p\"]}]
object = [{name = \"a\", kind = \"thread\"}, {name = \"sa\", kind = \"thread_stack\", size = 64},
 {name = \"b\", kind = \"thread\"}, {name = \"sb\", kind = \"thread_stack\", size = 64},
 {name = \"c\", kind = \"thread\"}, {name = \"sc\", kind = \"thread_stack\", size = 64},
 {name = \"q\", kind = \"msgq\", msg_size = 4, max_msgs = 1}]
boot = [{thread = \"a\", stack = \"sa\", script = \"m\", priority = 0, domain = \"d\", pool = \"h\", grants = [\"b\", \"c\", \"sc\", \"q\"]},
 {thread = \"b\", stack = \"sb\", script = \"n\", priority = 0, domain = \"d\", grants = [\"q\"]}]
script = [{name = \"m\", lines = [\"k_object_alloc sem r0\", \"k_object_access_grant r0 @b\", \"k_object_release r0\",
  \"k_msgq_put @q @p K_NO_WAIT\", \"k_thread_create @c @sc 64 w 0 K_USER+K_INHERIT_PERMS\",
  \"k_object_alloc msgq r1\", \"k_object_release r1\"]},
 {name = \"n\", lines = [\"k_msgq_get @q @p K_FOREVER\"]},
 {name = \"w\", lines = [\"set r0 1\"]}]
"
);

/// Two users initialise one stack at the same time.
pub const RACE: &str = described!(
    "pool = [{name = \"h\", size = 64}]
domain = [{name = \"d\", partitions = []}]
object = [{name = \"a\", kind = \"thread\"}, {name = \"sa\", kind = \"thread_stack\", size = 64},
 {name = \"b\", kind = \"thread\"}, {name = \"sb\", kind = \"thread_stack\", size = 64}, {name = \"r\", kind = \"stack\"}]
boot = [{thread = \"a\", stack = \"sa\", script = \"m\", priority = 0, domain = \"d\", pool = \"h\", grants = [\"r\"]},
 {thread = \"b\", stack = \"sb\", script = \"m\", priority = 0, domain = \"d\", pool = \"h\", grants = [\"r\"]}]
script = [{name = \"m\", lines = [\"k_stack_alloc_init @r 2\"]}]
"
);

/// A thread waits on a word of memory, which another one changes before it wakes the first.
pub const FUTEX_WAKE: &str = described!(
    "partition = [{name = \"p\", size = 32, attr = \"P_RW_U_RW\"}]
domain = [{name = \"d\", partitions = [\"p\"]}]
object = [{name = \"a\", kind = \"thread\"}, {name = \"sa\", kind = \"thread_stack\", size = 64},
 {name = \"b\", kind = \"thread\"}, {name = \"sb\", kind = \"thread_stack\", size = 64}]
boot = [{thread = \"a\", stack = \"sa\", script = \"m\", priority = 0, domain = \"d\"},
 {thread = \"b\", stack = \"sb\", script = \"n\", priority = 0, domain = \"d\"}]
script = [{name = \"m\", lines = [\"k_futex_wait @f 0 K_FOREVER\"]},
 {name = \"n\", lines = [\"store @f 4 0x7\", \"k_futex_wake @f one\"]}]
futex = [{name = \"f\", partition = \"p\", offset = 0}]
"
);

/// A thread is aborted while it waits, and woken before it is looked for. It ends, is created again and waits in the same place.
pub const LATER_LIFE: &str = described!(
    "domain = [{name = \"d\", partitions = []}]
object = [{name = \"a\", kind = \"thread\"}, {name = \"sa\", kind = \"thread_stack\", size = 32},
 {name = \"b\", kind = \"thread\"}, {name = \"sb\", kind = \"thread_stack\", size = 32},
 {name = \"c\", kind = \"thread\"}, {name = \"sc\", kind = \"thread_stack\", size = 32},
 {name = \"s\", kind = \"sem\", count = 0, limit = 1}]
boot = [{thread = \"b\", stack = \"sb\", script = \"w\", priority = 0, domain = \"d\", mode = \"supervisor\", grants = [\"s\"]},
 {thread = \"a\", stack = \"sa\", script = \"m\", priority = 0, domain = \"d\", mode = \"supervisor\"},
 {thread = \"c\", stack = \"sc\", script = \"g\", priority = 0, domain = \"d\", mode = \"supervisor\"}]
script = [{name = \"m\", lines = [\"k_thread_abort @b\"]},
 {name = \"g\", lines = [\"k_sem_give @s\", \"k_thread_join @b K_FOREVER\", \"k_thread_create @b @sb 32 w 0 0\"]},
 {name = \"w\", lines = [\"k_sem_take @s K_FOREVER\"]}]
"
);

/// A user's fatal error, which dooms all threads.
pub const HALT: &str = "version = 1
mpu = \"pmsav7\"
regions = 8
oops = \"halt\"
domain = [{name = \"d\", partitions = []}]
object = [{name = \"a\", kind = \"thread\"}, {name = \"sa\", kind = \"thread_stack\", size = 64}]
boot = [{thread = \"a\", stack = \"sa\", script = \"m\", priority = 0, domain = \"d\"}]
script = [{name = \"m\", lines = [\"k_oops\"]}]
";
