//! Tests of printing images.

use super::*;
use crate::read::read_image;
use std::test::Fail;
use um_document::fault_text;
use um_samples::{LAST_BYTE, LAST_BYTE_CANONICAL};

/// A description of one partition with these variables, in version 2.
macro_rules! with_variables {
    ($variables:literal) => {
        concat!(
            "version = 2\nmpu = \"pmsav7\"\nregions = 4\noops = \"abort\"\n",
            "[[partition]]\nname = \"p\"\nattr = \"P_RW_U_RW\"\nvars = [",
            $variables,
            "]\n"
        )
    };
}

const PACKED: &str = with_variables!(
    "{name = \"x\", size = 1}, {name = \"y\", size = 4, align = 4, data = \"2a000000\"}"
);

const PACKED_PRINTED: &str = with_variables!(
    "{name = \"v0\", size = 32, align = 32, data = \"000000002a000000\"}"
);

/// Each key of each section, and each kind of object with and without its numbers. Names of variables are taken.
const EVERY_KEY: &str = "version = 1
mpu = \"pmsav8\"
regions = 16
oops = \"halt\"
rodata = \"73656e736f7200\"
pool = [{name = \"heap\", size = 4096}]
partition = [{name = \"v0\", size = 33, attr = \"P_RW_U_RO\", data = \"00ff\"}, {name = \"p\", size = 32, attr = \"P_RX_U_RX\"}]
domain = [{name = \"v2\", partitions = [\"p\", \"v0\"]}, {name = \"e\"}, {name = \"f\", partitions = []}]
boot = [{thread = \"b\", stack = \"sb\", script = \"x\", priority = -16, domain = \"v2\", mode = \"supervisor\", pool = \"heap\", grants = [\"q\", \"a\", \"q\"]},
 {thread = \"a\", stack = \"sa\", script = \"y\", priority = 14, domain = \"v2\", grants = []}]
object = [
 {name = \"a\", kind = \"thread\", public = true}, {name = \"sa\", kind = \"thread_stack\", size = 100},
 {name = \"b\", kind = \"thread\", public = false}, {name = \"sb\", kind = \"thread_stack\", size = 64},
 {name = \"s\", kind = \"sem\", count = 0, limit = 4294967295}, {name = \"s0\", kind = \"sem\"},
 {name = \"m\", kind = \"mutex\", init = true}, {name = \"m0\", kind = \"mutex\", init = false},
 {name = \"q\", kind = \"msgq\", msg_size = 4, max_msgs = 8}, {name = \"q0\", kind = \"msgq\"},
 {name = \"k\", kind = \"stack\", entries = 64, public = true}, {name = \"k0\", kind = \"stack\"},
 {name = \"i\", kind = \"pipe\", size = 256}, {name = \"i0\", kind = \"pipe\"},
 {name = \"t\", kind = \"timer\"}, {name = \"t0\", kind = \"timer\", public = true}]
[[script]]
name = \"x\"
lines = [\"k_mem_domain_init e v0  p\", \"k_mem_domain_remove_partition e 0x20000000/32/P_RW_U_RW\",
 \"k_mem_domain_add_thread v2 @a\", \"k_thread_create @a @sa 64 y -1 K_ESSENTIAL+K_USER\", \"k_thread_user_mode_enter y\"]
[[script]]
name = \"y\"
lines = [\"set r0 @rodata+2\", \"k_sem_take @s K_NO_WAIT\", \"k_timer_start @t 0x3\", \"k_sem_take @s K_TICKS(007)\",
 \"k_thread_join @b K_FOREVER\", \"k_futex_wait @v1+1 0x10 K_NO_WAIT\", \"k_futex_wake @v1 all\"]
[[futex]]
offset = 29
partition = \"v0\"
name = \"v1\"
[[futex]]
name = \"w\"
partition = \"p\"
offset = 0
";

const EVERY_KEY_PRINTED: &str =
    "version = 2\nmpu = \"pmsav8\"\nregions = 16\noops = \"halt\"\nrodata = \"73656e736f7200\"\n\
[[pool]]\nname = \"heap\"\nsize = 4096\n\
[[partition]]\nname = \"v0\"\nattr = \"P_RW_U_RO\"\nvars = [{name = \"v3\", size = 64, align = 32, data = \"00ff\"}]\n\
[[partition]]\nname = \"p\"\nattr = \"P_RX_U_RX\"\nvars = [{name = \"v4\", size = 32, align = 32}]\n\
[[domain]]\nname = \"v2\"\npartitions = [\"p\", \"v0\"]\n\
[[domain]]\nname = \"e\"\n\
[[domain]]\nname = \"f\"\npartitions = []\n\
[[object]]\nname = \"a\"\nkind = \"thread\"\npublic = true\n\
[[object]]\nname = \"sa\"\nkind = \"thread_stack\"\nsize = 100\n\
[[object]]\nname = \"b\"\nkind = \"thread\"\n\
[[object]]\nname = \"sb\"\nkind = \"thread_stack\"\nsize = 64\n\
[[object]]\nname = \"s\"\nkind = \"sem\"\ncount = 0\nlimit = 4294967295\n\
[[object]]\nname = \"s0\"\nkind = \"sem\"\n\
[[object]]\nname = \"m\"\nkind = \"mutex\"\ninit = true\n\
[[object]]\nname = \"m0\"\nkind = \"mutex\"\n\
[[object]]\nname = \"q\"\nkind = \"msgq\"\nmsg_size = 4\nmax_msgs = 8\n\
[[object]]\nname = \"q0\"\nkind = \"msgq\"\n\
[[object]]\nname = \"k\"\nkind = \"stack\"\npublic = true\nentries = 64\n\
[[object]]\nname = \"k0\"\nkind = \"stack\"\n\
[[object]]\nname = \"i\"\nkind = \"pipe\"\nsize = 256\n\
[[object]]\nname = \"i0\"\nkind = \"pipe\"\n\
[[object]]\nname = \"t\"\nkind = \"timer\"\n\
[[object]]\nname = \"t0\"\nkind = \"timer\"\npublic = true\n\
[[boot]]\nthread = \"b\"\nstack = \"sb\"\nscript = \"x\"\npriority = -16\ndomain = \"v2\"\nmode = \"supervisor\"\npool = \"heap\"\ngrants = [\"a\", \"q\"]\n\
[[boot]]\nthread = \"a\"\nstack = \"sa\"\nscript = \"y\"\npriority = 14\ndomain = \"v2\"\nmode = \"user\"\n\
[[script]]\nname = \"x\"\nlines = [\"k_mem_domain_init e v0 p\", \"k_mem_domain_remove_partition e 536870912/32/P_RW_U_RW\", \"k_mem_domain_add_thread v2 1073741824\", \"k_thread_create 1073741824 537395200 64 y -1 K_USER+K_ESSENTIAL\", \"k_thread_user_mode_enter y\"]\n\
[[script]]\nname = \"y\"\nlines = [\"set r0 134217730\", \"k_sem_take 1073742080 K_NO_WAIT\", \"k_timer_start 1073742720 3\", \"k_sem_take 1073742080 K_TICKS(7)\", \"k_thread_join 1073741952 K_FOREVER\", \"k_futex_wait 536870942 16 K_NO_WAIT\", \"k_futex_wake 536870941 all\"]\n\
[[futex]]\nname = \"v1\"\npartition = \"v0\"\noffset = 29\n\
[[futex]]\nname = \"w\"\npartition = \"p\"\noffset = 0\n";

/// What is printed for the image of a text, or its fault.
fn printed(alloc: Global, text: &[u8]) -> Result<Vec<u8>, Fail> {
    match read_image(alloc, text) {
        Ok(image) => Ok(print_image(alloc, &image)?),
        Err(fault) => Ok(fault_text(alloc, &fault)?.into_bytes()),
    }
}

#[test]
fn images_are_printed(rt: HostRuntime) -> Result<(), Fail> {
    for (text, expected) in [
        (LAST_BYTE, LAST_BYTE_CANONICAL),
        (PACKED, PACKED_PRINTED),
        (EVERY_KEY, EVERY_KEY_PRINTED),
    ] {
        let once = printed(rt.alloc(), text.as_bytes())?;
        assert_eq!(rt; once.as_slice(), expected.as_bytes());
        let twice = printed(rt.alloc(), once.as_slice())?;
        assert_eq!(rt; twice.as_slice(), expected.as_bytes());
    }
    Ok(())
}
