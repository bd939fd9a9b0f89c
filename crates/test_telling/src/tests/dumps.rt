//! The dump of a state with objects of each kind, domains, pools and memory.

use super::image_of;
use std::test::Fail;
use um_base::{Act, Event};
use um_matrix::Matrix;
use um_samples::described;
use um_trace::{DUMP_ROOM, dump_text};

/// The thread `a` names itself, writes to its partition and to its stack, and creates a thread on an allocated object,
/// which names itself, locks the mutex `m` twice and ends. The thread `b` waits at an empty queue.
const DESCRIPTION: &str = described!(
    "rodata = \"7a6100\"
pool = [{name = \"h\", size = 128}]
partition = [{name = \"p\", size = 256, attr = \"P_RW_U_RW\"}, {name = \"r\", size = 32, attr = \"P_RO_U_RO\"}]
domain = [{name = \"d\", partitions = [\"p\", \"r\"]}, {name = \"e\", partitions = []}, {name = \"f\"}]
object = [{name = \"a\", kind = \"thread\"}, {name = \"sa\", kind = \"thread_stack\", size = 64},
 {name = \"b\", kind = \"thread\"}, {name = \"sb\", kind = \"thread_stack\", size = 64},
 {name = \"sc\", kind = \"thread_stack\", size = 64},
 {name = \"s\", kind = \"sem\", count = 1, limit = 4}, {name = \"t\", kind = \"sem\"},
 {name = \"m\", kind = \"mutex\", init = true}, {name = \"n\", kind = \"mutex\", init = true},
 {name = \"q\", kind = \"msgq\", msg_size = 4, max_msgs = 8}, {name = \"u\", kind = \"pipe\", size = 4}]
boot = [{thread = \"a\", stack = \"sa\", script = \"main\", priority = 0, domain = \"d\", pool = \"h\", grants = [\"sc\", \"m\"]},
 {thread = \"b\", stack = \"sb\", script = \"waits\", priority = -16, domain = \"d\", grants = [\"q\"]}]
script = [{name = \"main\", lines = [\"k_thread_name_set @a @rodata\", \"store @p 4 0xff00617a\", \"store @sa+63 1 0xab\",
  \"k_object_alloc thread r0\", \"k_object_access_grant @m r0\", \"k_thread_create r0 @sc 64 locks 0 K_USER\",
  \"k_object_release r0\"]},
 {name = \"waits\", lines = [\"k_msgq_get @q @p K_FOREVER\"]},
 {name = \"locks\", lines = [\"k_thread_name_set 0x48000000 @rodata\", \"k_mutex_lock @m K_NO_WAIT\", \"k_mutex_lock @m K_NO_WAIT\"]}]
"
);

/// Its dump once no thread has a step left, before anything is cleaned.
const DUMP: &str = "dump
thread a ended user 0 d
thread b waits:q user -16 d
thread #0 ended user 0 d
object a thread uninit private - 7a61
object sa thread_stack uninit private - -
object b thread init private b -
object sb thread_stack init private - -
object sc thread_stack uninit private - -
object s sem init private - 1/4
object t sem uninit private - -
object m mutex init private - #0*2
object n mutex init private - free
object q msgq init private b 0/8
object u pipe init private - 0/4
object #0 thread gone private - -
domain d 0x20000000/256/P_RW_U_RW,0x20000100/32/P_RO_U_RO
domain e -
domain f uninit
pool h 64/128
memory 0x20000000 7a6100ff00000000000000000000000000000000000000000000000000000000
memory 0x20080020 00000000000000000000000000000000000000000000000000000000000000ab
";

/// Whether an event recycles an object.
fn recycles(event: &Event) -> bool {
    matches!(event.act, Act::Recycle { .. })
}

#[test]
fn dumps_show_objects_domains_pools_and_memory(rt: HostRuntime) -> Result<(), Fail> {
    let alloc = rt.alloc();
    let image = image_of(alloc, DESCRIPTION)?;
    let mut matrix = Matrix::boot(alloc, &image)?;
    for _ in 0..300 {
        match matrix.next_event() {
            Some(event) if !recycles(&event) => assert!(rt; matrix.apply(&event).is_ok()),
            _ => break,
        }
    }
    assert!(rt; !matrix.is_final());
    let mut dump = Vec::with_capacity(alloc, DUMP_ROOM)?;
    dump_text(&image, matrix.tables(), &mut dump);
    assert_eq!(rt; dump.as_slice(), DUMP.as_bytes());
    Ok(())
}
