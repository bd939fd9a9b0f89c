//! The addresses of an image.

use super::image_of;
use std::test::Fail;
use um_samples::described;
use um_trace::{layout_room, layout_text};

/// Read-only data, a partition, two threads with their stacks, and a semaphore.
const PLACES: &str = described!(
    "rodata = \"00\"
partition = [{name = \"p\", size = 32, attr = \"P_RW_U_RW\"}]
object = [{name = \"a\", kind = \"thread\"}, {name = \"sa\", kind = \"thread_stack\", size = 60},
 {name = \"b\", kind = \"thread\"}, {name = \"sb\", kind = \"thread_stack\", size = 60},
 {name = \"s\", kind = \"sem\"}]
"
);

#[test]
fn layouts_show_addresses(rt: HostRuntime) -> Result<(), Fail> {
    let image = image_of(rt.alloc(), PLACES)?;
    assert_eq!(rt; layout_room(&image), 32 + 72 * 6);
    let mut room = Vec::with_capacity(rt.alloc(), layout_room(&image))?;
    layout_text(&image, &mut room);
    assert_eq!(rt;
        room.as_slice(),
        "rodata 0x08000000 32\npartition p 0x20000000 32 P_RW_U_RW\nobject a thread 0x40000000\nobject sa thread_stack 0x20080000 64\nobject b thread 0x40000080\nobject sb thread_stack 0x20080040 64\nobject s sem 0x40000100\n".as_bytes()
    );
    Ok(())
}
