//! Parts of descriptions that were generated elsewhere.

use crate::generate;
use std::alloc::Global;
use std::test::Fail;
use um_base::OutOfMemory;

/// The header and the pool of every description.
const HEAD: &str =
    "version = 1\nmpu = \"pmsav7\"\nregions = 8\noops = \"abort\"\npool = [{name = \"heap\", size = 4096}]\n";

/// The last thread's objects and the first semaphore of every description.
const LAST_THREAD: &str =
    "{name = \"t7\", kind = \"thread\"},\n{name = \"k7\", kind = \"thread_stack\", size = 128},\n{name = \"s0\", kind = \"sem\", count = 1, limit = 4},\n";

/// Parts of the description of 0, each with the byte that it stands at.
const OF_ZERO: [(usize, &str); 4] = [
    (
        1276,
        "[[boot]]\nthread = \"t0\"\nstack = \"k0\"\nscript = \"c0\"\npriority = 0\ndomain = \"d1\"\npool = \"heap\"\ngrants = [\"s0\", \"s1\", \"s2\", \"s3\", \"q0\", \"q1\"]\n",
    ),
    (
        1413,
        "[[boot]]\nthread = \"t1\"\nstack = \"k1\"\nscript = \"c1\"\npriority = 1\ndomain = \"d0\"\npool = \"heap\"\ngrants = [\"s1\", \"s2\", \"s3\", \"q0\", \"q1\"]\n",
    ),
    (
        2360,
        "[[script]]\nname = \"c0\"\nlines = [\n\"k_object_alloc sem r1\",\n\"k_sem_init r1 1 1\",\n\"k_object_release r1\",\n\"repeat 20\",\n\"k_msgq_put @q1 @k0 K_NO_WAIT\",\n\"k_msgq_get @q1 @k0 K_NO_WAIT\",\n\"k_msgq_get @q0 @k0 K_NO_WAIT\",\n\"store @k0+36 4 59459\",\n\"k_msgq_put @q1 @k0 K_NO_WAIT\",\n",
    ),
    (
        9375,
        "\"k_msgq_put @q1 @k7 K_NO_WAIT\",\n\"k_sem_take @s2 K_NO_WAIT\",\n\"k_msgq_get @q1 @k7 K_NO_WAIT\",\n\"end\",\n]\n",
    ),
];

/// Parts of the description of the greatest number.
const OF_THE_GREATEST: [(usize, &str); 3] = [
    (
        1276,
        "[[boot]]\nthread = \"t0\"\nstack = \"k0\"\nscript = \"c0\"\npriority = 0\ndomain = \"d0\"\npool = \"heap\"\ngrants = [\"s0\", \"s1\", \"s2\", \"s3\", \"q1\"]\n",
    ),
    (
        2318,
        "[[script]]\nname = \"c0\"\nlines = [\n\"k_object_alloc sem r1\",\n\"k_sem_init r1 1 1\",\n\"k_object_release r1\",\n\"repeat 20\",\n\"k_msgq_get @q1 @k0 K_NO_WAIT\",\n\"load r0 @k0+88 4\",\n\"k_msgq_get @q1 @k0 K_NO_WAIT\",\n\"k_sem_take @s0 K_NO_WAIT\",\n\"k_sem_give @s2\",\n",
    ),
    (
        9306,
        "\"k_msgq_get @q0 @k7 K_NO_WAIT\",\n\"k_sem_give @s3\",\n\"k_sem_take @s3 K_NO_WAIT\",\n\"end\",\n]\n",
    ),
];

/// Whether each part stands in a text from its byte on.
fn stand(text: &[u8], parts: &[(usize, &str)]) -> bool {
    parts.iter().all(|(at, part)| match text.get(*at..) {
        Some(rest) => rest.starts_with(part.as_bytes()),
        None => false,
    })
}

/// Whether the description of a number has so many bytes, begins as each does, and has these parts too.
fn has(
    alloc: Global,
    number: u64,
    len: usize,
    parts: &[(usize, &str)],
) -> Result<bool, OutOfMemory> {
    let text = generate(alloc, number)?;
    let begins = stand(&text, &[(0, HEAD), (872, LAST_THREAD)]);
    Ok(text.len() == len && begins && stand(&text, parts))
}

#[test]
fn descriptions_are_generated_from_numbers(rt: HostRuntime) -> Result<(), Fail> {
    assert!(rt; has(rt.alloc(), 0, 9476, &OF_ZERO)?);
    assert!(rt; has(rt.alloc(), u64::MAX, 9393, &OF_THE_GREATEST)?);
    assert!(rt; has(rt.alloc(), 1, 9457, &[])?);
    assert!(rt; has(rt.alloc(), 42, 9414, &[])?);
    Ok(())
}
