//! Tests of reading descriptions.

use super::*;
use std::fmt::Write;
use std::test::Fail;
use um_base::{Addr, Attr, Instr, Mode, Mpu, Name, Range, Row, Setup, Term, ThreadIx};
use um_description::weight;
use um_document::fault_text;
use um_samples::{LAST_BYTE, described};

/// The lines of the script of `LAST_BYTE`.
const LINES: &str = "\"store @p+31 1 0xab\", \"load r0 @p+32 1\"";

/// Changes to `LAST_BYTE`, and what is told of each.
const REFUSED: [(&str, &str, &str); 19] = [
    (LAST_BYTE, "", "Version"),
    (LAST_BYTE, "version = \"1", "NotToml"),
    ("version = 1", "version = 1.0", "Version"),
    ("mpu = \"pmsav7\"\n", "", "MissingKey mpu"),
    ("size = 64", "size = \"64\"", "WrongType object[1].size"),
    ("oops", "zed = 1\noops", "UnknownKey zed"),
    ("abort", "stop", "BadName oops"),
    ("name = \"d\"", "name = \"p\"", "Duplicate domain[0].name"),
    (
        "stack = \"sa\"",
        "stack = \"a\"",
        "UnknownName boot[0].stack",
    ),
    ("size = 32", "size = 0", "Limit size 1 partition[0].size"),
    (
        "load r0 @p+32 1",
        "load r0 @p 1 1",
        "Line Extra script[0].lines[1]:14",
    ),
    (LINES, "\"repeat 2\"", "Block script[0].lines[0]"),
    (
        "load r0 @p+32 1",
        "load r0 @z 1",
        "LineName script[0].lines[1]:9",
    ),
    (
        "load r0 @p+32 1",
        "k_thread_create @a @sa 64 m 0 K_USER",
        "ScriptOrder script[0].lines[1]",
    ),
    (
        "priority = 0",
        "priority = 15",
        "Limit priority 14 boot[0].priority",
    ),
    (
        "load r0 @p+32 1",
        "k_sem_take @a K_TICKS(0)",
        "Line Range script[0].lines[1]:15",
    ),
    (
        "load r0 @p+32 1",
        "k_timer_stop @tm",
        "LineName script[0].lines[1]:14",
    ),
    (
        "kind = \"thread\"}",
        "kind = \"timer\"}",
        "UnknownName boot[0].thread",
    ),
    (
        "kind = \"thread\"}",
        "kind = \"timer\", init = true}",
        "UnknownKey object[0].init",
    ),
];

/// A description with this section of futexes, in a partition of 32 bytes.
macro_rules! with_futexes {
    ($futexes:literal) => {
        concat!(
            "version = 1\nmpu = \"pmsav7\"\nregions = 4\noops = \"abort\"\n",
            "partition = [{name = \"p\", size = 32, attr = \"P_RW_U_RW\"}, {name = \"q\", size = 3, attr = \"P_RW_U_RW\"}]\n",
            $futexes
        )
    };
}

/// Descriptions with futexes, and what is told of each.
const FUTEXES: [(&str, &str); 14] = [
    (
        with_futexes!("futex = [{name = \"f\", partition = \"p\", offset = 28}]"),
        "image",
    ),
    (
        with_futexes!(
            "futex = [{name = \"f\", partition = \"p\", offset = 1}, {name = \"g\", partition = \"p\", offset = 2}]"
        ),
        "image",
    ),
    (with_futexes!("futex = {}"), "WrongType futex"),
    (
        with_futexes!("futex = [{name = \"f\", partition = \"p\"}]"),
        "MissingKey futex[0].offset",
    ),
    (
        with_futexes!("futex = [{name = \"f\", offset = 0}]"),
        "MissingKey futex[0].partition",
    ),
    (
        with_futexes!("futex = [{name = \"f\", partition = 0, offset = 0}]"),
        "WrongType futex[0].partition",
    ),
    (
        with_futexes!("futex = [{name = \"f\", partition = \"p\", offset = 0, size = 4}]"),
        "UnknownKey futex[0].size",
    ),
    (
        with_futexes!("futex = [{name = \"p\", partition = \"p\", offset = 0}]"),
        "Duplicate futex[0].name",
    ),
    (
        with_futexes!(
            "futex = [{name = \"f\", partition = \"p\", offset = 4}, {name = \"g\", partition = \"p\", offset = 4}]"
        ),
        "Duplicate futex[1].offset",
    ),
    (
        with_futexes!(
            "futex = [{name = \"f\", partition = \"p\", offset = 4}, {name = \"f\", partition = \"p\", offset = 4}]"
        ),
        "Duplicate futex[1].name",
    ),
    (
        with_futexes!("futex = [{name = \"f\", partition = \"f\", offset = 0}]"),
        "UnknownName futex[0].partition",
    ),
    (
        with_futexes!("futex = [{name = \"f\", partition = \"p\", offset = 29}]"),
        "Limit offset 28 futex[0].offset",
    ),
    (
        with_futexes!("futex = [{name = \"f\", partition = \"p\", offset = -1}]"),
        "Limit offset 0 futex[0].offset",
    ),
    (
        with_futexes!("futex = [{name = \"f\", partition = \"q\", offset = 5}]"),
        "Limit offset 0 futex[0].offset",
    ),
];

/// A thread that reads a variable of a partition.
const PACKED: &str = "version = 2
mpu = \"pmsav7\"
regions = 8
oops = \"abort\"
domain = [{name = \"d\", partitions = [\"p\"]}]
object = [{name = \"a\", kind = \"thread\"}, {name = \"sa\", kind = \"thread_stack\", size = 64}]
boot = [{thread = \"a\", stack = \"sa\", script = \"m\", priority = 0, domain = \"d\"}]
script = [{name = \"m\", lines = [\"load r0 @y+2 1\"]}]
[[partition]]
name = \"p\"
attr = \"P_RW_U_RW\"
vars = [{name = \"x\", size = 1}, {name = \"y\", size = 4, align = 4, data = \"2a000000\"}]
";

/// Changes to that description, and what is told of each.
const PACKED_ANSWERS: [(&str, &str, &str); 11] = [
    ("version = 2", "version = 3", "Version"),
    (
        "align = 4",
        "align = 3",
        "BadName partition[0].vars[1].align",
    ),
    ("\"y\"", "\"p\"", "Duplicate partition[0].vars[1].name"),
    ("name = \"d\"", "name = \"x\"", "Duplicate domain[0].name"),
    (
        "vars = [{name = \"x\", size = 1}, {name = \"y\", size = 4, align = 4, data = \"2a000000\"}]",
        "vars = []",
        "Limit vars 1 partition[0].vars",
    ),
    (
        "size = 1}",
        "size = 0}",
        "Limit size 1 partition[0].vars[0].size",
    ),
    (
        "size = 4,",
        "size = 3,",
        "Limit data 3 partition[0].vars[1].data",
    ),
    (
        "size = 1}",
        "size = 65533}",
        "Limit size 65536 partition[0].vars",
    ),
    ("size = 1}", "size = 65529}", "image"),
    (
        "size = 1}",
        "size = 70000}",
        "Limit size 65536 partition[0].vars",
    ),
    ("@y", "@z", "LineName script[0].lines[0]:9"),
];

/// A supervisor that makes a domain and two threads, of which one sends the other a message.
const TWO_THREADS: &str = described!(
    "rodata = \"73656e736f7200\"
partition = [{name = \"p_app\", size = 256, attr = \"P_RW_U_RW\"}]
domain = [{name = \"boot_d\", partitions = []}, {name = \"app\"}]
object = [
 {name = \"main\", kind = \"thread\"}, {name = \"main_s\", kind = \"thread_stack\", size = 1024},
 {name = \"sensor\", kind = \"thread\"}, {name = \"sensor_s\", kind = \"thread_stack\", size = 512},
 {name = \"logger\", kind = \"thread\"}, {name = \"logger_s\", kind = \"thread_stack\", size = 512},
 {name = \"q\", kind = \"msgq\", msg_size = 4, max_msgs = 8}]
boot = [{thread = \"main\", stack = \"main_s\", script = \"go\", mode = \"supervisor\", priority = 0, domain = \"boot_d\"}]
[[script]]
name = \"go\"
lines = [\"k_mem_domain_init app p_app\", \"k_mem_domain_add_thread app @main\",
 \"k_object_access_grant @q @sensor\", \"k_object_access_grant @q @logger\",
 \"k_thread_create @logger @logger_s 512 log 5 K_USER\",
 \"k_thread_create @sensor @sensor_s 512 sense 5 K_USER\", \"k_thread_user_mode_enter idle\"]
[[script]]
name = \"log\"
lines = [\"k_msgq_get @q @p_app K_FOREVER\"]
[[script]]
name = \"sense\"
lines = [\"k_thread_name_set @sensor @rodata\", \"store @p_app+16 4 0x2a\", \"k_msgq_put @q @p_app+16 K_FOREVER\"]
[[script]]
name = \"idle\"
lines = [\"set r0 1\"]
"
);

/// The fault of a text as it is told, or `image`.
fn answer(alloc: Global, text: &str) -> Result<String, Fail> {
    match read_image(alloc, text.as_bytes()) {
        Ok(_) => Ok(String::from_str(alloc, "image")?),
        Err(fault) => Ok(fault_text(alloc, &fault)?),
    }
}

/// What is told of the first description with one part changed.
fn answer_with(alloc: Global, part: &str, other: &str) -> Result<String, Fail> {
    let changed = LAST_BYTE.replacen(alloc, part, other, 1)?;
    answer(alloc, changed.as_str())
}

/// So many entries with names of their own, and this behind the name of each.
fn entries(alloc: Global, count: usize, rest: &str) -> Result<String, Fail> {
    let mut text = String::new(alloc);
    for i in 0..count {
        write!(text, "{{name = \"x{i}\", {rest}}}, ")?;
    }
    Ok(text)
}

#[test]
fn first_faults_are_told(rt: HostRuntime) -> Result<(), Fail> {
    for (part, other, told) in REFUSED {
        let found = answer_with(rt.alloc(), part, other)?;
        assert_eq!(rt; found.as_str(), told, "{other}");
    }
    Ok(())
}

#[test]
fn futexes_are_told(rt: HostRuntime) -> Result<(), Fail> {
    for (text, told) in FUTEXES {
        let found = answer(rt.alloc(), text)?;
        assert_eq!(rt; found.as_str(), told, "{text}");
    }
    Ok(())
}

/// A futex of a packed partition lies before the end of the last variable.
#[test]
fn packed_futexes_are_told(rt: HostRuntime) -> Result<(), Fail> {
    for (offset, told) in [(4, "image"), (5, "Limit offset 4 futex[0].offset")] {
        let text = format!(in rt.alloc();
            "{PACKED}[[futex]]\nname = \"f\"\npartition = \"p\"\noffset = {offset}\n"
        )?;
        let found = answer(rt.alloc(), text.as_str())?;
        assert_eq!(rt; found.as_str(), told);
    }
    Ok(())
}

#[test]
fn variables_are_told(rt: HostRuntime) -> Result<(), Fail> {
    for (part, other, told) in PACKED_ANSWERS {
        let changed = PACKED.replacen(rt.alloc(), part, other, 1)?;
        let found = answer(rt.alloc(), changed.as_str())?;
        assert_eq!(rt; found.as_str(), told, "{other}");
    }
    Ok(())
}

/// 33 variables are one too many.
#[test]
fn many_variables_are_told(rt: HostRuntime) -> Result<(), Fail> {
    for (count, told) in [(31, "image"), (32, "Limit vars 32 partition[0].vars")] {
        let more = entries(rt.alloc(), count, "size = 1, align = 32")?;
        let vars = format!(in rt.alloc(); "vars = [{more}{{name = \"y\", size = 4")?;
        let changed = PACKED.replacen(
            rt.alloc(),
            "vars = [{name = \"x\", size = 1}, {name = \"y\", size = 4",
            vars.as_str(),
            1,
        )?;
        let found = answer(rt.alloc(), changed.as_str())?;
        assert_eq!(rt; found.as_str(), told);
    }
    Ok(())
}

#[test]
fn variables_are_packed(rt: HostRuntime) -> Result<(), Fail> {
    match read_image(rt.alloc(), PACKED.as_bytes()) {
        Ok(image) => {
            match image.partitions.as_slice() {
                [partition] => {
                    assert!(rt; partition.range == range(0x2000_0000, 32));
                    assert!(rt; partition.bytes.as_slice() == &b"\0\0\0\0*\0\0\0"[..]);
                }
                _ => assert!(rt; false),
            }
            match lines_of(&image, 0) {
                [Instr::Load { addr, .. }] => assert!(rt; *addr == Term::Num(0x2000_0006)),
                _ => assert!(rt; false),
            }
        }
        Err(_) => assert!(rt; false),
    }
    Ok(())
}

#[test]
fn sums_are_told(rt: HostRuntime) -> Result<(), Fail> {
    let alloc = rt.alloc();
    let threads = entries(alloc, 28, "kind = \"thread\"")?;
    let objects = format!(in alloc; "object = [{threads}")?;
    let found = answer_with(alloc, "object = [", objects.as_str())?;
    assert_eq!(rt; found.as_str(), "Limit threads 28 object[28]");
    let eight = entries(alloc, 8, "size = 65536, attr = \"P_RW_U_RW\"")?;
    let nine = format!(in alloc; "{eight}{{name = \"p\", size = 65536")?;
    let found = answer_with(alloc, "{name = \"p\", size = 32", nine.as_str())?;
    assert_eq!(rt; found.as_str(), "Layout partitions 589824 524288");
    Ok(())
}

#[test]
fn greatest_weight_is_read(rt: HostRuntime) -> Result<(), Fail> {
    let alloc = rt.alloc();
    let sets = "\"set r0 0\", ".repeat(alloc, 99)?;
    for (more, told) in [("", "image"), (", \"set r0 0\"", "Weight")] {
        let lines = format!(in alloc;
            "\"repeat 1000\", {sets}\"end\", \"repeat 940\", \"set r0 0\", \"end\"{more}"
        )?;
        let found = answer_with(alloc, LINES, lines.as_str())?;
        assert_eq!(rt; found.as_str(), told);
    }
    Ok(())
}

/// A call of a timer, one that stops a thread and one on a futex cost twice what another call does, and ticks of a timeout
/// cost nothing.
#[test]
fn timed_lines_are_weighed(rt: HostRuntime) -> Result<(), Fail> {
    for (line, heavy) in [
        ("k_timer_start @a 1", 320),
        ("k_timer_stop @a", 320),
        ("k_timer_status_get @a r0", 320),
        ("k_timer_status_sync @a r0", 320),
        ("k_thread_abort @a", 320),
        ("k_thread_join @a K_NO_WAIT", 320),
        ("k_thread_suspend @a", 320),
        ("k_thread_resume @a", 320),
        ("k_futex_wait @p 0 K_TICKS(5)", 320),
        ("k_futex_wake @p all", 320),
        ("k_sem_take @a K_TICKS(5)", 280),
    ] {
        let lines = format!(in rt.alloc(); "\"{line}\"")?;
        let changed = LAST_BYTE.replacen(rt.alloc(), LINES, lines.as_str(), 1)?;
        match read_image(rt.alloc(), changed.as_bytes()) {
            Ok(image) => assert_eq!(rt; weight(&image), heavy, "{line}"),
            Err(_) => assert!(rt; false, "{line}"),
        }
    }
    Ok(())
}

/// The lines of a script.
fn lines_of(image: &Image, script: usize) -> &[Instr] {
    match image.scripts.as_slice().get(script) {
        Some(script) => script.lines.as_slice(),
        None => &[],
    }
}

/// So many bytes from an address on.
fn range(start: u32, size: u32) -> Range {
    Range {
        start: Addr(start),
        size,
    }
}

#[test]
fn a_description_is_read(rt: HostRuntime) -> Result<(), Fail> {
    let image = match read_image(rt.alloc(), TWO_THREADS.as_bytes()) {
        Ok(image) => image,
        Err(_) => {
            assert!(rt; false);
            return Ok(());
        }
    };
    assert!(rt; image.mpu == Mpu::V7);
    assert!(rt; image.rodata == Some(range(0x0800_0000, 32)));
    assert!(rt; image.rodata_bytes.as_slice() == &b"sensor\0"[..]);
    match image.partitions.as_slice() {
        [partition] => {
            assert!(rt; partition.name == Name::from_bytes(b"p_app"));
            assert!(rt; partition.range == range(0x2000_0000, 256));
            assert!(rt; partition.attr == Attr::P_RW_U_RW);
        }
        _ => assert!(rt; false),
    }
    match image.domains.as_slice() {
        [first, second] => assert!(rt; first.parts.is_some() && second.parts.is_none()),
        _ => assert!(rt; false),
    }
    match image.objects.as_slice() {
        [_, main_stack, _, _, logger, logger_stack, queue] => {
            assert!(rt; main_stack.addr == Addr(0x2008_0000));
            assert!(rt; logger.addr == Addr(0x4000_0100));
            assert!(rt; logger.setup == Setup::Thread { index: ThreadIx(2) });
            let behind = Setup::ThreadStack {
                range: range(0x2008_0600, 512),
                declared: 512,
            };
            assert!(rt; logger_stack.setup == behind);
            assert!(rt; queue.addr == Addr(0x4000_0180));
            assert!(rt;
                queue.setup
                    == Setup::Msgq {
                        msg_size: 4,
                        max_msgs: 8
                    }
            );
        }
        _ => assert!(rt; false),
    }
    match image.boots.as_slice() {
        [boot] => {
            assert!(rt; boot.thread == Row(0) && boot.stack == Row(1));
            assert!(rt; boot.mode == Mode::Supervisor && boot.pool.is_none());
        }
        _ => assert!(rt; false),
    }
    assert_eq!(rt; lines_of(&image, 0).len(), 7);
    let store = Instr::Store {
        addr: Term::Num(0x2000_0010),
        size: 4,
        value: Term::Num(0x2a),
    };
    assert!(rt; lines_of(&image, 2).get(1) == Some(&store));
    assert_eq!(rt; weight(&image), 1_776);
    Ok(())
}

#[test]
fn each_prefix_is_an_image_or_a_fault(rt: HostRuntime) -> Result<(), Fail> {
    let text = TWO_THREADS.as_bytes();
    for end in 0..text.len() {
        if let Err(ImageFault::Memory) = read_image(rt.alloc(), &text[..end]) {
            assert!(rt; false, "{end}");
        }
    }
    Ok(())
}
