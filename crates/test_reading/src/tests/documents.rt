//! Documents: what one gives, and the first fault of one that is refused.

use std::alloc::Global;
use std::test::Fail;
use um_document::{fault_text, read_document};

fn answer(alloc: Global, text: &str) -> Result<String, Fail> {
    match read_document(alloc, text.as_bytes()) {
        Ok(_) => Ok(String::from_str(alloc, "read")?),
        Err(fault) => Ok(fault_text(alloc, &fault)?),
    }
}

/// The keys that a document has to have.
const HEAD: &str = "version = 1\nmpu = \"pmsav7\"\nregions = 8\noops = \"abort\"\n";

/// One fault of each kind, with its place, and each kind before those behind it.
#[test]
fn tells_the_first_fault(rt: HostRuntime) -> Result<(), Fail> {
    for (text, told) in [
        ("", "read"),
        ("rodata = \"0aff\"", "read"),
        ("=", "NotToml"),
        ("[[pool]]\nsize = \"x\"\nzed = 1", "MissingKey pool[0].name"),
        (
            "pool = [{name = \"a\", size = \"x\", zed = 1}]",
            "WrongType pool[0].size",
        ),
        ("rodata = \"0af\"", "WrongType rodata"),
        ("pool = 3", "WrongType pool"),
        ("boot = [3]", "WrongType boot[0]"),
        (
            "domain = [{name = \"d\"}, {name = \"9\", partitions = [\"p\"], zed = 1, Zed = 2}]",
            "UnknownKey domain[1].Zed",
        ),
        (
            "domain = [{name = \"d\", partitions = [\"p\", 4]}]",
            "WrongType domain[0].partitions[1]",
        ),
        (
            "object = [{name = \"s\", kind = \"sem\", count = 1}]",
            "MissingKey object[0].limit",
        ),
        (
            "object = [{name = \"s\", kind = \"sem\", init = true}]",
            "UnknownKey object[0].init",
        ),
        (
            "object = [{name = \"s\", kind = \"semaphore\", init = true}]",
            "BadName object[0].kind",
        ),
        (
            "object = [{name = \"rodata\", kind = \"mutex\", init = true}]",
            "BadName object[0].name",
        ),
        (
            "object = [{name = \"t\", kind = \"timer\", public = true}]",
            "read",
        ),
        (
            "object = [{name = \"t\", kind = \"timer\", size = 1}]",
            "UnknownKey object[0].size",
        ),
        (
            "object = [{name = \"t\", kind = \"timers\"}]",
            "BadName object[0].kind",
        ),
        ("object = [{kind = \"timer\"}]", "MissingKey object[0].name"),
        ("futex = []", "read"),
        (
            "futex = [{name = \"f\", partition = \"p\", offset = 0}]",
            "read",
        ),
        ("futex = 0", "WrongType futex"),
        ("futexes = []", "UnknownKey futexes"),
    ] {
        let whole = format!(in rt.alloc(); "{}{}", HEAD, text)?;
        let found = answer(rt.alloc(), whole.as_str())?;
        assert_eq!(rt; found.as_str(), told);
    }
    let found = answer(rt.alloc(), "mpu = 3")?;
    assert_eq!(rt; found.as_str(), "Version");
    Ok(())
}

/// Partitions by their variables: each fault with its place, and what isn't of this version.
#[test]
fn tells_the_first_fault_of_variables(rt: HostRuntime) -> Result<(), Fail> {
    for (partition, told) in [
        ("vars = []", "read"),
        (
            "vars = [{name = \"x\", size = 1, align = 32, data = \"\"}]",
            "read",
        ),
        ("data = 4", "MissingKey partition[0].vars"),
        (
            "vars = [{name = \"x\"}]",
            "MissingKey partition[0].vars[0].size",
        ),
        ("vars = {name = \"x\"}", "WrongType partition[0].vars"),
        (
            "vars = [{name = \"x\", size = 1}, 4]",
            "WrongType partition[0].vars[1]",
        ),
        (
            "vars = [{name = \"x\", size = 1, align = \"4\"}]",
            "WrongType partition[0].vars[0].align",
        ),
        (
            "vars = [{name = \"x\", size = 1, data = \"0\"}]",
            "WrongType partition[0].vars[0].data",
        ),
        (
            "size = 32, vars = [{zed = 1, name = \"x\", size = 1}]",
            "UnknownKey partition[0].size",
        ),
        (
            "vars = [{name = \"x\", size = 1}, {name = \"y\", size = 1, attr = 1}]",
            "UnknownKey partition[0].vars[1].attr",
        ),
        (
            "vars = [{name = \"x\", size = 1}, {name = \"y\", size = 4, align = 3}]",
            "BadName partition[0].vars[1].align",
        ),
        (
            "vars = [{name = \"1x\", size = 1}]",
            "BadName partition[0].vars[0].name",
        ),
    ] {
        let whole = format!(in rt.alloc();
            "{}, {}{}",
            "version = 2\nmpu = \"pmsav7\"\nregions = 8\noops = \"abort\"\npartition = [{name = \"p\", attr = \"P_RW_U_RW\"",
            partition,
            "}]"
        )?;
        let found = answer(rt.alloc(), whole.as_str())?;
        assert_eq!(rt; found.as_str(), told);
    }
    let first = format!(in rt.alloc();
        "{}{}",
        HEAD, "partition = [{name = \"p\", size = 32, attr = \"P_RW_U_RW\", vars = []}]"
    )?;
    let found = answer(rt.alloc(), first.as_str())?;
    assert_eq!(rt; found.as_str(), "UnknownKey partition[0].vars");
    let third = answer(rt.alloc(), "version = 3")?;
    assert_eq!(rt; third.as_str(), "Version");
    Ok(())
}

/// The entries of a document, with the bytes of its data.
#[test]
fn reads_entries(rt: HostRuntime) -> Result<(), Fail> {
    let text = format!(in rt.alloc();
        "{}{}",
        HEAD,
        "rodata = \"00ff10\"\npool = [{name = \"h\", size = 4096}]\nscript = [{name = \"m\", lines = [\"k_oops\", \"\"]}]\n"
    )?;
    match read_document(rt.alloc(), text.as_bytes()) {
        Ok(description) => {
            assert_eq!(rt; description.regions, 8);
            assert_eq!(rt; description.rodata.as_slice(), [0, 255, 16].as_slice());
            assert_eq!(rt; description.pools.len(), 1);
            match description.scripts.as_slice().first() {
                Some(script) => assert_eq!(rt; script.lines.len(), 2),
                None => assert!(rt; false),
            }
            assert!(rt; description.objects.is_empty());
        }
        Err(_) => assert!(rt; false),
    }
    Ok(())
}
