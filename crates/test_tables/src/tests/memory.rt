//! Steps at the memory's cell.

use super::image;
use std::test::Fail;
use um_base::{Addr, Found, Piece, ThreadIx};
use um_tables::{Here, MemoryAct, Said, Sites};

/// Bytes are stored, loaded, copied in, and read as a text as far as the thread may read.
#[test]
fn stored_bytes_are_read_back(rt: HostRuntime) -> Result<(), Fail> {
    let image = image(rt.alloc());
    let here = &here!(image, 0);
    let mut sites = super::tables(rt.alloc())?;
    let mut buffer = Piece::new();
    let thread = ThreadIx(0);
    let addr = Addr(0x2000_0000);
    let store = MemoryAct::Store {
        thread,
        addr,
        size: 4,
        value: 0x41_4243,
    };
    assert!(rt; matches!(sites.memory(here, &store, &mut buffer), Said::Made(_)));
    let load = MemoryAct::Load {
        thread,
        addr,
        size: 2,
    };
    is_made!(rt, sites.memory(here, &load, &mut buffer), said => said.value == 0x4243);
    let short = MemoryAct::CopyStr {
        thread,
        addr,
        readable: 3,
    };
    is_made!(rt, sites.memory(here, &short, &mut buffer), said => said.found == Found::Unreadable && buffer.len() == 0);
    let whole = MemoryAct::CopyStr {
        thread,
        addr,
        readable: 32,
    };
    is_made!(rt, sites.memory(here, &whole, &mut buffer), said => said.found == Found::Length(3) && buffer.as_slice() == b"CBA".as_slice());
    Ok(())
}
