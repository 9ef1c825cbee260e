//! One walk through a shelf's calls, with each way to fail.

use super::*;
use std::test::Fail as TestFail;

fn keeps(shelf: &MemoryShelf, name: &[u8], want: Option<&[u8]>) -> bool {
    match (shelf.stored(name), want) {
        (Some(got), Some(want)) => got == want,
        (None, None) => true,
        _ => false,
    }
}

#[test]
fn fails_as_it_was_told_to(rt: HostRuntime) -> Result<(), TestFail> {
    let fails = [
        Fail { call: 4, kept: 2 },
        Fail { call: 4, kept: 9 },
        Fail { call: 7, kept: 0 },
    ];
    let mut shelf = MemoryShelf::new(rt.alloc(), 20, &fails)?;
    shelf.add_source(b"a", b"first")?;
    shelf.add_source(b"a", b"second")?;
    let mut into = Text::from_bytes(rt.alloc(), b"old")?;

    assert_eq!(rt; shelf.fetch(b"a", 5, &mut into), Fetched::Done);
    assert_eq!(rt; into.as_slice(), b"first".as_slice());
    assert_eq!(rt; shelf.fetch(b"a", 4, &mut into), Fetched::Long);
    assert!(rt; into.is_empty());
    assert_eq!(rt; shelf.fetch(b"b", 5, &mut into), Fetched::Failed);

    assert_eq!(rt; shelf.store(b"c", b"cut here"), Stored::Failed);
    assert!(rt; keeps(&shelf, b"c", Some(b"cu")));
    assert_eq!(rt; shelf.store(b"c", b"whole"), Stored::Done);
    assert!(rt; keeps(&shelf, b"c", Some(b"whole")));
    assert_eq!(rt; shelf.store(b"d", b"too long"), Stored::Failed);
    assert!(rt; keeps(&shelf, b"d", None));

    shelf.tell(b"lost");
    shelf.tell(b"kept");
    shelf.tell(b"ten bytes.");
    assert_eq!(rt; shelf.told(), b"kept".as_slice());
    Ok(())
}
