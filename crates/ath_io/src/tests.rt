use super::*;
use std::alloc::{AllocError, Global};
use std::fs;
use std::process::Abort;
use std::test::Fail;

// Fetches, and compares the bytes with these; `None` stands for a failure.
fn expect_fetch<S: Shelf>(
    rt: &(impl Abort + AllocGlobal),
    shelf: &mut S,
    name: &str,
    most: usize,
    want: Option<&str>,
) {
    match (shelf.fetch(rt.alloc(), name, most), want) {
        (Ok(bytes), Some(text)) => assert_eq!(rt; bytes.as_slice(), text.as_bytes(), "{name}"),
        (Err(FetchError::Failed), None) => {}
        _ => panic!(rt; "{name} with {most}"),
    }
}

fn text(alloc: Global, name: &str, bytes: &str) -> Result<(String, Vec<u8>), AllocError> {
    Ok((
        String::from_str(alloc, name)?,
        bytes.as_bytes().to_vec(alloc)?,
    ))
}

#[test]
fn a_shelf_in_memory_fails_where_it_is_told_to(rt: HostRuntime) -> Result<(), Fail> {
    let alloc = rt.alloc();
    let mut texts = Vec::new(alloc);
    texts.push(text(alloc, "a.ath", "(declare A Boolean)")?)?;
    texts.push(text(alloc, "b.ath", "")?)?;
    texts.push(text(alloc, "a.ath", "second")?)?;
    let mut shelf = MemoryShelf::new(alloc, texts, [2, 2, 9].to_vec(alloc)?);
    assert_eq!(rt; shelf.faults(), 0);
    let fetches = [
        ("a.ath", 8, Some("(declare"), 0),
        ("a.ath", 8, None, 1),
        ("a.ath", 100, Some("(declare A Boolean)"), 1),
        ("b.ath", 4, Some(""), 1),
        ("c.ath", 4, None, 2),
        ("a.ath", 0, Some(""), 2),
    ];
    for (name, most, want, faults) in fetches {
        expect_fetch(&rt, &mut shelf, name, most, want);
        assert_eq!(rt; shelf.faults(), faults, "{name}");
    }
    let asked = shelf.asked();
    assert_eq!(rt; asked.len(), 6);
    assert_eq!(rt; asked[4].as_str(), "c.ath");
    Ok(())
}

#[test]
fn a_sink_in_memory_fails_where_it_is_told_to(rt: HostRuntime) -> Result<(), Fail> {
    let alloc = rt.alloc();
    let failing = [(2, 1), (2, 3), (4, 9)].to_vec(alloc)?;
    let mut sink = MemorySink::new(alloc, 10, failing)?;
    let puts = [
        ("abc", true, "abc"),
        ("def", false, "abcd"),
        ("", true, "abcd"),
        ("ef", false, "abcdef"),
        ("ghijk", false, "abcdefghij"),
        ("", true, "abcdefghij"),
        ("l", false, "abcdefghij"),
    ];
    for (piece, taken, held) in puts {
        assert_eq!(rt; sink.put(piece.as_bytes()).is_ok(), taken, "{piece}");
        assert_eq!(rt; sink.bytes(), held.as_bytes(), "{piece}");
    }
    assert_eq!(rt; sink.faults(), 4);
    Ok(())
}

#[test]
fn files_are_read_by_their_paths(rt: HostRuntime) -> Result<(), Fail> {
    let long = vec![in rt.alloc(); b'x'; 10_000]?;
    fs::write(&rt, "long", &long)?;
    fs::write(&rt, "-", "a dash")?;
    let mut shelf = DirShelf::new(&rt);
    let bytes = shelf.fetch(rt.alloc(), "long", 20_000)?;
    assert_eq!(rt; bytes.as_slice(), long.as_slice());
    let bytes = shelf.fetch(rt.alloc(), "long", 9_999)?;
    assert_eq!(rt; bytes.len(), 9_999);
    let fetches = [
        ("-", 6, Some("a dash")),
        ("-", 3, Some("a d")),
        ("absent", 3, None),
        (".", 3, None),
    ];
    assert!(rt; shelf.failed().is_none());
    for (name, most, want) in fetches {
        expect_fetch(&rt, &mut shelf, name, most, want);
        if want.is_none() {
            assert_eq!(rt; shelf.failed(), Some(name));
        }
    }
    Ok(())
}

#[test]
fn a_writer_takes_what_it_can(rt: HostRuntime) {
    let mut page = [b'.'; 8];
    let mut sink = OutSink::new(page.as_mut_slice());
    for (piece, taken) in [
        ("abcde", true),
        ("", true),
        ("fghij", false),
        ("", true),
        ("k", false),
    ] {
        assert_eq!(rt; sink.put(piece.as_bytes()).is_ok(), taken, "{piece}");
    }
    drop(sink);
    assert_eq!(rt; page.as_slice(), b"abcdefgh".as_slice());
}
