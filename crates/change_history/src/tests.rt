use super::*;
use bit_keys::{Id, Range};
use mdb_base::{Change, NoMemory};
use std::alloc::Global;
use std::process::Abort;
use std::test::Fail;

/// A key, its value before, and after.
type Row<'a> = (&'a [u8], Option<&'a [u8]>, Option<&'a [u8]>);

fn owned(alloc: Global, value: Option<&[u8]>) -> Result<Option<Vec<u8>>, NoMemory> {
    match value {
        Some(bytes) => Ok(Some(Vec::from_slice(alloc, bytes)?)),
        None => Ok(None),
    }
}

fn deltas(alloc: Global, rows: &[Row<'_>]) -> Result<Vec<Delta>, NoMemory> {
    let mut made = Vec::new(alloc);
    for (key, before, after) in rows {
        let before = owned(alloc, *before)?;
        let after = owned(alloc, *after)?;
        made.push(Delta {
            key: Vec::from_slice(alloc, key)?,
            before,
            after,
        })?;
    }
    Ok(made)
}

/// A root of 32 such bytes.
fn root(byte: u8) -> Id {
    [byte; 32]
}

fn all() -> Result<Range, NoMemory> {
    match Range::new(None, None) {
        Some(range) => Ok(range),
        None => Err(NoMemory),
    }
}

fn assert_changes(rt: &impl Abort, changes: &[Change], want: &[(&[u8], Option<&[u8]>)]) {
    assert_eq!(rt; changes.len(), want.len());
    for (change, (key, value)) in changes.iter().zip(want) {
        assert_eq!(rt; change.key.as_slice(), *key);
        assert_eq!(rt; change.value.as_deref(), *value);
    }
}

/// Three commits on the empty map: a key gets a value, another one, and its first one again beside a second key.
fn three_commits(alloc: Global) -> Result<History, NoMemory> {
    let mut history = History::new(alloc, 64, 268_435_456, root(0))?;
    history.push(deltas(alloc, &[(b"\x0a", None, Some(b"a"))])?, root(1));
    let second = deltas(alloc, &[(b"\x0a", Some(b"a"), Some(b"b"))])?;
    history.push(second, root(2));
    let third = deltas(
        alloc,
        &[
            (b"\x0a", Some(b"b"), Some(b"a")),
            (b"\x0b", None, Some(b"c")),
        ],
    )?;
    history.push(third, root(3));
    Ok(history)
}

#[test]
fn changes_are_told_forward_and_not_back(rt: HostRuntime) -> Result<(), Fail> {
    let alloc = rt.alloc();
    let history = three_commits(alloc)?;
    let rows: [(u8, u8, Option<HistoryFault>, &[(&[u8], Option<&[u8]>)]); 9] = [
        // What was changed and changed back is not listed.
        (1, 3, None, &[(b"\x0b", Some(b"c"))]),
        (1, 2, None, &[(b"\x0a", Some(b"b"))]),
        (0, 3, None, &[(b"\x0a", Some(b"a")), (b"\x0b", Some(b"c"))]),
        (2, 3, None, &[(b"\x0a", Some(b"a")), (b"\x0b", Some(b"c"))]),
        (3, 3, None, &[]),
        (3, 2, Some(HistoryFault::NoStart), &[]),
        (9, 3, Some(HistoryFault::NoStart), &[]),
        (3, 9, Some(HistoryFault::NoEnd), &[]),
        (9, 9, Some(HistoryFault::NoEnd), &[]),
    ];
    for (from, to, fault, want) in rows {
        let range = all()?;
        match history.changes(alloc, &root(from), &root(to), &range, 9, 99) {
            Ok(taken) => {
                assert_eq!(rt; fault, None);
                assert_changes(&rt, &taken.changes, want);
                assert!(rt; !taken.cut);
            }
            Err(told) => assert_eq!(rt; Some(told), fault),
        }
    }
    Ok(())
}

#[test]
fn a_range_and_two_numbers_bound_what_is_told(rt: HostRuntime) -> Result<(), Fail> {
    let alloc = rt.alloc();
    let history = three_commits(alloc)?;
    // The start of the range, the entries and the bytes that are allowed, what is told, and whether it is cut.
    let rows: [(u8, u32, u32, &[(&[u8], Option<&[u8]>)], bool); 6] = [
        (
            0x00,
            2,
            4,
            &[(b"\x0a", Some(b"a")), (b"\x0b", Some(b"c"))],
            false,
        ),
        (0x0a, 2, 3, &[(b"\x0a", Some(b"a"))], true),
        (0x00, 1, 4, &[(b"\x0a", Some(b"a"))], true),
        (0x00, 0, 0, &[(b"\x0a", Some(b"a"))], true),
        (0x0b, 1, 0, &[(b"\x0b", Some(b"c"))], false),
        (0x0c, 1, 0, &[], false),
    ];
    for (start, pairs, bytes, want, cut) in rows {
        let start = Vec::from_slice(alloc, &[start])?;
        let Some(range) = Range::new(Some(start), None) else {
            return Err(NoMemory.into());
        };
        let taken = history.changes(alloc, &root(0), &root(3), &range, pairs, bytes)?;
        assert_changes(&rt, &taken.changes, want);
        assert_eq!(rt; taken.cut, cut);
    }
    Ok(())
}

#[test]
fn a_restart_holds_the_present_map_alone(rt: HostRuntime) -> Result<(), Fail> {
    let alloc = rt.alloc();
    let mut history = three_commits(alloc)?;
    history.restart(root(4));
    for number in 0..4 {
        assert!(rt; !history.held(&root(number)), "root {number}");
    }
    assert_eq!(rt; history.back(0), Some(root(4)));
    assert_eq!(rt; history.back(1), None);
    assert_eq!(rt; history.limit(), 268_435_456);
    // It goes on from there.
    history.push(deltas(alloc, &[(b"k", None, Some(b"v"))])?, root(5));
    assert_eq!(rt; history.back(1), Some(root(4)));
    Ok(())
}

#[test]
fn the_65th_commit_lets_the_first_map_go(rt: HostRuntime) -> Result<(), Fail> {
    let alloc = rt.alloc();
    let mut history = History::new(alloc, 64, 268_435_456, root(0))?;
    for number in 1..65 {
        history.push(deltas(alloc, &[])?, root(number));
    }
    assert!(rt; history.held(&root(0)));
    assert_eq!(rt; history.back(64), Some(root(0)));
    history.push(deltas(alloc, &[])?, root(65));
    assert!(rt; !history.held(&root(0)));
    assert!(rt; history.held(&root(1)));
    assert_eq!(rt; history.back(0), Some(root(65)));
    assert_eq!(rt; history.back(64), Some(root(1)));
    assert_eq!(rt; history.back(65), None);
    Ok(())
}

#[test]
fn a_heavy_commit_lets_all_maps_before_it_go(rt: HostRuntime) -> Result<(), Fail> {
    let alloc = rt.alloc();
    // A commit weighs its key and both values: two and then six bytes. How many maps stay before the last, by the limit.
    let rows: [(u64, bool, bool); 4] = [
        (8, true, true),
        (7, false, true),
        (6, false, true),
        (5, false, false),
    ];
    for (limit, first, second) in rows {
        let mut history = History::new(alloc, 64, limit, root(0))?;
        history.push(deltas(alloc, &[(b"k", None, Some(b"v"))])?, root(1));
        let heavy = deltas(alloc, &[(b"k", Some(b"v"), Some(b"word"))])?;
        history.push(heavy, root(2));
        assert_eq!(rt; history.held(&root(0)), first);
        assert_eq!(rt; history.held(&root(1)), second);
        assert!(rt; history.held(&root(2)));
    }
    Ok(())
}

#[test]
fn the_way_back_leads_to_each_map_that_is_held(rt: HostRuntime) -> Result<(), Fail> {
    let alloc = rt.alloc();
    let history = three_commits(alloc)?;
    let rows: [(u8, &[(&[u8], Option<&[u8]>)]); 4] = [
        (3, &[]),
        (2, &[(b"\x0a", Some(b"b")), (b"\x0b", None)]),
        (1, &[(b"\x0b", None)]),
        (0, &[(b"\x0a", None), (b"\x0b", None)]),
    ];
    for (target, want) in rows {
        let batch = history.undo_to(alloc, &root(target))?;
        assert_changes(&rt, batch.changes(), want);
    }
    match history.undo_to(alloc, &root(9)) {
        Err(fault) => assert_eq!(rt; fault, HistoryFault::NoEnd),
        Ok(_) => assert!(rt; false, "a root that no map has"),
    }
    Ok(())
}
