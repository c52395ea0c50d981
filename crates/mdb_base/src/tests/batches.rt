// Batches that were told changes, against what the format of batches says of them.
use crate::{Batch, BatchFault, NoMemory};
use std::alloc::Global;
use std::test::Fail;

fn owned(alloc: Global, bytes: &[u8]) -> Result<Vec<u8>, BatchFault> {
    Vec::from_slice(alloc, bytes).map_err(|_| BatchFault::NoMemory)
}

fn told(alloc: Global, changes: &[(&[u8], Option<&[u8]>)]) -> Result<Batch, BatchFault> {
    let mut batch = Batch::new(alloc);
    for (key, value) in changes {
        let value = match value {
            Some(bytes) => Some(owned(alloc, bytes)?),
            None => None,
        };
        batch.set(owned(alloc, key)?, value)?;
    }
    Ok(batch)
}

#[test]
fn a_batch_is_spelled_in_the_order_of_its_keys(rt: HostRuntime) -> Result<(), Fail> {
    let alloc = rt.alloc();
    let rows: [(&[(&[u8], Option<&[u8]>)], &[u8]); 8] = [
        (&[], &[0x00]),
        (&[(b"k", Some(b"v"))], &[0x01, 0x01, 0x6b, 0x01, 0x01, 0x76]),
        (&[(b"l", None)], &[0x01, 0x01, 0x6c, 0x00]),
        (&[(b"", Some(b""))], &[0x01, 0x00, 0x01, 0x00]),
        (
            &[(b"l", None), (b"k", Some(b"v"))],
            &[0x02, 0x01, 0x6b, 0x01, 0x01, 0x76, 0x01, 0x6c, 0x00],
        ),
        (
            &[(b"k", None), (b"k", Some(b"v"))],
            &[0x01, 0x01, 0x6b, 0x01, 0x01, 0x76],
        ),
        (
            &[(b"k", Some(b"v")), (b"l", None), (b"k", None)],
            &[0x02, 0x01, 0x6b, 0x00, 0x01, 0x6c, 0x00],
        ),
        (
            &[(b"ab", None), (b"b", None), (b"a", None)],
            &[
                0x03, 0x01, 0x61, 0x00, 0x02, 0x61, 0x62, 0x00, 0x01, 0x62, 0x00,
            ],
        ),
    ];
    for (changes, payload) in rows {
        let batch = told(alloc, changes)?;
        let mut out = Vec::from_slice(alloc, b"x")?;
        assert_eq!(rt; batch.write(&mut out), Ok(()));
        assert_eq!(rt; &out[..1], b"x".as_slice());
        assert_eq!(rt; &out[1..], payload);
        assert_eq!(rt; batch.payload_len(), payload.len() as u64);
    }
    Ok(())
}

#[test]
fn a_key_or_a_value_longer_than_its_limit_is_refused(rt: HostRuntime) -> Result<(), Fail> {
    let alloc = rt.alloc();
    let rows: [(usize, Option<usize>, Result<(), BatchFault>); 8] = [
        (0, Some(0), Ok(())),
        (256, None, Ok(())),
        (257, None, Err(BatchFault::LongKey(257))),
        (1, Some(262_144), Ok(())),
        (1, Some(262_145), Err(BatchFault::LongValue(262_145))),
        (256, Some(262_144), Ok(())),
        (256, Some(262_145), Err(BatchFault::LongValue(262_145))),
        (257, Some(262_145), Err(BatchFault::LongKey(257))),
    ];
    for (key, value, want) in rows {
        let mut batch = told(alloc, &[(b"kept", None)])?;
        let key = vec![in alloc; 0x7a; key]?;
        let value = match value {
            Some(len) => Some(vec![in alloc; 0x76; len]?),
            None => None,
        };
        assert_eq!(rt; batch.set(key, value), want);
        let count = if want.is_ok() { 2 } else { 1 };
        assert_eq!(rt; batch.changes().len(), count);
    }
    Ok(())
}

// In the order of byte strings.
const KEYS: [&[u8]; 10] = [
    b"",
    b"\x00",
    b"\x00\x00",
    b"\x00\x01",
    b"\x01",
    b"a",
    b"ab",
    b"b",
    b"\x7f\xff",
    b"\x80",
];

// The number after this one, of a generator below 65537.
fn next(state: u64) -> u64 {
    (state % 65537 * 75 + 74) % 65537
}

// A change as a line of text.
fn push_line(out: &mut Vec<u8>, key: &[u8], value: Option<&[u8]>) -> Result<(), NoMemory> {
    out.extend_from_slice(key)?;
    if let Some(bytes) = value {
        out.push(b'=')?;
        out.extend_from_slice(bytes)?;
    }
    out.push(b'\n')?;
    Ok(())
}

// The changes of a batch, a line for each.
fn lines_of(alloc: Global, batch: &Batch) -> Result<Vec<u8>, NoMemory> {
    let mut out = Vec::new(alloc);
    for change in batch.changes() {
        push_line(&mut out, &change.key, change.value.as_deref())?;
    }
    Ok(out)
}

// A line for each of `KEYS` of which something was told last.
fn lines_told(alloc: Global, last: &[Option<Option<u8>>; 10]) -> Result<Vec<u8>, NoMemory> {
    let mut out = Vec::new(alloc);
    for (key, value) in KEYS.iter().zip(last) {
        match value {
            Some(Some(byte)) => push_line(&mut out, key, Some(&[*byte]))?,
            Some(None) => push_line(&mut out, key, None)?,
            None => {}
        }
    }
    Ok(out)
}

#[test]
fn a_batch_holds_the_last_change_of_each_key(rt: HostRuntime) -> Result<(), Fail> {
    let alloc = rt.alloc();
    let mut batch = Batch::new(alloc);
    let mut last: [Option<Option<u8>>; 10] = [None; 10];
    let mut state = 1;
    for _ in 0..60 {
        state = next(state);
        let at = (state % 10) as usize;
        let byte = (state / 10 % 256) as u8;
        if byte % 3 == 0 {
            last[at] = Some(None);
            assert_eq!(rt; batch.set(owned(alloc, KEYS[at])?, None), Ok(()));
        } else {
            last[at] = Some(Some(byte));
            let value = owned(alloc, &[byte])?;
            assert_eq!(rt; batch.set(owned(alloc, KEYS[at])?, Some(value)), Ok(()));
        }
        let want = lines_told(alloc, &last)?;
        assert_eq!(rt; lines_of(alloc, &batch)?, want);
        assert_eq!(rt; lines_of(alloc, &batch.copy(alloc)?)?, want);
    }
    Ok(())
}
