ghost use Rattle.std.specs.Prelude.{Some};

use super::*;
use std::alloc::Global;
use std::test::Fail;

mod batches;

fn numbers(alloc: Global, all: &[u64]) -> Result<Vec<u64>, Fail> {
    Ok(Vec::from_slice(alloc, all)?)
}

// Through the bounds, since crates above know a source and a sink by these alone.
fn read<S: Source>(source: &mut S, into: &mut [u8]) -> Result<usize, Failed> {
    source.read(into)
}

fn write<K: Sink>(sink: &mut K, piece: &[u8]) -> Result<usize, Failed> {
    sink.write(piece)
}

#[test]
fn a_number_is_appended_in_its_shortest_spelling(rt: HostRuntime) -> Result<(), Fail> {
    let alloc = rt.alloc();
    let rows: [(u64, &[u8]); 8] = [
        (0, &[0x00]),
        (127, &[0x7f]),
        (128, &[0x80, 0x01]),
        (200, &[0xc8, 0x01]),
        (1024, &[0x80, 0x08]),
        (2048, &[0x80, 0x10]),
        (1048576, &[0x80, 0x80, 0x40]),
        (
            u64::MAX,
            &[0xff, 0xff, 0xff, 0xff, 0xff, 0xff, 0xff, 0xff, 0xff, 0x01],
        ),
    ];
    for (number, spelling) in rows {
        let mut out = Vec::from_slice(alloc, b"x")?;
        assert_eq!(rt; write_uvarint(&mut out, number), Ok(()), "for {number}");
        assert_eq!(rt; &out[..1], b"x".as_slice(), "for {number}");
        assert_eq!(rt; &out[1..], spelling, "for {number}");
    }
    Ok(())
}

#[test]
fn a_source_gives_pieces_and_fails_the_listed_reads(rt: HostRuntime) -> Result<(), Fail> {
    let alloc = rt.alloc();
    let bytes = Vec::from_slice(alloc, b"abcdefgh")?;
    let mut source = MemSource::new(bytes, 3, numbers(alloc, &[1, 5])?);
    let rows: [(usize, Result<&[u8], Failed>); 8] = [
        (8, Ok(b"abc")),
        (8, Err(Failed)),
        (2, Ok(b"de")),
        (0, Ok(b"")),
        (8, Ok(b"fgh")),
        (8, Err(Failed)),
        (8, Ok(b"")),
        (0, Ok(b"")),
    ];
    for (room, want) in rows {
        let mut into = [0u8; 8];
        let room = room.min(8);
        match (read(&mut source, &mut into[..room]), want) {
            (Ok(count), Ok(given)) => assert_eq!(rt; &into[..count.min(8)], given),
            (got, want) => assert!(rt; got.is_err() && want.is_err()),
        }
    }
    Ok(())
}

#[test]
fn a_sink_keeps_what_it_took_and_fails_the_listed_writes(rt: HostRuntime) -> Result<(), Fail> {
    let alloc = rt.alloc();
    let mut sink = MemSink::new(alloc, numbers(alloc, &[1])?);
    let rows: [(&[u8], Result<usize, Failed>, &[u8]); 4] = [
        (b"ab", Ok(2), b"ab"),
        (b"cd", Err(Failed), b"ab"),
        (b"", Ok(0), b"ab"),
        (b"cd", Ok(2), b"abcd"),
    ];
    for (piece, want, kept) in rows {
        assert_eq!(rt; write(&mut sink, piece), want);
        assert_eq!(rt; sink.bytes(), kept);
    }
    Ok(())
}

#[test]
fn a_number_is_read_where_it_is_the_shortest_of_64_bits(rt: HostRuntime) {
    let rows: [(&[u8], usize, Result<(u64, usize), VarintFault>); 18] = [
        (&[0x00], 0, Ok((0, 1))),
        (&[0x7f], 0, Ok((127, 1))),
        (&[0x80, 0x01], 0, Ok((128, 2))),
        (&[0xc8, 0x01, 0xff], 0, Ok((200, 2))),
        (&[0xff, 0x80, 0x80, 0x40, 0x00], 1, Ok((1048576, 4))),
        (
            &[0xff, 0xff, 0xff, 0xff, 0xff, 0xff, 0xff, 0xff, 0xff, 0x01],
            0,
            Ok((u64::MAX, 10)),
        ),
        (&[], 0, Err(VarintFault::Short)),
        (&[0x05], 1, Err(VarintFault::Short)),
        (&[0x80], 0, Err(VarintFault::Short)),
        (&[0xff; 9], 0, Err(VarintFault::Short)),
        (&[0x80, 0x00], 0, Err(VarintFault::NotShortest)),
        (&[0xc8, 0x81, 0x00], 0, Err(VarintFault::NotShortest)),
        (
            &[0xff, 0xff, 0xff, 0xff, 0xff, 0xff, 0xff, 0xff, 0xff, 0x00],
            0,
            Err(VarintFault::NotShortest),
        ),
        (
            &[0x80, 0x80, 0x80, 0x80, 0x80, 0x80, 0x80, 0x80, 0x80, 0x02],
            0,
            Err(VarintFault::Long),
        ),
        (
            &[0x80, 0x80, 0x80, 0x80, 0x80, 0x80, 0x80, 0x80, 0x80, 0x80],
            0,
            Err(VarintFault::Long),
        ),
        (&[0xff; 12], 0, Err(VarintFault::Long)),
        (&[0xff; 12], 2, Err(VarintFault::Long)),
        (&[0xff; 12], 3, Err(VarintFault::Short)),
    ];
    for (bytes, at, want) in rows {
        if at <= bytes.len() {
            assert_eq!(rt; read_uvarint(bytes, at), want, "for {bytes:?} at {at}");
        }
    }
}

/// A sink that takes at most three bytes at a write.
#[derive(Drop)]
struct ShortSink {
    inner: MemSink,
}

impl Sink for ShortSink {
    ghost taken = { λ s. Some s.inner.taken };

    ghost faults = { λ s. s.inner.faults };

    fn write(&mut self, piece: &[u8]) -> Result<usize, Failed> {
        self.inner.write(&piece[..piece.len().min(3)])
    }
}

#[test]
fn a_text_is_written_to_its_end_or_to_the_write_that_fails(rt: HostRuntime) -> Result<(), Fail> {
    let alloc = rt.alloc();
    let rows: [(&[u8], u64, Result<(), Failed>, &[u8]); 6] = [
        (b"", 0, Ok(()), b""),
        (b"abc", 1, Ok(()), b"abc"),
        (b"abcdefgh", 3, Ok(()), b"abcdefgh"),
        (b"abcdefgh", 2, Err(Failed), b"abcdef"),
        (b"abcdefgh", 1, Err(Failed), b"abc"),
        (b"abcdefgh", 0, Err(Failed), b""),
    ];
    for (text, failing, want, taken) in rows {
        let mut out = ShortSink {
            inner: MemSink::new(alloc, numbers(alloc, &[failing])?),
        };
        assert_eq!(rt; write_all(&mut out, text), want, "of {text:?} at {failing}");
        assert_eq!(rt; out.inner.bytes(), taken, "of {text:?} at {failing}");
    }
    Ok(())
}
