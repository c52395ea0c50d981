use super::*;
use mdb_base::MemSource;
use std::alloc::AllocError;
use std::test::Fail;

// The lines with a bar behind each, and then how the text ended. A read that fails is tried once more.
fn told<S: Source>(alloc: Global, source: &mut S, limit: usize) -> Result<Vec<u8>, AllocError> {
    let mut reader = LineReader::new(alloc, limit);
    let mut told = Vec::new(alloc);
    'steps: for _ in 0..20 {
        let end = match reader.advance(source) {
            Ok(true) => {
                told.extend_from_slice(reader.line())?;
                told.push(b'|')?;
                continue;
            }
            Err(ReaderFault::Read) => continue,
            Ok(false) => "end",
            Err(ReaderFault::Limit) => "limit",
            Err(ReaderFault::Overlong) => "overlong",
            Err(ReaderFault::NoMemory) => return Err(AllocError),
        };
        told.extend_from_slice(end.as_bytes())?;
        return Ok(told);
    }
    Ok(told)
}

// What is told must not depend on the size of the pieces, nor on which read fails.
#[test]
fn lines_end_at_newlines_and_at_the_limit(rt: HostRuntime) -> Result<(), Fail> {
    let alloc = rt.alloc();
    let rows: [(&str, usize, &str); 16] = [
        ("", 0, "end"),
        ("", 9, "end"),
        ("a\nb\n", 9, "a|b|end"),
        ("a\nb", 9, "a|b|end"),
        ("\n\n", 9, "||end"),
        ("a\r\nb\r", 9, "a|b\r|end"),
        ("a\rb\r\r\nc", 9, "a\rb\r|c|end"),
        ("ab\ncd\n", 6, "ab|cd|end"),
        ("ab\ncd\n", 5, "ab|limit"),
        ("ab\ncd\n", 3, "ab|limit"),
        ("ab\ncd\n", 2, "limit"),
        ("ab\r\n", 4, "ab|end"),
        ("ab\r\n", 3, "limit"),
        ("ab", 2, "ab|end"),
        ("ab", 1, "limit"),
        ("a", 0, "limit"),
    ];
    for (text, limit, want) in rows {
        for piece in 1..5usize {
            for failing in 0..9u64 {
                let bytes = Vec::from_slice(alloc, text.as_bytes())?;
                let mut source = MemSource::new(bytes, piece, Vec::from_slice(alloc, &[failing])?);
                let got = told(alloc, &mut source, limit)?;
                assert_eq!(rt;
                    got.as_slice(),
                    want.as_bytes(),
                    "{text} in pieces of {piece}, read {failing} failing"
                );
            }
        }
    }
    Ok(())
}

// The first read gives the text, the second its end, and a third would fail.
#[test]
fn a_source_that_has_ended_is_not_asked_again(rt: HostRuntime) -> Result<(), Fail> {
    let alloc = rt.alloc();
    let bytes = Vec::from_slice(alloc, b"a\nb")?;
    let mut source = MemSource::new(bytes, 9, Vec::from_slice(alloc, &[2])?);
    let mut reader = LineReader::new(alloc, 9);
    assert_eq!(rt; reader.advance(&mut source), Ok(true));
    assert_eq!(rt; reader.line(), b"a".as_slice());
    assert_eq!(rt; reader.advance(&mut source), Ok(true));
    assert_eq!(rt; reader.line(), b"b".as_slice());
    assert_eq!(rt; reader.advance(&mut source), Ok(false));
    assert_eq!(rt; reader.advance(&mut source), Ok(false));
    Ok(())
}
