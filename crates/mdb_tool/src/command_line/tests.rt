use super::*;
use std::env;
use std::env::FillError;
use std::rt::Env;
use std::test::Fail;

/// A system with these arguments, the program's name first, and no variables.
#[derive(Clone, Copy)]
struct Given(&'static [&'static [u8]]);

impl Env for Given {
    fn arg(&self, i: usize, buf: &mut [u8]) -> Result<usize, FillError> {
        let Some(arg) = self.0.get(i) else {
            return Err(FillError::NotPresent);
        };
        if buf.len() < arg.len() {
            return Err(FillError::TooLong);
        }
        buf[..arg.len()].copy_from_slice(arg);
        Ok(arg.len())
    }

    fn var(&self, _name: &str, _buf: &mut [u8]) -> Result<usize, FillError> {
        Err(FillError::NotPresent)
    }

    fn var_at(&self, _i: usize, _buf: &mut [u8]) -> Result<usize, FillError> {
        Err(FillError::NotPresent)
    }
}

#[test]
fn the_words_stand_behind_the_name(rt: HostRuntime) -> Result<(), Fail> {
    let rows: [(&'static [&'static [u8]], Result<&[&str], Status>); 5] = [
        (&[], Ok(&[])),
        (&[b"mdb"], Ok(&[])),
        (&[b"mdb", b"", b"root", b"16"], Ok(&["", "root", "16"])),
        (&[b"mdb", b"-", b"\xff"], Err(Status::BadWords(1))),
        (&[b"\xff", b"-"], Err(Status::BadWords(1))),
    ];
    for (args, want) in rows {
        let alloc = rt.alloc();
        match (
            read_command_line(alloc, env::args(&(Given(args), alloc))),
            want,
        ) {
            (Ok(words), Ok(want)) => {
                assert_eq!(rt; words.len(), want.len());
                for (word, wanted) in words.iter().zip(want) {
                    assert_eq!(rt; word.as_str(), *wanted);
                }
            }
            (Err(status), Err(wanted)) => assert_eq!(rt; status, wanted),
            _ => panic!(rt; "of {args:?}"),
        }
    }
    Ok(())
}
