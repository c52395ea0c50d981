use super::*;
use disk_world::{Disk, Failed};
use mdb_base::{Sink, Source};
use std::os::unix::fs::symlink;
use std::process::Abort;
use std::test::Fail;
use std::time::{SystemTime, UNIX_EPOCH};
use std::{env, fs};

/// A folder that nobody else has.
fn new_folder(rt: &HostRuntime) -> Result<String, Fail> {
    let since = SystemTime::now(rt)?.duration_since(UNIX_EPOCH)?.as_nanos();
    let parent = env::temp_dir(rt)?;
    let parent = parent.as_str();
    let folder = format!(in rt.alloc(); "{parent}/mdb_files_{since}")?;
    fs::create_dir(rt, folder.as_str())?;
    Ok(folder)
}

#[derive(Clone, Copy)]
enum Ask<'a> {
    Read(u64, usize),
    Write(u64, &'a [u8]),
    Cut(u64),
    Sync,
}

fn answer<D: Disk>(disk: &mut D, ask: Ask) -> Result<(), Failed> {
    match ask {
        Ask::Read(at, count) => {
            let mut bytes = [0u8; 8];
            disk.read(3, at, &mut bytes[..count.min(8)])
        }
        Ask::Write(at, bytes) => disk.write_at(3, at, bytes),
        Ask::Cut(length) => disk.cut(3, length),
        Ask::Sync => disk.sync(3),
    }
}

/// Whether a file has these bytes, through the trait.
fn reads<D: Disk>(disk: &mut D, bytes: &[u8]) -> bool {
    let mut read = [0u8; 8];
    let count = bytes.len().min(8);
    disk.len(3) == Ok(bytes.len() as u64)
        && disk.read(3, 0, &mut read[..count]) == Ok(())
        && read[..count] == bytes[..count]
}

// The rows are those of the disks in memory, which tell what is read.
#[test]
fn what_was_written_and_synced_is_read_by_another_disk(rt: HostRuntime) -> Result<(), Fail> {
    let folder = new_folder(&rt)?;
    let mut disk = FileDisk::new(&rt, Some(folder.clone()?));
    let far = (1 << 63) - 1;
    let rows: [(Ask, bool, &[u8]); 11] = [
        (Ask::Read(0, 0), true, &[]),
        (Ask::Read(1, 0), false, &[]),
        (Ask::Read(0, 1), false, &[]),
        (Ask::Write(3, &[]), true, &[0, 0, 0]),
        (Ask::Write(5, &[7, 8]), true, &[0, 0, 0, 0, 0, 7, 8]),
        (Ask::Write(1, &[9]), true, &[0, 9, 0, 0, 0, 7, 8]),
        (Ask::Write(far, &[1]), false, &[0, 9, 0, 0, 0, 7, 8]),
        (Ask::Write(far + 1, &[]), false, &[0, 9, 0, 0, 0, 7, 8]),
        (Ask::Cut(9), true, &[0, 9, 0, 0, 0, 7, 8]),
        (Ask::Cut(6), true, &[0, 9, 0, 0, 0, 7]),
        (Ask::Sync, true, &[0, 9, 0, 0, 0, 7]),
    ];
    for (turn, (ask, goes_well, bytes)) in rows.into_iter().enumerate() {
        assert_eq!(rt; answer(&mut disk, ask).is_ok(), goes_well, "call {turn}");
        assert!(rt; reads(&mut disk, bytes), "after call {turn}");
    }
    assert_eq!(rt; disk.faults(), 4);
    let mut other = FileDisk::new(&rt, Some(folder.clone()?));
    assert!(rt; reads(&mut other, &[0, 9, 0, 0, 0, 7]));
    let name = folder.as_str();
    let path = format!(in rt.alloc(); "{name}/mdb3")?;
    assert_eq!(rt;
        fs::read(&rt, path.as_str())?.as_slice(),
        [0, 9, 0, 0, 0, 7].as_slice()
    );
    fs::remove_dir_all(&rt, name)?;
    Ok(())
}

/// Each call on a file fails and is counted.
fn fails_each_call<D: Disk>(rt: &impl Abort, disk: &mut D) {
    let asks: [Ask; 4] = [Ask::Read(0, 1), Ask::Write(0, &[1]), Ask::Cut(0), Ask::Sync];
    for (turn, ask) in asks.into_iter().enumerate() {
        assert_eq!(rt; answer(disk, ask), Err(Failed), "call {turn}");
    }
    assert_eq!(rt; disk.len(3), Err(Failed));
}

// The permissions of files would not keep a privileged user from anything, so these folders take
// no file from any user: one is missing, one is a file, and one is the system's own.
#[test]
fn what_the_system_refuses_fails_and_is_counted(rt: HostRuntime) -> Result<(), Fail> {
    let folder = new_folder(&rt)?;
    let name = folder.as_str();
    let file = format!(in rt.alloc(); "{name}/mdb4")?;
    fs::write(&rt, file.as_str(), b"x")?;
    let missing = format!(in rt.alloc(); "{name}/none")?;
    for refused in [missing, file, String::from_str(rt.alloc(), "/proc")?] {
        let mut disk = FileDisk::new(&rt, Some(refused));
        fails_each_call(&rt, &mut disk);
        assert_eq!(rt; disk.faults(), 5);
    }
    // A file that takes no byte, as on a full disk, and one that cannot be synced.
    for (device, number) in [("/dev/full", 0), ("/dev/null", 1)] {
        let link = format!(in rt.alloc(); "{name}/mdb{number}")?;
        symlink(&rt, device, link.as_str())?;
    }
    let mut disk = FileDisk::new(&rt, Some(folder.clone()?));
    assert_eq!(rt;
        (disk.write_at(0, 0, b"x"), disk.faults()),
        (Err(Failed), 1)
    );
    assert_eq!(rt; (disk.sync(1), disk.faults()), (Err(Failed), 2));
    assert_eq!(rt; (disk.len(4), disk.faults()), (Ok(1), 2));
    fs::remove_dir_all(&rt, name)?;
    Ok(())
}

// Without a folder the system is not asked, so there is no cause of a failure but that.
#[test]
fn without_a_folder_each_call_fails_and_is_counted(rt: HostRuntime) -> Result<(), Fail> {
    let mut disk = FileDisk::new(&rt, None);
    fails_each_call(&rt, &mut disk);
    assert_eq!(rt; disk.faults(), 5);
    Ok(())
}

#[test]
fn bytes_pass_through_the_streams(rt: HostRuntime) -> Result<(), Fail> {
    let mut source = StdSource::new(b"abc".as_slice());
    let mut into = [0u8; 2];
    let rows: [(&[u8], usize); 3] = [(b"ab", 2), (b"c", 1), (b"", 0)];
    for (given, count) in rows {
        assert_eq!(rt; source.read(&mut into), Ok(count));
        assert_eq!(rt; &into[..count.min(2)], given);
    }
    let mut sink = StdSink::new(Vec::new(rt.alloc()));
    assert_eq!(rt; sink.write(b"abc"), Ok(3));
    assert_eq!(rt; sink.inner.as_slice(), b"abc".as_slice());
    assert_eq!(rt; (source.faults, sink.faults), (0, 0));
    // A sink that is full takes nothing, and counts it.
    let mut room = [0u8; 2];
    let mut full = StdSink::new(room.as_mut_slice());
    let rows: [(&[u8], usize, u64); 3] = [(b"abc", 2, 0), (b"c", 0, 1), (b"", 0, 1)];
    for (piece, count, faults) in rows {
        assert_eq!(rt; full.write(piece), Ok(count));
        assert_eq!(rt; full.faults, faults);
    }
    Ok(())
}
