// Five files of a folder, as a disk that tells nothing.
ghost use Rattle.std.specs.Prelude.{◌≡◌, ◌≤◌, ◌+◌, length, Ok, OnOk, IfOk, IsErr, IsNone};
ghost use Rattle.base_model.specs.Faults.{HasCause, CountsFaults};
ghost use Rattle.disk_model.specs.Files.{file_limit};

use disk_world::{Disk, Failed};
use std::fs::{File, OpenFile, OpenOptions};
use std::io;
use std::os::unix::fs::FileExt;
use std::rt::Files;

/// How many bytes a file has at most.
const FILE_LIMIT: u64 = (1 << 63) - 1;

/// The files `mdb0` to `mdb4` of a folder. Each is opened, or made, at the first call on it. Without a folder
/// there are no files, and each call on one fails.
#[derive(Drop)]
pub struct FileDisk<'a, R: Files<File = File> + AllocGlobal> {
    rt: &'a R,
    folder: Option<String>,
    files: [Option<File>; 5],
    /// Whether the folder was synced after the file of that number was opened. A new file is lost
    /// in a crash where its name is.
    named: [bool; 5],
    faults: u64,
}

impl<'a, R: Files<File = File> + AllocGlobal> FileDisk<'a, R> {
    /// The files of this folder, or none at all.
    pub fn new(rt: &'a R, folder: Option<String>) -> Self
        ensures { result.faults ≡ 0 }
    {
        FileDisk {
            rt,
            folder,
            files: [None, None, None, None, None],
            named: [false; 5],
            faults: 0,
        }
    }

    /// How often it has failed.
    pub fn faults(&self) -> u64
        ensures { result ≡ self.now.faults }
    {
        self.faults
    }

    // Counts a failure.
    fn counted<T: Drop>(&mut self, outcome: io::Result<T>) -> Result<T, Failed>
        ensures value { IfOk result (λ x. outcome ≡ Ok x) }
        ensures cause { HasCause self.old.faults self.new.faults result }
        ensures faults { CountsFaults self.old.faults self.new.faults result }
    {
        match outcome {
            Ok(value) => Ok(value),
            Err(_) => {
                self.faults = self.faults.saturating_add(1);
                Err(Failed)
            }
        }
    }

    // The folder, where there is one.
    fn folder(&self) -> io::Result<&str>
        ensures { IsNone self.now.folder → IsErr result }
    {
        match &self.folder {
            Some(folder) => Ok(folder.as_str()),
            None => Err(io::Error::from(io::ErrorKind::NotADirectory)),
        }
    }

    // Opens a file or makes it, unless that was done. Every call on a file begins with this.
    fn open(&mut self, file: u8) -> io::Result<()>
        requires { file ≤ 4 }
        ensures folder { IsNone self.old.folder → IsErr result }
        ensures faults { self.new.faults ≡ self.old.faults }
    {
        let is_open = self.files[file as usize].is_some();
        let folder = self.folder()?;
        if is_open {
            return Ok(());
        }
        let path = format!(in self.rt.alloc(); "{folder}/mdb{file}")?;
        let opened = OpenOptions::new()
            .read(true)
            .write(true)
            .create(true)
            .open(self.rt, path.as_str())?;
        self.files[file as usize] = Some(opened);
        Ok(())
    }

    fn opened(&self, file: u8) -> io::Result<&File>
        requires { file ≤ 4 }
    {
        match &self.files[file as usize] {
            Some(opened) => Ok(opened),
            None => Err(io::Error::from(io::ErrorKind::NotFound)),
        }
    }

    fn length(&mut self, file: u8) -> io::Result<u64>
        requires { file ≤ 4 }
        ensures limit { IfOk result (λ n. n ≤ file_limit) }
        ensures faults { self.new.faults ≡ self.old.faults }
    {
        self.open(file)?;
        let length = self.opened(file)?.metadata()?.len();
        if length > FILE_LIMIT {
            return Err(io::Error::from(io::ErrorKind::FileTooLarge));
        }
        Ok(length)
    }

    // A read of no bytes goes well anywhere for the system, and here not past the end.
    fn fill(&mut self, file: u8, at: u64, into: &mut [u8]) -> io::Result<()>
        requires { file ≤ 4 }
        ensures { self.new.faults ≡ self.old.faults }
    {
        self.open(file)?;
        if !into.is_empty() {
            return self.opened(file)?.read_exact_at(into, at);
        }
        if self.length(file)? < at {
            return Err(io::Error::from(io::ErrorKind::UnexpectedEof));
        }
        Ok(())
    }

    // A write of no bytes does nothing for the system, and here fills the gap before it.
    fn put(&mut self, file: u8, at: u64, bytes: &[u8]) -> io::Result<()>
        requires { file ≤ 4 }
        ensures limit { OnOk result (at + length bytes.now ≤ file_limit) }
        ensures faults { self.new.faults ≡ self.old.faults }
    {
        if at > FILE_LIMIT || bytes.len() as u64 > FILE_LIMIT - at {
            return Err(io::Error::from(io::ErrorKind::FileTooLarge));
        }
        self.open(file)?;
        if !bytes.is_empty() {
            return self.opened(file)?.write_all_at(bytes, at);
        }
        if self.length(file)? < at {
            self.opened(file)?.set_len(at)?;
        }
        Ok(())
    }

    fn shorten(&mut self, file: u8, length: u64) -> io::Result<()>
        requires { file ≤ 4 }
        ensures { self.new.faults ≡ self.old.faults }
    {
        if length < self.length(file)? {
            self.opened(file)?.set_len(length)?;
        }
        Ok(())
    }

    // With the first sync of a file its name is made safe too.
    fn flush(&mut self, file: u8) -> io::Result<()>
        requires { file ≤ 4 }
        ensures { self.new.faults ≡ self.old.faults }
    {
        self.open(file)?;
        self.opened(file)?.sync_all()?;
        if !self.named[file as usize] {
            let folder = self.folder()?;
            let path = format!(in self.rt.alloc(); "{folder}/")?;
            File::open(self.rt, path.as_str())?.sync_all()?;
            self.named[file as usize] = true;
        }
        Ok(())
    }
}

impl<'a, R: Files<File = File> + AllocGlobal> Disk for FileDisk<'a, R> {
    ghost use Rattle.disk_model.specs.Words.{Nothing, no_files, no_moments};

    ghost words = { record { tells = Nothing; seen = λ _. no_files; moments = λ _. no_moments; faults = λ d. d.faults } };

    fn len(&mut self, file: u8) -> Result<u64, Failed> {
        let outcome = self.length(file);
        self.counted(outcome)
    }

    fn read(&mut self, file: u8, at: u64, into: &mut [u8]) -> Result<(), Failed> {
        let outcome = self.fill(file, at, into);
        self.counted(outcome)
    }

    fn write_at(&mut self, file: u8, at: u64, bytes: &[u8]) -> Result<(), Failed> {
        let outcome = self.put(file, at, bytes);
        self.counted(outcome)
    }

    fn cut(&mut self, file: u8, length: u64) -> Result<(), Failed> {
        let outcome = self.shorten(file, length);
        self.counted(outcome)
    }

    fn sync(&mut self, file: u8) -> Result<(), Failed> {
        let outcome = self.flush(file);
        self.counted(outcome)
    }

    ghost lawful = { record { reads_files = λ told. absurd told; reads_an_image = λ told. absurd told } };
}
