//! A disk over two files of the system, one an area. It tells nothing of what it holds: that real files keep what
//! the trait promises of a disk is assumed.

ghost use Rattle.std.specs.Prelude.{◌≡◌, ℕ, ◌≤◌, false, length, IfOk};

use crate::disk::Disk;
use mls_base::faults::{Failed, counted};
use std::fmt::{self, Write as _};
use std::fs::{File, OpenFile, OpenOptions};
use std::io::{ErrorKind, Read, Seek, SeekFrom, Write};
use std::{fs, io, rt};

/// The folder of all checkpoint files.
const FOLDER: &str = "checkpoints";

/// The files `checkpoints/rank-r.0` and `checkpoints/rank-r.1` of rank r. An absent file is empty; folder and file
/// are made at the first write.
#[derive(Drop)]
pub struct FileDisk<R: rt::Files + Drop> {
    rt: R,
    rank: u32,
    faults: u64,
}

impl<R: rt::Files + Drop> FileDisk<R> {
    /// The disk of a rank. No call failed so far.
    pub fn new(rt: R, rank: u32) -> FileDisk<R>
        ensures tells { ⟦<FileDisk<R> as Disk>⟧.tells result ≡ false }
        ensures faults { ⟦<FileDisk<R> as Disk>⟧.faults result ≡ 0 }
    {
        FileDisk {
            rt,
            rank,
            faults: 0,
        }
    }
}

impl<R: rt::Files + Drop> Disk for FileDisk<R> {
    ghost use Rattle.mls_slot.specs.Silent.{silent};

    ghost faults = { λ d. d.faults };

    ghost tells = { λ d. false };

    ghost view = { λ d. silent };

    ghost counts_now = { λ d t image tells. Prim.cc };

    ghost only_now = { λ d image tells. Prim.cc };

    ghost seen_left = { λ d tells. Prim.cc };

    fn len(&mut self, area: u32) -> Result<u64, Failed> {
        counted(&mut self.faults, file_length(&self.rt, self.rank, area))
    }

    fn read(&mut self, area: u32, at: u64, into: &mut [u8]) -> Result<usize, Failed> {
        counted(
            &mut self.faults,
            read_file(&self.rt, self.rank, area, at, into),
        )
    }

    fn write_at(&mut self, area: u32, at: u64, bytes: &[u8]) -> Result<(), Failed> {
        counted(
            &mut self.faults,
            write_file(&self.rt, self.rank, area, at, bytes),
        )
    }

    fn sync(&mut self, area: u32) -> Result<(), Failed> {
        counted(&mut self.faults, sync_file(&self.rt, self.rank, area))
    }
}

/// The most bytes of the name of a file.
const LONGEST_NAME: usize = 32;

/// The name of an area's file.
#[derive(Drop)]
struct AreaName {
    bytes: [u8; LONGEST_NAME],
    len: usize,
    ghost within: { len ≤ 32 },
}

impl AreaName {
    fn of(rank: u32, area: u32) -> Result<AreaName, fmt::Error> {
        let mut name = AreaName {
            bytes: [0; LONGEST_NAME],
            len: 0,
        };
        write!(name, "checkpoints/rank-{rank}.{area}")?;
        Ok(name)
    }

    fn as_bytes(&self) -> &[u8] {
        &self.bytes[..self.len]
    }
}

impl fmt::Write for AreaName {
    fn write_str(&mut self, text: &str) -> fmt::Result {
        let bytes = text.as_bytes();
        if bytes.len() > LONGEST_NAME - self.len {
            return Err(fmt::Error);
        }
        let end = self.len + bytes.len();
        self.bytes[self.len..end].copy_from_slice(bytes);
        self.len = end;
        Ok(())
    }
}

/// An area's file, opened as asked.
fn open<R: rt::Files>(rt: &R, how: &OpenOptions, rank: u32, area: u32) -> io::Result<R::File> {
    let Ok(name) = AreaName::of(rank, area) else {
        return Err(io::Error::from(ErrorKind::InvalidInput));
    };
    match str::from_utf8(name.as_bytes()) {
        Ok(path) => how.open(rt, path),
        Err(_) => Err(io::Error::from(ErrorKind::InvalidInput)),
    }
}

/// An area's file to be read, or None where there is none.
fn open_present<R: rt::Files>(rt: &R, rank: u32, area: u32) -> io::Result<Option<R::File>> {
    match open(rt, OpenOptions::new().read(true), rank, area) {
        Ok(file) => Ok(Some(file)),
        Err(error) if error.kind() == ErrorKind::NotFound => Ok(None),
        Err(error) => Err(error),
    }
}

fn file_length<R: rt::Files>(rt: &R, rank: u32, area: u32) -> io::Result<u64> {
    match open_present(rt, rank, area)? {
        Some(file) => Ok(file.metadata()?.len()),
        None => Ok(0),
    }
}

fn read_file<R: rt::Files>(
    rt: &R,
    rank: u32,
    area: u32,
    at: u64,
    into: &mut [u8],
) -> io::Result<usize>
    ensures { IfOk result (λ n. n ≤ length into.old) }
{
    match open_present(rt, rank, area)? {
        Some(mut file) => {
            file.seek(SeekFrom::Start(at))?;
            fill(&mut file, into)
        }
        None => Ok(0),
    }
}

/// Reads until there is no room, or no byte is left, and gives the number of bytes.
fn fill<F: Read>(file: &mut F, into: &mut [u8]) -> io::Result<usize>
    ensures { IfOk result (λ n. n ≤ length into.old) }
{
    let mut filled = 0;
    for _ in 0..u64::MAX {
        match file.read(&mut into[filled..]) {
            Ok(0) => return Ok(filled),
            Ok(n) => filled += n,
            Err(error) if error.kind() == ErrorKind::Interrupted => {}
            Err(error) => return Err(error),
        }
    }
    Ok(filled)
}

fn write_file<R: rt::Files>(rt: &R, rank: u32, area: u32, at: u64, bytes: &[u8]) -> io::Result<()> {
    let mut file = match open(rt, OpenOptions::new().write(true), rank, area) {
        Err(error) if error.kind() == ErrorKind::NotFound => make(rt, rank, area)?,
        answer => answer?,
    };
    file.seek(SeekFrom::Start(at))?;
    file.write_all(bytes)
}

/// Makes the folder and an area's file, and syncs the names of both.
fn make<R: rt::Files>(rt: &R, rank: u32, area: u32) -> io::Result<R::File> {
    fs::create_dir_all(rt, FOLDER)?;
    let file = open(rt, OpenOptions::new().write(true).create(true), rank, area)?;
    File::open(rt, FOLDER)?.sync_all()?;
    File::open(rt, ".")?.sync_all()?;
    Ok(file)
}

/// Syncs an area's file, where there is one.
fn sync_file<R: rt::Files>(rt: &R, rank: u32, area: u32) -> io::Result<()> {
    match open_present(rt, rank, area)? {
        Some(file) => file.sync_all(),
        None => Ok(()),
    }
}
