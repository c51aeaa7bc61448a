//! Standard output and the files of the system. What they hold they don't tell, and they are never sound.

ghost use Rattle.std.specs.Prelude.{◌≡◌, ◌≤◌, None, false, vec_len, length, IfOk};

use crate::faults::{Failed, LoadFault, StoreFault, fail};
use crate::outside::{Files, Sink};
use std::alloc::Global;
use std::fs::OpenFile;
use std::io::{ErrorKind, Read, Write};
use std::{fs, io, rt};

/// How many bytes of a file one read asks for.
const STRIDE: usize = 65_536;

/// A sink over the runtime's standard output.
#[derive(Drop)]
pub struct StdSink<R: Print + Drop> {
    rt: R,
    faults: u64,
}

impl<R: Print + Drop> StdSink<R> {
    /// No write failed so far.
    pub fn new(rt: R) -> StdSink<R>
        ensures told { ⟦<StdSink<R> as Sink>⟧.told result ≡ None }
        ensures faults { ⟦<StdSink<R> as Sink>⟧.faults result ≡ 0 }
    {
        StdSink { rt, faults: 0 }
    }
}

impl<R: Print + Drop> Sink for StdSink<R> {
    ghost faults = { λ s. s.faults };

    ghost told = { λ s. None };

    ghost sure = { λ s. 0 };

    fn write(&mut self, piece: &[u8]) -> Result<usize, Failed> {
        match write_some(&self.rt, piece) {
            Ok(n) if n > 0 => Ok(n),
            _ => fail(&mut self.faults, Failed),
        }
    }
}

/// One write, again where a signal breaks it off.
fn write_some<R: Print>(rt: &R, piece: &[u8]) -> io::Result<usize>
    ensures { IfOk result (λ n. n ≤ length piece.now) }
{
    for _ in 0..u64::MAX {
        match rt.write_some(piece) {
            Err(error) if error.kind() == ErrorKind::Interrupted => {}
            answer => return answer,
        }
    }
    Ok(0)
}

/// The files of the runtime's system.
#[derive(Drop)]
pub struct StdFiles<R: rt::Files + Drop> {
    rt: R,
    load_faults: u64,
    save_faults: u64,
}

impl<R: rt::Files + Drop> StdFiles<R> {
    /// No load and no save failed so far.
    pub fn new(rt: R) -> StdFiles<R>
        ensures held { ⟦<StdFiles<R> as Files>⟧.held result ≡ None }
        ensures loads { ⟦<StdFiles<R> as Files>⟧.load_faults result ≡ 0 }
        ensures saves { ⟦<StdFiles<R> as Files>⟧.save_faults result ≡ 0 }
    {
        StdFiles {
            rt,
            load_faults: 0,
            save_faults: 0,
        }
    }
}

impl<R: rt::Files + Drop> Files for StdFiles<R> {
    ghost load_faults = { λ f. f.load_faults };

    ghost save_faults = { λ f. f.save_faults };

    ghost held = { λ f. None };

    ghost sound = { λ f. false };

    fn load(&mut self, alloc: Global, name: &str, max: u64) -> Result<Vec<u8>, LoadFault> {
        match load_file(&self.rt, alloc, name, max) {
            Err(LoadFault::Failed) => fail(&mut self.load_faults, LoadFault::Failed),
            answer => answer,
        }
    }

    fn save(&mut self, _alloc: Global, name: &str, bytes: &[u8]) -> Result<(), StoreFault> {
        match save_file(&self.rt, name, bytes) {
            Ok(()) => Ok(()),
            Err(_) => fail(&mut self.save_faults, StoreFault::Failed),
        }
    }
}

/// The bytes of a file, at most `max` of them.
fn load_file<R: rt::Files>(
    rt: &R,
    alloc: Global,
    name: &str,
    max: u64,
) -> Result<Vec<u8>, LoadFault>
    ensures { IfOk result (λ bytes. vec_len bytes ≤ max) }
{
    match fs::open(rt, name) {
        Ok(mut file) => {
            let told = told_length(&file).min(max);
            read_whole(&mut file, alloc, told, max)
        }
        Err(_) => Err(LoadFault::Failed),
    }
}

/// The length that the system tells of a file, and 0 where it tells none. The file may hold more or less.
fn told_length<F: OpenFile>(file: &F) -> u64 {
    match file.metadata() {
        Ok(metadata) => metadata.len(),
        Err(_) => 0,
    }
}

/// All that is left to read, at most `max` bytes. Room for `told` bytes is taken at once, so that a long list
/// isn't moved while it grows, and each read writes straight behind the bytes that came before.
fn read_whole<F: Read>(
    file: &mut F,
    alloc: Global,
    told: u64,
    max: u64,
) -> Result<Vec<u8>, LoadFault>
    ensures { IfOk result (λ bytes. vec_len bytes ≤ max) }
{
    let mut bytes = Vec::with_capacity(alloc, (told as usize).saturating_add(STRIDE))?;
    for _ in 0..u64::MAX {
        let len = bytes.len();
        bytes.resize(len.saturating_add(STRIDE), 0)?;
        match file.read(bytes.split_at_mut(len).1) {
            Ok(0) => {
                bytes.truncate(len);
                return Ok(bytes);
            }
            Ok(n) if n as u64 > max - len as u64 => return Err(LoadFault::TooLong),
            Ok(n) => bytes.truncate(len + n),
            Err(error) if error.kind() == ErrorKind::Interrupted => bytes.truncate(len),
            Err(_) => return Err(LoadFault::Failed),
        }
    }
    Err(LoadFault::Failed)
}

/// Makes or empties a file and writes the bytes.
fn save_file<R: rt::Files>(rt: &R, name: &str, bytes: &[u8]) -> io::Result<()> {
    fs::create(rt, name)?.write_all(bytes)
}
