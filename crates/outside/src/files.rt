//! The files of the system.
ghost use Rattle.std.specs.Prelude.{◌≡◌, ◌≢◌, ◌<◌, ◌≤◌, length, IfOk, IfErr, IfSome, vec_len};

use crate::calls::one_more;
use crate::shelf::{Shelf, ShelfFault};
use sim_base::Name;
use std::alloc::Global;
use std::io::{ErrorKind, Read, Write};
use std::{fs, io, rt};

/// How many bytes of a file are read at a time.
const CHUNK: usize = 8192;

/// The files of the system, whose names are paths in UTF-8. It tells nothing of them. A file that cannot
/// be opened, read or written, and a name that is no UTF-8, is a fault.
#[derive(Drop)]
pub struct Files<R> {
    rt: R,
    read_faults: u64,
    write_faults: u64,
}

impl<R: rt::Files> Files<R> {
    pub fn new(rt: R) -> Files<R>
        ensures reads { (⟦<Files<R> as Shelf>⟧.seen result).read_faults ≡ 0 }
        ensures writes { (⟦<Files<R> as Shelf>⟧.seen result).write_faults ≡ 0 }
    {
        Files {
            rt,
            read_faults: 0,
            write_faults: 0,
        }
    }
}

impl<R: rt::Files> Shelf for Files<R> {
    ghost use Rattle.outside.specs.Shelf.{Unknown};

    ghost seen = { λ s. record { file = λ _. Unknown; read_faults = s.read_faults; write_faults = s.write_faults } };

    fn read(&mut self, alloc: Global, name: &Name, limit: u64) -> Result<Vec<u8>, ShelfFault> {
        let answer = read_file(&self.rt, alloc, name, limit);
        if let Err(ShelfFault::Failed) = answer {
            self.read_faults = one_more(self.read_faults);
        }
        answer
    }

    fn write(&mut self, _alloc: Global, name: &Name, bytes: &[u8]) -> Result<(), ShelfFault> {
        let answer = write_file(&self.rt, name, bytes);
        if let Err(ShelfFault::Failed) = answer {
            self.write_faults = one_more(self.write_faults);
        }
        answer
    }
}

/// All bytes of the file, if there are at most `limit` of them.
fn read_file<R: rt::Files>(
    rt: &R,
    alloc: Global,
    name: &Name,
    limit: u64,
) -> Result<Vec<u8>, ShelfFault>
    ensures { IfOk result (λ bytes. vec_len bytes ≤ limit) }
{
    let path = path_of(name)?;
    let mut file = fs::open(rt, path).map_err(fault_of)?;
    read_within(&mut file, alloc, limit)
}

/// All bytes that are left, if there are at most `limit` of them; one byte more is read at most.
fn read_within<F: Read>(file: &mut F, alloc: Global, limit: u64) -> Result<Vec<u8>, ShelfFault>
    ensures within { IfOk result (λ bytes. vec_len bytes ≤ limit) }
    ensures bytes { IfOk result (λ bytes. IfSome (F.remaining file.old) (λ left. bytes.items ≡ left)) }
    ensures too_long { result ≡ Err ShelfFault.TooLong → IfSome (F.remaining file.old) (λ left. limit < length left) }
{
    let mut bytes = Vec::new(alloc);
    let mut chunk = [0u8; CHUNK];
    loop {
        let room = limit - bytes.len() as u64;
        let part = room.saturating_add(1).min(CHUNK as u64) as usize;
        let count = file.read(&mut chunk[..part]).map_err(fault_of)?;
        if count == 0 {
            return Ok(bytes);
        }
        if count as u64 > room {
            return Err(ShelfFault::TooLong);
        }
        bytes
            .extend_from_slice(&chunk[..count])
            .map_err(|_| ShelfFault::NoMemory)?;
    }
}

/// Makes these all the bytes of the file. Once the file is open no want of memory is told, since it may
/// hold anything then.
fn write_file<R: rt::Files>(rt: &R, name: &Name, bytes: &[u8]) -> Result<(), ShelfFault>
    ensures { result ≢ Err ShelfFault.TooLong }
{
    let path = path_of(name)?;
    let mut file = fs::create(rt, path).map_err(fault_of)?;
    file.write_all(bytes).map_err(|_| ShelfFault::Failed)
}

/// The path that a name stands for.
fn path_of(name: &Name) -> Result<&str, ShelfFault>
    ensures { IfErr result (λ fault. fault ≡ ShelfFault.Failed) }
{
    str::from_utf8(name.as_bytes()).map_err(|_| ShelfFault::Failed)
}

fn fault_of(error: io::Error) -> ShelfFault
    ensures { result ≢ ShelfFault.TooLong }
{
    match error.kind() {
        ErrorKind::OutOfMemory => ShelfFault::NoMemory,
        _ => ShelfFault::Failed,
    }
}
