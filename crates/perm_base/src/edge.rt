//! Real files and the standard output. Neither tells what it holds.

ghost use Rattle.std.specs.Prelude.{◌≡◌, ◌≤◌, ◌<◌, length, None, IfOk, is_err, if◌then◌else◌, ⊤};
ghost use Rattle.std.specs.Result.{result_ok};
ghost use Rattle.perm_base.specs.Counts.{next_count};
ghost use Rattle.perm_base.specs.Edge.{taken_count};

use crate::outside::{Failed, Shelf, Sink};
use std::io::{Read, Seek, SeekFrom, Write};
use std::rt::Files;
use std::{fs, io};

/// The files of the system. Each read opens its file anew. A file that isn't there counts as a fault,
/// as every error does.
pub struct FileShelf<'a, R: Files> {
    rt: &'a R,
    /// How many reads failed. At the greatest `u64` the count stands still.
    pub faults: u64,
}

impl<'a, R: Files> FileShelf<'a, R> {
    pub fn new(rt: &'a R) -> FileShelf<'a, R>
        ensures { result.faults ≡ 0 }
    {
        FileShelf { rt, faults: 0 }
    }
}

impl<R: Files> Drop for FileShelf<'_, R> {
    fn drop(self) {
        let FileShelf { rt: _, faults: _ } = self;
    }
}

impl<R: Files> Shelf for FileShelf<'_, R> {
    ghost told = { λ _. None };

    ghost faults = { λ shelf. shelf.faults };

    ghost reads = { λ _. 0 };

    ghost read_gives = { λ _ _ _ _ _ _. ⊤ };

    fn read(&mut self, path: &str, at: u64, into: &mut [u8]) -> Result<usize, Failed> {
        read_answer(&mut self.faults, read_at(self.rt, path, at, into))
    }
}

fn read_at<R: Files>(rt: &R, path: &str, at: u64, into: &mut [u8]) -> io::Result<usize>
    ensures { IfOk result (λ n. n ≤ length into.new) }
{
    let mut file = fs::open(rt, path)?;
    file.seek(SeekFrom::Start(at))?;
    file.read(into)
}

/// The answer to a read. An error is counted as a fault.
fn read_answer(faults: &mut u64, read: io::Result<usize>) -> Result<usize, Failed>
    ensures done { result_ok result ≡ result_ok read }
    ensures not_fewer { faults.old ≤ faults.new }
    ensures faults { faults.new ≡ (if is_err result then next_count faults.old else faults.old) }
{
    answer(faults, read.ok())
}

/// The standard output. A write that takes nothing counts as a fault, as every error does.
pub struct StdSink<'a, R: Print> {
    rt: &'a R,
    /// How many writes failed. At the greatest `u64` the count stands still.
    pub faults: u64,
}

impl<'a, R: Print> StdSink<'a, R> {
    pub fn new(rt: &'a R) -> StdSink<'a, R>
        ensures { result.faults ≡ 0 }
    {
        StdSink { rt, faults: 0 }
    }
}

impl<R: Print> Drop for StdSink<'_, R> {
    fn drop(self) {
        let StdSink { rt: _, faults: _ } = self;
    }
}

impl<R: Print> Sink for StdSink<'_, R> {
    ghost told = { λ _. None };

    ghost faults = { λ sink. sink.faults };

    ghost write_gives = { λ _ _ _ _. ⊤ };

    fn write(&mut self, piece: &[u8]) -> Result<usize, Failed> {
        write_answer(&mut self.faults, io::writer(self.rt).write(piece))
    }
}

/// The answer to a write. An error is counted as a fault, and so is a write that took nothing.
fn write_answer(faults: &mut u64, written: io::Result<usize>) -> Result<usize, Failed>
    ensures done { result_ok result ≡ taken_count (result_ok written) }
    ensures not_fewer { faults.old ≤ faults.new }
    ensures faults { faults.new ≡ (if is_err result then next_count faults.old else faults.old) }
{
    answer(faults, written.ok().filter(|count| *count > 0))
}

/// Counts a fault where nothing was done.
fn answer(faults: &mut u64, count: Option<usize>) -> Result<usize, Failed>
    ensures done { result_ok result ≡ count }
    ensures not_fewer { faults.old ≤ faults.new }
    ensures faults { faults.new ≡ (if is_err result then next_count faults.old else faults.old) }
{
    if count.is_none() {
        *faults = faults.saturating_add(1);
    }
    count.ok_or(Failed)
}
