//! A library over the folder in which the program was started, which tells nothing of content: the trusted edge.
ghost use Rattle.std.specs.Prelude.{None, false, ◌≡◌};

use crate::{FetchFault, Library, MOST_BYTES, PutFault};
use std::alloc::Global;
use std::fs::OpenFile;
use std::io::{ErrorKind, Read, Write};
use std::rt::Files;
use std::{fs, io};

/// The data sets of the folder in which the program was started: NAME lies in the file `NAME.csv`.
///
/// A store writes a file of its own and renames it over `NAME.csv`, so that a store that fails leaves the old bytes, and
/// a reader sees the old bytes or the new ones, never a part. The file is made anew, as the first of `NAME.csv.part1`,
/// `NAME.csv.part2`, .. that is not there: no existing file is opened and no link is followed, and what a concurrent or a
/// killed run has made stays that run's. No data set lies in a file of such a name. The mode of the old file is kept.
#[derive(Drop)]
pub struct DirLibrary<R: Files> {
    alloc: Global,
    files: R,
    fetch_faults: u64,
    store_faults: u64,
    misses: u64,
}

impl<R: Files> DirLibrary<R> {
    /// The folder's library, with no fault and no miss yet. The allocator is for the paths of files.
    pub fn new(alloc: Global, files: R) -> Self
        ensures { result ≡ record { alloc = alloc; files = files; fetch_faults = 0; store_faults = 0; misses = 0 } }
    {
        DirLibrary {
            alloc,
            files,
            fetch_faults: 0,
            store_faults: 0,
            misses: 0,
        }
    }
}

impl<R: Files> Library for DirLibrary<R> {
    ghost held = { λ l. None };

    ghost fetch_faults = { λ l. l.fetch_faults };

    ghost store_faults = { λ l. l.store_faults };

    ghost misses = { λ l q. l.misses };

    ghost quiet_fetches = { λ l. false };

    ghost quiet_stores = { λ l. false };

    fn fetch(&mut self, alloc: Global, name: &str, out: &mut Vec<u8>) -> Result<(), FetchFault> {
        match read_set(&self.files, alloc, name, out) {
            Ok(()) if out.len() > MOST_BYTES => Err(FetchFault::TooLong),
            Ok(()) => Ok(()),
            Err(e) if e.kind() == ErrorKind::NotFound => {
                self.misses = self.misses.saturating_add(1);
                Err(FetchFault::Absent)
            }
            Err(e) if e.kind() == ErrorKind::OutOfMemory => Err(FetchFault::NoMemory),
            Err(_) => {
                self.fetch_faults = self.fetch_faults.saturating_add(1);
                Err(FetchFault::Failed)
            }
        }
    }

    fn store(&mut self, name: &str, bytes: &[u8]) -> Result<(), PutFault> {
        match replace_set(&self.files, self.alloc, name, bytes) {
            Ok(()) => Ok(()),
            Err(e) if e.kind() == ErrorKind::OutOfMemory => Err(PutFault::NoMemory),
            Err(_) => {
                self.store_faults = self.store_faults.saturating_add(1);
                Err(PutFault::Failed)
            }
        }
    }
}

// The bytes of a data set, or of a longer one the first that tell it from one that may be read.
fn read_set<R: Files>(files: &R, alloc: Global, name: &str, out: &mut Vec<u8>) -> io::Result<()> {
    let path = format!(in alloc; "{name}.csv")?;
    let file = fs::File::open(files, path.as_str())?;
    file.take(MOST_BYTES as u64 + 1).read_to_end(out)?;
    Ok(())
}

// The most names that are tried for a new file.
const MOST_PARTS: u32 = 10_000;

// Writes the bytes into a new file beside a data set, and puts that in its place only once all are written.
fn replace_set<R: Files>(files: &R, alloc: Global, name: &str, bytes: &[u8]) -> io::Result<()> {
    let path = format!(in alloc; "{name}.csv")?;
    let (part, file) = new_part(files, alloc, path.as_str())?;
    let done = match write_part(files, path.as_str(), file, bytes) {
        Ok(()) => fs::rename(files, part.as_str(), path.as_str()),
        Err(e) => Err(e),
    };
    if done.is_err() {
        // The fault that is reported is the first one.
        let _ = fs::remove_file(files, part.as_str());
    }
    done
}

// A file that this call has made beside the one at this path, with its name.
fn new_part<R: Files>(files: &R, alloc: Global, path: &str) -> io::Result<(String, R::File)> {
    for number in 1..=MOST_PARTS {
        let part = format!(in alloc; "{path}.part{number}")?;
        match fs::File::create_new(files, part.as_str()) {
            Ok(file) => return Ok((part, file)),
            Err(e) if e.kind() == ErrorKind::AlreadyExists => {}
            Err(e) => return Err(e),
        }
    }
    Err(io::Error::from(ErrorKind::AlreadyExists))
}

// Gives a new file the mode of the old one at this path, if there is one, and these bytes, which are on the disk when it
// returns. The file is closed.
fn write_part<R: Files>(files: &R, path: &str, file: R::File, bytes: &[u8]) -> io::Result<()> {
    let mut file = file;
    match fs::metadata(files, path) {
        Ok(old) if old.is_file() => file.set_permissions(old.permissions())?,
        _ => {}
    }
    file.write_all(bytes)?;
    file.sync_all()
}
