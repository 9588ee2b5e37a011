//! The outside in memory, with lists of the calls that are to fail.
ghost use Rattle.std.specs.Prelude.{true, ◌≡◌, ◌≤◌, ◌<◌, ◌↔◌, [], Some, None, drop, length, min, IfOk, OnOk, OnErr, IsErr, IsErrOf};
ghost use Rattle.std.specs.Io.KnownBytes.{ReadConsumes, WriteAppends};
ghost use Rattle.std.specs.Option.{option_map};
ghost use Rattle.nf_io.specs.Calls.{after_call, next_fails, none_fails, one_more, untouched};
ghost use Rattle.nf_io.specs.Causes.{HasCause, HasFetchCause, HasPutCause};
ghost use Rattle.nf_io.specs.Held.{Given, found, most_bytes};
ghost use Rattle.nf_io.specs.Memory.{LibraryState, SinkState, SourceState};
ghost use Rattle.nf_io.specs.Sets.{sets_held};

use crate::calls::Calls;
use crate::{Failed, FetchFault, Library, MOST_BYTES, PutFault, Sink, Source};
use std::alloc::{AllocError, Global};
use std::collections::BTreeMap;
use std::marker::Model;

/// A source that gives the bytes it was made with.
#[derive(Debug, Drop)]
pub struct MemSource {
    bytes: Vec<u8>,
    at: usize,
    takes: Calls,
}

impl Model for MemSource {
    ghost Value = { SourceState };

    ghost view = { λ s. record { left = drop s.at s.bytes.items; takes = s.takes } };

    ghost invariant = { λ s. s.at ≤ length s.bytes.items };
}

impl MemSource {
    /// A source of these bytes, whose takes of these numbers fail; the first take is number 1.
    pub fn new(alloc: Global, bytes: &[u8], failing: &[u64]) -> Result<MemSource, AllocError>
        ensures { IfOk result (λ s. s ≡ record { left = bytes.now; takes = untouched failing.now }) }
    {
        Ok(MemSource {
            bytes: Vec::from_slice(alloc, bytes)?,
            at: 0,
            takes: Calls::new(alloc, failing)?,
        })
    }
}

impl Source for MemSource {
    ghost left = { λ s. Some s.left };

    ghost faults = { λ s. s.takes.faults };

    ghost quiet = { λ s. none_fails s.takes };

    /// Fails where the number of this take is listed, and else gives as many bytes as are left and have room.
    fn take(&mut self, buf: &mut [u8]) -> Result<usize, Failed>
        ensures fails { IsErr result ↔ next_fails self.old.takes ≡ true }
        ensures takes { self.new.takes ≡ after_call self.old.takes }
        ensures count { IfOk result (λ n. n ≡ min (length self.old.left) (length buf.new)) }
        ensures cause { HasCause self.old.takes.faults self.new.takes.faults result }
        ensures calm { none_fails self.old.takes ≡ true → self.new.takes.faults ≡ self.old.takes.faults }
        ensures bytes { ReadConsumes (Some self.old.left) (Some self.new.left) result buf.new }
    {
        if self.takes.next_is_fault() {
            return Err(Failed);
        }
        let rest = &self.bytes[self.at..];
        let count = rest.len().min(buf.len());
        buf[..count].copy_from_slice(&rest[..count]);
        self.at += count;
        Ok(count)
    }
}

/// A sink that keeps what was written.
#[derive(Debug, Drop)]
pub struct MemSink {
    bytes: Vec<u8>,
    puts: Calls,
}

impl Model for MemSink {
    ghost Value = { SinkState };

    ghost view = { λ s. record { written = s.bytes.items; puts = s.puts } };
}

impl MemSink {
    /// An empty sink, whose puts of these numbers fail; the first put is number 1.
    pub fn new(alloc: Global, failing: &[u64]) -> Result<MemSink, AllocError>
        ensures { IfOk result (λ s. s ≡ record { written = []; puts = untouched failing.now }) }
    {
        Ok(MemSink {
            bytes: Vec::new(alloc),
            puts: Calls::new(alloc, failing)?,
        })
    }

    /// What was written.
    pub fn bytes(&self) -> &[u8]
        ensures { result.now ≡ self.now.written }
    {
        &self.bytes
    }
}

impl Sink for MemSink {
    ghost written = { λ s. Some s.written };

    ghost faults = { λ s. s.puts.faults };

    ghost quiet = { λ s. none_fails s.puts };

    /// Fails where the number of this put is listed, and else writes the whole piece.
    fn put(&mut self, piece: &[u8]) -> Result<usize, PutFault>
        ensures fails { IsErrOf result PutFault.Failed ↔ next_fails self.old.puts ≡ true }
        ensures puts { self.new.puts ≡ after_call self.old.puts }
        ensures count { IfOk result (λ n. n ≡ length piece.now) }
        ensures cause { HasPutCause self.old.puts.faults self.new.puts.faults result }
        ensures calm { none_fails self.old.puts ≡ true → self.new.puts.faults ≡ self.old.puts.faults }
        ensures bytes { WriteAppends (Some self.old.written) (Some self.new.written) result piece.now }
    {
        if self.puts.next_is_fault() {
            return Err(PutFault::Failed);
        }
        self.bytes.extend_from_slice(piece)?;
        Ok(piece.len())
    }
}

/// A library of data sets in memory.
#[derive(Drop)]
pub struct MemLibrary {
    alloc: Global,
    sets: BTreeMap<String, Vec<u8>>,
    fetches: Calls,
    stores: Calls,
    misses: u64,
}

impl Model for MemLibrary {
    ghost Value = { LibraryState };

    ghost view = { λ l. record { held = sets_held l.sets; fetches = l.fetches; stores = l.stores; misses = l.misses } };
}

impl MemLibrary {
    /// An empty library, whose fetches and stores of these numbers fail; both are numbered apart, each from 1.
    pub fn new(alloc: Global, fetches: &[u64], stores: &[u64]) -> Result<MemLibrary, AllocError>
        ensures { IfOk result (λ l. l ≡ record { held = []; fetches = untouched fetches.now; stores = untouched stores.now; misses = 0 }) }
    {
        Ok(MemLibrary {
            alloc,
            sets: BTreeMap::new(alloc),
            fetches: Calls::new(alloc, fetches)?,
            stores: Calls::new(alloc, stores)?,
            misses: 0,
        })
    }

    /// Gives a name its bytes. It is no store: it fails by want of memory alone, and is not counted.
    pub fn give(&mut self, name: &str, bytes: &[u8]) -> Result<(), AllocError>
        ensures ok { OnOk result (Given self.old.held self.new.held name.now bytes.now) }
        ensures err { OnErr result (self.new.held ≡ self.old.held) }
        ensures fetches { self.new.fetches ≡ self.old.fetches }
        ensures stores { self.new.stores ≡ self.old.stores }
        ensures misses { self.new.misses ≡ self.old.misses }
    {
        put_set(self.alloc, &mut self.sets, name, bytes)
    }

    /// The bytes of a name, if it has them.
    pub fn get(&self, name: &str) -> Option<&[u8]>
        ensures { option_map (λ s. s.now) result ≡ found self.now.held name.now }
    {
        match self.sets.get(name) {
            Some(bytes) => Some(bytes.as_slice()),
            None => None,
        }
    }
}

impl Library for MemLibrary {
    ghost held = { λ l. Some l.held };

    ghost fetch_faults = { λ l. l.fetches.faults };

    ghost store_faults = { λ l. l.stores.faults };

    ghost misses = { λ l q. l.misses };

    ghost quiet_fetches = { λ l. none_fails l.fetches };

    ghost quiet_stores = { λ l. none_fails l.stores };

    /// Fails where the number of this fetch is listed. It takes no memory but the buffer's.
    fn fetch(&mut self, _alloc: Global, name: &str, out: &mut Vec<u8>) -> Result<(), FetchFault>
        requires { out.old.items ≡ [] }
        ensures fails { IsErrOf result FetchFault.Failed ↔ next_fails self.old.fetches ≡ true }
        ensures fetches { self.new.fetches ≡ after_call self.old.fetches }
        ensures sound { ¬ IsErrOf result FetchFault.Failed → self.new.fetches.faults ≡ self.old.fetches.faults }
        ensures stores { self.new.stores ≡ self.old.stores }
        ensures held { self.new.held ≡ self.old.held }
        ensures cause { HasFetchCause self.old.fetches.faults self.new.fetches.faults self.old.misses self.new.misses result }
        ensures calm { none_fails self.old.fetches ≡ true → self.new.fetches.faults ≡ self.old.fetches.faults }
        ensures missed { IsErrOf result FetchFault.Absent → self.new.misses ≡ one_more self.old.misses }
        ensures found { ¬ IsErrOf result FetchFault.Absent → self.new.misses ≡ self.old.misses }
        ensures ok { OnOk result (found self.old.held name.now ≡ Some out.new.items) }
        ensures short { OnOk result (length out.new.items ≤ most_bytes) }
        ensures absent { IsErrOf result FetchFault.Absent → found self.old.held name.now ≡ None }
        ensures too_long { IsErrOf result FetchFault.TooLong → found self.old.held name.now ≡ Some out.new.items }
        ensures long { IsErrOf result FetchFault.TooLong → most_bytes < length out.new.items }
    {
        if self.fetches.next_is_fault() {
            return Err(FetchFault::Failed);
        }
        let Some(bytes) = self.get(name) else {
            self.misses = self.misses.saturating_add(1);
            return Err(FetchFault::Absent);
        };
        out.extend_from_slice(bytes)?;
        if bytes.len() > MOST_BYTES {
            return Err(FetchFault::TooLong);
        }
        Ok(())
    }

    /// Fails where the number of this store is listed. The map is as it was after any error.
    fn store(&mut self, name: &str, bytes: &[u8]) -> Result<(), PutFault>
        ensures fails { IsErrOf result PutFault.Failed ↔ next_fails self.old.stores ≡ true }
        ensures stores { self.new.stores ≡ after_call self.old.stores }
        ensures fetches { self.new.fetches ≡ self.old.fetches }
        ensures misses { self.new.misses ≡ self.old.misses }
        ensures cause { HasPutCause self.old.stores.faults self.new.stores.faults result }
        ensures calm { none_fails self.old.stores ≡ true → self.new.stores.faults ≡ self.old.stores.faults }
        ensures ok { OnOk result (Given self.old.held self.new.held name.now bytes.now) }
        ensures err { OnErr result (self.new.held ≡ self.old.held) }
    {
        if self.stores.next_is_fault() {
            return Err(PutFault::Failed);
        }
        Ok(put_set(self.alloc, &mut self.sets, name, bytes)?)
    }
}

// Gives a name its bytes in a map.
fn put_set(
    alloc: Global,
    sets: &mut BTreeMap<String, Vec<u8>>,
    name: &str,
    bytes: &[u8],
) -> Result<(), AllocError>
    ensures ok { OnOk result (Given (sets_held sets.old) (sets_held sets.new) name.now bytes.now) }
    ensures err { OnErr result (sets_held sets.new ≡ sets_held sets.old) }
{
    let name = String::from_str(alloc, name)?;
    let bytes = Vec::from_slice(alloc, bytes)?;
    sets.insert(name, bytes)?;
    Ok(())
}
