//! The outside: where a program comes from, where a listing goes, and where data sets lie.
ghost use Rattle.std.specs.Prelude.{Bool, true, ◌≡◌, ◌<◌, ◌≤◌, ℕ, List, [], Option, length, IfOk, OnOk, IsErrOf};
ghost use Rattle.std.specs.Option.{is_some};
ghost use Rattle.std.specs.Io.{ReadsAtMost, WritesAtMost};
ghost use Rattle.std.specs.Io.KnownBytes.{ReadConsumes, WriteAppends};
ghost use Rattle.nf_io.specs.Causes.{HasCause, HasFetchCause, HasPutCause};
ghost use Rattle.nf_io.specs.Held.{Held, HasName, HasTooMany, LacksName, OthersStay, Stored, most_bytes};

use crate::{Failed, FetchFault, PutFault};
use std::alloc::Global;

/// A stream of bytes that comes in. Whether it tells its content, and whether it is quiet, is the same after each take.
pub trait Source {
    /// The bytes that are left, where it tells them.
    ghost left: { Self → Option (List ℕ) };

    /// How many of its takes have failed. It never falls.
    ghost faults: { Self → ℕ };

    /// Whether it is one of which no take fails.
    ghost quiet: { Self → Bool };

    /// Puts the next bytes into the front of the buffer, and says how many; 0 for a buffer with room is the end, and
    /// comes only where nothing is left.
    ///
    /// `Failed` comes only where the count of faults rose, and takes nothing.
    fn take(&mut self, buf: &mut [u8]) -> Result<usize, Failed>
        ensures bound { ReadsAtMost result buf.new }
        ensures bytes { ReadConsumes (left self.old) (left self.new) result buf.new }
        ensures told { is_some (left self.new) ≡ is_some (left self.old) }
        ensures quiet { quiet self.new ≡ quiet self.old }
        ensures calm { quiet self.old ≡ true → faults self.new ≡ faults self.old }
        ensures cause { HasCause (faults self.old) (faults self.new) result };
}

/// A stream of bytes that goes out. Whether it tells its content, and whether it is quiet, is the same after each put.
pub trait Sink {
    /// The bytes that were written, where it tells them.
    ghost written: { Self → Option (List ℕ) };

    /// How many of its puts have failed. It never falls.
    ghost faults: { Self → ℕ };

    /// Whether it is one of which no put fails.
    ghost quiet: { Self → Bool };

    /// Writes the first bytes of the piece, and says how many: at least 1 of a piece that is not empty.
    ///
    /// `Failed` comes only where the count of faults rose, `NoMemory` where a growth was refused. After either nothing
    /// of the piece was written.
    fn put(&mut self, piece: &[u8]) -> Result<usize, PutFault>
        ensures bound { WritesAtMost result piece.now }
        ensures some { IfOk result (λ n. 0 < length piece.now → 0 < n) }
        ensures bytes { WriteAppends (written self.old) (written self.new) result piece.now }
        ensures told { is_some (written self.new) ≡ is_some (written self.old) }
        ensures quiet { quiet self.new ≡ quiet self.old }
        ensures calm { quiet self.old ≡ true → faults self.new ≡ faults self.old }
        ensures cause { HasPutCause (faults self.old) (faults self.new) result };
}

/// Where data sets lie: a finite map from names to bytes. Whether it tells the map, and whether it is quiet, is the
/// same after each call.
pub trait Library {
    /// The names and their bytes, where it tells them.
    ghost held: { Self → Option Held };

    /// How many of its fetches have failed. It never falls.
    ghost fetch_faults: { Self → ℕ };

    /// How many of its stores have failed. It never falls.
    ghost store_faults: { Self → ℕ };

    /// How often a name was missed. It never falls; it may be one number for all names.
    ghost misses: { Self → List ℕ → ℕ };

    /// Whether it is one of which no fetch fails.
    ghost quiet_fetches: { Self → Bool };

    /// Whether it is one of which no store fails.
    ghost quiet_stores: { Self → Bool };

    /// Puts the bytes of a name into an empty buffer: at most `MOST_BYTES` of them where it answers `Ok`. It does not
    /// change the map.
    ///
    /// `Failed` comes only where the count of failed fetches rose, `Absent` only where the misses of this name rose and
    /// the map lacks it, `TooLong` only where the name has more than `MOST_BYTES` bytes, of which more than `MOST_BYTES`
    /// are then in the buffer, and `NoMemory` where a growth was refused. The misses of all names stay as they were but at
    /// `Absent`, and the count of failed fetches but at `Failed`.
    fn fetch(&mut self, alloc: Global, name: &str, out: &mut Vec<u8>) -> Result<(), FetchFault>
        requires { out.old.items ≡ [] }
        ensures cause { HasFetchCause (fetch_faults self.old) (fetch_faults self.new) (misses self.old name.now) (misses self.new name.now) result }
        ensures misses { (q : List ℕ) → misses self.old q ≤ misses self.new q }
        ensures there { ¬ IsErrOf result FetchFault.Absent → (q : List ℕ) → misses self.new q ≡ misses self.old q }
        ensures sound { ¬ IsErrOf result FetchFault.Failed → fetch_faults self.new ≡ fetch_faults self.old }
        ensures stores { store_faults self.new ≡ store_faults self.old }
        ensures held { held self.new ≡ held self.old }
        ensures short { OnOk result (length out.new.items ≤ most_bytes) }
        ensures long { IsErrOf result FetchFault.TooLong → most_bytes < length out.new.items }
        ensures ok { OnOk result (HasName (held self.old) name.now out.new.items) }
        ensures absent { IsErrOf result FetchFault.Absent → LacksName (held self.old) name.now }
        ensures too_long { IsErrOf result FetchFault.TooLong → HasTooMany (held self.old) name.now }
        ensures quiet_fetches { quiet_fetches self.new ≡ quiet_fetches self.old }
        ensures quiet_stores { quiet_stores self.new ≡ quiet_stores self.old }
        ensures calm { quiet_fetches self.old ≡ true → fetch_faults self.new ≡ fetch_faults self.old };

    /// Gives a name these bytes, and changes no other name. It misses none.
    ///
    /// `Failed` comes only where the count of failed stores rose: what the name then has is unknown, and all other names
    /// are as they were. `NoMemory` comes where a growth was refused, and leaves all names as they were.
    fn store(&mut self, name: &str, bytes: &[u8]) -> Result<(), PutFault>
        ensures cause { HasPutCause (store_faults self.old) (store_faults self.new) result }
        ensures fetches { fetch_faults self.new ≡ fetch_faults self.old }
        ensures misses { (q : List ℕ) → misses self.new q ≡ misses self.old q }
        ensures ok { OnOk result (Stored (held self.old) (held self.new) name.now bytes.now) }
        ensures failed { IsErrOf result PutFault.Failed → OthersStay (held self.old) (held self.new) name.now }
        ensures no_memory { IsErrOf result PutFault.NoMemory → held self.new ≡ held self.old }
        ensures quiet_fetches { quiet_fetches self.new ≡ quiet_fetches self.old }
        ensures quiet_stores { quiet_stores self.new ≡ quiet_stores self.old }
        ensures calm { quiet_stores self.old ≡ true → store_faults self.new ≡ store_faults self.old };
}
