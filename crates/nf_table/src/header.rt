//! The names of columns, which are the same where they are equal without regard to ASCII case.
ghost use Rattle.std.specs.Prelude.{◌≡◌, ◌++◌, ◌∷◌, ◌&&◌, ◌<◌, ◌/◌, [], IfOk, false, if◌then◌else◌, length, not, true};
ghost use Rattle.std.specs.Option.{option_map};
ghost use Rattle.std.specs.List.{list_any};
ghost use Rattle.std.specs.Str.{bytes_eq, str_to_ascii_lowercase};
ghost use Rattle.csv.specs.Records.{fields_of};
ghost use Rattle.nf_bits.specs.Bits.{has_number};
ghost use Rattle.nf_table.specs.Grid.{same_name};
ghost use Rattle.nf_table.specs.Reading.{repeated_column};
ghost use Rattle.nf_table.specs.Shared.{AreShared, place_of};

use csv::ByteRecord;
use indexmap::IndexSet;
use nf_bits::BitSet;
use std::alloc::{AllocError, Global};
use std::marker::Model;

// Whether two names are the same.
pub(crate) fn is_same_name(name: &[u8], other: &[u8]) -> bool
    ensures { result ≡ same_name name.now other.now }
{
    name.eq_ignore_ascii_case(other)
}

// So few names share a place by chance.
const PLACES_PER_NAME: usize = 16;

// The first cell of a header that is the same name as an earlier one.
//
// The time is in proportion to the bytes of the header, which in a dense table has a column for each variable. Names that
// are the same have the same place among many (Bloom, 1970), so only those whose place is another's too are kept: beside
// these few the search takes four bytes for each cell.
pub(crate) fn repeated_column(
    alloc: Global,
    header: &ByteRecord,
) -> Result<Option<&[u8]>, AllocError>
    ensures { IfOk result (λ found. option_map (λ name. name.now) found ≡ repeated_column (fields_of header.now)) }
{
    let places = header
        .len()
        .saturating_mul(PLACES_PER_NAME)
        .saturating_add(1);
    let shared = shared_places(alloc, header, places)?;
    repeated_among(alloc, header, places, &shared)
}

// The same, where these places are those that several names have.
fn repeated_among<'a>(
    alloc: Global,
    header: &'a ByteRecord,
    places: usize,
    shared: &BitSet,
) -> Result<Option<&'a [u8]>, AllocError>
    requires some { 0 < places }
    requires room { places / 64 < length shared.now }
    requires shared { AreShared shared.now places (fields_of header.now) }
    ensures { IfOk result (λ found. option_map (λ name. name.now) found ≡ repeated_column (fields_of header.now)) }
{
    let mut before = SmallNames::new(alloc);
    for name in header {
        if is_again(alloc, shared, places, &mut before, name)? {
            return Ok(Some(name));
        }
    }
    Ok(None)
}

// Whether a name is the same as one of those before it whose place is another's too. If not, it is then among them if its
// place is.
fn is_again(
    alloc: Global,
    shared: &BitSet,
    places: usize,
    before: &mut SmallNames,
    name: &[u8],
) -> Result<bool, AllocError>
    requires some { 0 < places }
    requires room { places / 64 < length shared.now }
    ensures again { IfOk result (λ again. again ≡ (has_number shared.now (place_of places name.now) && list_any (bytes_eq (str_to_ascii_lowercase name.now)) before.old)) }
    ensures added { IfOk result (λ again. again ≡ false
        → before.new ≡ before.old ++ (if has_number shared.now (place_of places name.now) then str_to_ascii_lowercase name.now ∷ [] else [])) }
{
    if !shared.has(place(name, places)) {
        return Ok(false);
    }
    let is_new = before.add(alloc, name)?;
    Ok(!is_new)
}

// The place of a name among so many, by its small letters.
fn place(name: &[u8], places: usize) -> usize
    requires { 0 < places }
    ensures value { result ≡ place_of places name.now }
    ensures within { result < places }
{
    let mut hash: usize = 0;
    for byte in name {
        hash = hash
            .wrapping_mul(31)
            .wrapping_add(usize::from(byte.to_ascii_lowercase()));
    }
    hash % places
}

// The places that several names have.
fn shared_places(alloc: Global, header: &ByteRecord, places: usize) -> Result<BitSet, AllocError>
    requires { 0 < places }
    ensures room { IfOk result (λ s. places / 64 < length s) }
    ensures shared { IfOk result (λ s. AreShared s places (fields_of header.now)) }
{
    let mut met = BitSet::new(alloc, places)?;
    let mut shared = BitSet::new(alloc, places)?;
    for name in header {
        let at = place(name, places);
        if met.has(at) {
            shared.insert(at);
        }
        met.insert(at);
    }
    Ok(shared)
}

// The names that came before, each in small letters.
struct SmallNames {
    names: IndexSet<Vec<u8>>,
}

impl Model for SmallNames {
    ghost use Rattle.std.specs.Prelude.{map};
    ghost use Rattle.nf_table.specs.Grid.{Cells};

    ghost Value = { Cells };

    ghost view = { λ s. map (λ name. name.items) s.names.keys };
}

// A function of its own, so that the callers' proofs do not go through the parts of the set.
impl Drop for SmallNames {
    fn drop(self) {
        let SmallNames { names: _ } = self;
    }
}

impl SmallNames {
    fn new(alloc: Global) -> Self
        ensures { result ≡ [] }
    {
        SmallNames {
            names: IndexSet::new(alloc),
        }
    }

    // Adds a name, and tells whether it is new.
    fn add(&mut self, alloc: Global, name: &[u8]) -> Result<bool, AllocError>
        ensures tells { IfOk result (λ is_new. is_new ≡ not (list_any (bytes_eq (str_to_ascii_lowercase name.now)) self.old)) }
        ensures added { IfOk result (λ is_new. is_new ≡ true → self.new ≡ self.old ++ str_to_ascii_lowercase name.now ∷ []) }
    {
        let name = name.to_ascii_lowercase(alloc)?;
        let is_new = self.names.insert(name)?;
        Ok(is_new)
    }
}
