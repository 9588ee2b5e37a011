//! Cells: their values, and which are missing.
ghost use Rattle.std.specs.Prelude.{◌≡◌};
ghost use Rattle.nf_cells.specs.Cells.{value_of, is_blank, trim_start, trim_end};

// The bytes from the first that is no space.
fn without_front(cell: &[u8]) -> &[u8]
    ensures { result.now ≡ trim_start cell.now }
{
    let mut rest = cell;
    while let [b' ', after @ ..] = rest {
        rest = after;
    }
    rest
}

// The bytes up to the last that is no space.
fn without_back(cell: &[u8]) -> &[u8]
    ensures { result.now ≡ trim_end cell.now }
{
    let mut end = cell.len();
    while 0 < end && cell[end - 1] == b' ' {
        end -= 1;
    }
    &cell[..end]
}

/// The value of a cell: its bytes without the ASCII spaces at both ends.
pub fn trimmed(cell: &[u8]) -> &[u8]
    ensures value { result.now ≡ value_of cell.now }
{
    without_back(without_front(cell))
}

/// Whether a value says nothing: it is empty or a single point.
pub fn is_missing(value: &[u8]) -> bool
    ensures missing { result ≡ is_blank value.now }
{
    value.is_empty() || value == b".".as_slice()
}
