//! Names of nodes, arcs and rows.
ghost use Rattle.std.specs.Prelude.{◌≡◌, List, ℕ};
ghost use Rattle.nf_cells.specs.Cells.{is_name_byte, is_name as is_name_of};

/// The most bytes of a name.
pub const MOST_NAME_BYTES: usize = 32;

// Each byte of a name stands at its own place, and a comma at every other place.
static NAME_BYTES: [u8; 256] = *b"\
    ,,,,,,,,,,,,,,,,,,,,,,,,,,,,,,,,\
    \x20,,,,,,,,,,,,-.,0123456789,,,,,,\
    ,ABCDEFGHIJKLMNOPQRSTUVWXYZ,,,,_\
    ,abcdefghijklmnopqrstuvwxyz,,,,,\
    ,,,,,,,,,,,,,,,,,,,,,,,,,,,,,,,,\
    ,,,,,,,,,,,,,,,,,,,,,,,,,,,,,,,,\
    ,,,,,,,,,,,,,,,,,,,,,,,,,,,,,,,,\
    ,,,,,,,,,,,,,,,,,,,,,,,,,,,,,,,,";

fn is_name_byte_at(byte: u8) -> bool
    ensures { result ≡ is_name_byte byte }
{
    NAME_BYTES[byte as usize] != b','
}

/// Whether bytes are a name: 1 to 32 ASCII letters, digits, `_`, spaces, points and `-`.
pub fn is_name(bytes: &[u8]) -> bool
    ensures name { result ≡ is_name_of bytes.now }
{
    if bytes.is_empty() || MOST_NAME_BYTES < bytes.len() {
        return false;
    }
    for byte in bytes {
        if !is_name_byte_at(*byte) {
            return false;
        }
    }
    true
}
