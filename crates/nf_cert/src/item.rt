//! The rows of a certificate.
ghost use Rattle.std.specs.Prelude.{◌≡◌, ◌&&◌, decimal};
ghost use Rattle.std.specs.Str.{bytes_eq};

use itoa::Buffer;

/// What a row of a certificate says.
#[derive(Clone, Copy)]
pub(crate) enum Kind {
    Verdict,
    Column,
    Row,
    Ray,
}

/// A row of a certificate: what it says, and of which column or row, by its number from 1.
#[derive(Clone, Copy)]
pub(crate) struct Item {
    pub(crate) kind: Kind,
    pub(crate) number: u32,
}

impl Kind {
    ghost use Rattle.nf_cert.specs.Items.{word};

    // The word in the first column.
    pub(crate) fn word(self) -> &'static str
        ensures { result.now ≡ word self }
    {
        match self {
            Kind::Verdict => "VERDICT",
            Kind::Column => "COL",
            Kind::Row => "ROW",
            Kind::Ray => "RAY",
        }
    }
}

impl Item {
    ghost use Rattle.nf_cert.specs.Items.{word};

    // Whether a row with this name and this number is the one of the item.
    pub(crate) fn is_told(self, name: &[u8], number: &[u8]) -> bool
        ensures { result ≡ (bytes_eq name.now (word self.kind) && bytes_eq number.now (decimal self.number)) }
    {
        name == self.kind.word().as_bytes()
            && number == Buffer::new().format(self.number).as_bytes()
    }
}
