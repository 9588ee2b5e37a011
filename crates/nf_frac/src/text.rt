//! The text of a fraction: `p`, or `p/q` where q is above 1.
ghost use Rattle.std.specs.Prelude.{◌≡◌, ◌≤◌, Some, length};
ghost use Rattle.nf_frac.specs.Texts.{frac_text};

use crate::frac::Frac;
use arrayvec::ArrayString;
use itoa::Buffer;
use std::fmt;
use std::marker::Model;

/// The text of a fraction, at most 80 bytes. It takes no memory.
#[derive(Debug, Drop)]
pub struct FracText {
    text: ArrayString<80>,
}

impl Model for FracText {
    ghost use Rattle.std.specs.Prelude.{ℕ, List};

    ghost Value = { List ℕ };

    ghost view = { λ t. t.text.bytes };
}

impl FracText {
    /// The bytes of the text.
    pub fn bytes(&self) -> &[u8]
        ensures value { result.now ≡ self.now }
        ensures short { length result.now ≤ 80 }
    {
        self.text.as_str().as_bytes()
    }
}

impl Frac {
    /// The fraction in decimal: `p`, or `p/q` where q is above 1.
    #[tactic(auto, unfolding(crate::specs::Texts::frac_text))]
    pub fn text(self) -> FracText
        ensures { result ≡ frac_text self }
    {
        let (num, den) = self.parts();
        let mut digits = Buffer::new();
        let mut text = ArrayString::new();
        text.push_str(digits.format(num));
        if den != 1 {
            text.push('/');
            text.push_str(digits.format(den));
        }
        FracText { text }
    }
}

/// It prints in decimal: `p`, or `p/q` where q is above 1.
impl fmt::Display for Frac {
    ghost output = { λ f. Some (frac_text f) };

    #[tactic(auto, unfolding(crate::specs::Texts::frac_text))]
    fn fmt<W: fmt::Write>(&self, f: &mut fmt::Formatter<W>) -> fmt::Result {
        let (num, den) = self.parts();
        if den == 1 {
            write!(f, "{num}")
        } else {
            write!(f, "{num}/{den}")
        }
    }
}
