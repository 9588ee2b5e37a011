//! Which sample four words ask for.
ghost use Rattle.std.specs.Prelude.{true, ◌≡◌, MatchOption};
ghost use Rattle.nf_text.specs.declared.token.TokenKind.TheVariants.{Number};
ghost use Rattle.nf_program.specs.ReadValues.{count_of};
ghost use Rattle.nf_sample.specs.Sample.{IsSize};
ghost use Rattle.nf_command.specs.Words.{AreNumbers};

use nf_program::values::count_of;
use nf_text::TokenKind;

/// The seed and the sizes of a sample.
#[derive(Clone, Copy, Debug, PartialEq, Eq)]
pub struct SampleSize {
    pub seed: u32,
    pub nodes: u32,
    pub arcs: u32,
    pub cons: u32,
}

impl SampleSize {
    // Whether there is a sample of these sizes.
    fn is_size(&self) -> bool
        ensures yes { result ≡ true → IsSize self.now.nodes self.now.arcs self.now.cons }
        ensures no { IsSize self.now.nodes self.now.arcs self.now.cons → result ≡ true }
    {
        3 <= self.nodes
            && self.nodes <= 2000
            && self.nodes <= self.arcs
            && self.arcs <= 50000
            && self.cons <= 50
    }
}

// The number of a word of one to nine digits.
fn number_of(word: &str) -> Option<u32>
    ensures { result ≡ count_of Number word.now }
{
    count_of(TokenKind::Number, word.as_bytes())
}

/// The sample that four words ask for, or None if one of them is no number or there is no sample of these sizes.
pub(crate) fn size_of(seed: &str, nodes: &str, arcs: &str, cons: &str) -> Option<SampleSize>
    ensures { MatchOption result ((n : SampleSize) → AreNumbers n seed.now nodes.now arcs.now cons.now → ⊥) (λ n. AreNumbers n seed.now nodes.now arcs.now cons.now) }
{
    let size = SampleSize {
        seed: number_of(seed)?,
        nodes: number_of(nodes)?,
        arcs: number_of(arcs)?,
        cons: number_of(cons)?,
    };
    if size.is_size() { Some(size) } else { None }
}
