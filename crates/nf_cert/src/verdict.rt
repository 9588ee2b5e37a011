//! The verdicts that a certificate proves.
ghost use Rattle.std.specs.Prelude.{◌≡◌};

/// What a certificate's first row says.
#[derive(Clone, Copy)]
pub(crate) enum Verdict {
    Optimal,
    Infeasible,
    Unbounded,
}

impl Verdict {
    ghost use Rattle.nf_cert.specs.Verdicts.{verdict_read, verdict_word};

    // The verdict's word.
    pub(crate) fn word(self) -> &'static str
        ensures { result.now ≡ verdict_word self }
    {
        match self {
            Verdict::Optimal => "OPTIMAL",
            Verdict::Infeasible => "INFEASIBLE",
            Verdict::Unbounded => "UNBOUNDED",
        }
    }

    // The verdict of a word, or None.
    pub(crate) fn of_word(word: &[u8]) -> Option<Verdict>
        ensures { result ≡ verdict_read word.now }
    {
        if word == Verdict::Optimal.word().as_bytes() {
            Some(Verdict::Optimal)
        } else if word == Verdict::Infeasible.word().as_bytes() {
            Some(Verdict::Infeasible)
        } else if word == Verdict::Unbounded.word().as_bytes() {
            Some(Verdict::Unbounded)
        } else {
            None
        }
    }
}
