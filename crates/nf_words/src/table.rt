//! A table of words, compared without regard to ASCII case.
ghost use Rattle.std.specs.Prelude.{◌≡◌, List, length, map, Some, All, Contains, IfSome, IfNone, IsSome, IsTrue, option_map};
ghost use Rattle.nf_words.specs.Words.{Word, Agree, NoTwoAgree, find_word, first_spelling, is_table};

/// The number of a word's kind in its list, from 0.
#[derive(Clone, Copy, Debug, PartialEq, Eq)]
pub struct Kind(pub u8);

/// A spelling and its kind.
#[derive(Clone, Copy, Debug)]
pub(crate) struct Entry {
    pub(crate) spelling: &'static str,
    pub(crate) kind: Kind,
}

/// The N spellings of a list of words, those of one kind together and its first spelling first.
#[derive(Clone, Copy, Debug)]
pub struct WordTable<const N: usize> {
    pub(crate) entries: &'static [Entry],
    ghost counted: { length entries.now ≡ N },
    // The test of the table, which the check computes when a table is made.
    ghost apart: { IsTrue (is_table (map (λ e. record { spelling = e.spelling.now; kind = e.kind.0 }) entries.now)) },
}

impl<const N: usize> WordTable<N> {
    ghost use Rattle.nf_words.specs.Views.{words};

    /// The kind of the spelling that equals the word without regard to ASCII case; None exactly if there is none.
    pub fn find(&self, word: &[u8]) -> Option<Kind>
        ensures value { option_map (λ k. k.0) result ≡ find_word (words self.now) word.now }
        ensures some { IfSome result (λ k. (x : Word) × Contains (words self.now) x × Agree x.spelling word.now × (x.kind ≡ k.0)) }
        ensures none { IfNone result (All (λ x. ¬ Agree x.spelling word.now) (words self.now)) }
    {
        self.look_up(word)
    }

    fn look_up(&self, word: &[u8]) -> Option<Kind>
        ensures { option_map (λ k. k.0) result ≡ find_word (words self.now) word.now }
    {
        for entry in self.entries {
            if entry.spelling.as_bytes().eq_ignore_ascii_case(word) {
                return Some(entry.kind);
            }
        }
        None
    }

    /// The first spelling of the kind, in upper case. The kind is in the table.
    ///
    /// Looking this spelling up finds the kind.
    pub fn spelling(&self, kind: Kind) -> &'static str
        requires known { IsSome (first_spelling (words self.now) kind.0) }
        ensures first { first_spelling (words self.now) kind.0 ≡ Some result.now }
        ensures found { find_word (words self.now) result.now ≡ Some kind.0 }
    {
        self.first(kind)
    }

    fn first(&self, kind: Kind) -> &'static str
        requires { IsSome (first_spelling (words self.now) kind.0) }
        ensures { first_spelling (words self.now) kind.0 ≡ Some result.now }
    {
        for entry in self.entries {
            if entry.kind == kind {
                return entry.spelling;
            }
        }
        unreachable!()
    }

    /// A law: no two spellings of a table are equal without regard to ASCII case.
    pub fn has_no_two(&self)
        ensures apart { NoTwoAgree (words self.now) }
    {}
}
