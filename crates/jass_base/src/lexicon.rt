ghost use Rattle.std.specs.Prelude.{ℕ, ◌≡◌, List, AllPairs, position, bytes_eq};
ghost use Rattle.jass_base.specs.Terms.{BytesRise};

/// The terms of an index.
pub trait Lexicon {
    /// The terms, which rise strictly by their bytes. A term's number is its place.
    ghost terms: { Self → List (List ℕ) };

    /// The number of a term, given by its bytes; None exactly where there is no such term.
    fn find(&self, term: &[u8]) -> Option<u32>
        ensures number { result ≡ position (λ t. bytes_eq t term.now) (terms self.now) }
        ensures rising { AllPairs BytesRise (terms self.now) };
}
