ghost use Rattle.std.specs.Prelude.{ℕ, ◌≡◌, ◌<◌, Some, List, length, slice_get};

/// The documents of an index by name.
pub trait Names {
    /// The names by the documents' numbers.
    ghost names: { Self → List (List ℕ) };

    /// The number of documents.
    fn docs(&self) -> u32
        ensures { result ≡ length (names self.now) };

    fn name(&self, doc: u32) -> &str
        requires { doc < length (names self.now) }
        ensures { slice_get (names self.now) doc ≡ Some result.now };
}
