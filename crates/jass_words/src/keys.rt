ghost use Rattle.std.specs.Prelude.{◌≡◌, ◌≢◌, ◌↔◌, IfSome, IsTrue, None};
ghost use Rattle.std.specs.List.{Contains};
ghost use Rattle.jass_words.specs.declared.keys.Key.{Key};
ghost use Rattle.jass_words.specs.Options.{key_text};

/// What an option is about: the key of its word `KEY=VALUE`.
#[derive(Clone, Copy, PartialEq, Eq)]
pub enum Key {
    /// How many hits: `k`.
    Hits,
    /// How many postings may be scored: `budget`.
    Limits,
    /// The tag of a run: `tag`.
    Tag,
    /// How queries are read: `mode`.
    Reading,
    /// How far queries are searched: `until`.
    Stopping,
    /// How a posting is weighed: `weights`.
    Weights,
    /// How many bits an impact has: `bits`.
    Width,
    /// How many frames a desk shares: `frames`.
    Frames,
}

const KEYS: [Key; 8] = [
    Key::Hits,
    Key::Limits,
    Key::Tag,
    Key::Reading,
    Key::Stopping,
    Key::Weights,
    Key::Width,
    Key::Frames,
];

impl Key {
    /// The letters of the key.
    fn text(self) -> &'static str
        ensures { result.now ≡ key_text self }
    {
        match self {
            Key::Hits => "k",
            Key::Limits => "budget",
            Key::Tag => "tag",
            Key::Reading => "mode",
            Key::Stopping => "until",
            Key::Weights => "weights",
            Key::Width => "bits",
            Key::Frames => "frames",
        }
    }

    /// The key with these letters.
    pub fn of(text: &str) -> Option<Key>
        ensures some { IfSome result (λ key. text.now ≡ key_text key) }
        ensures none { result ≡ None → (key : Key) → text.now ≢ key_text key }
    {
        for key in KEYS {
            if key.text() == text {
                return Some(key);
            }
        }
        None
    }

    pub fn is_among(self, keys: &[Key]) -> bool
        ensures { IsTrue result ↔ Contains keys.now self }
    {
        keys.contains(&self)
    }
}
