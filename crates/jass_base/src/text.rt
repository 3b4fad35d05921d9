ghost use Rattle.std.specs.Prelude.{◌≡◌, IfOk};
ghost use Rattle.jass_base.specs.Limits.{IsText};

use crate::faults::NoMemory;
use std::alloc::Global;
use std::marker::Model;

/// An owned UTF-8 text. Contracts see it as its bytes.
#[derive(Debug, Drop)]
pub struct Text {
    inner: String,
}

impl Model for Text {
    ghost use Rattle.std.specs.Prelude.{ℕ, List};
    ghost use Rattle.std.specs.String.{string_bytes};

    ghost Value = { List ℕ };

    ghost view = { λ t. string_bytes t.inner };
}

impl Text {
    /// A copy of a text.
    pub fn from_str(alloc: Global, s: &str) -> Result<Text, NoMemory>
        ensures bytes { IfOk result (λ text. text ≡ s.now) }
        ensures utf8 { IfOk result IsText }
    {
        match String::from_str(alloc, s) {
            Ok(inner) => Ok(Text { inner }),
            Err(_) => Err(NoMemory),
        }
    }

    pub fn as_str(&self) -> &str
        ensures bytes { result.now ≡ self.now }
        ensures utf8 { IsText result.now }
    {
        self.inner.as_str()
    }
}
