//! The term of a list, which takes no memory of its own where it is short.

ghost use Rattle.std.specs.Prelude.{◌≡◌, IfOk, IfSome};

use arrayvec::ArrayString;
use jass_base::{NoMemory, Text};
use std::alloc::Global;
use std::marker::Model;

/// So many bytes take no memory of their own. Nearly all terms have no more.
const SHORT: usize = 16;

/// A term, in the value itself where it is short.
#[derive(Debug, Drop)]
pub(crate) enum TermText {
    Short(ArrayString<SHORT>),
    Long(Text),
}

/// A term. Contracts see it as its bytes.
#[derive(Debug, Drop)]
pub(crate) struct ListTerm {
    text: TermText,
}

impl Model for ListTerm {
    ghost use Rattle.std.specs.Prelude.{ℕ, List};
    ghost use Rattle.index_import.specs.Private.ListTerm.{bytes_in};

    ghost Value = { List ℕ };

    ghost view = { λ t. bytes_in t.text };
}

impl ListTerm {
    pub fn new(term: Text) -> ListTerm
        ensures { result ≡ term }
    {
        match short_text(&term) {
            Some(short) => ListTerm {
                text: TermText::Short(short),
            },
            None => ListTerm {
                text: TermText::Long(term),
            },
        }
    }

    pub fn as_str(&self) -> &str
        ensures { result.now ≡ self.now }
    {
        match &self.text {
            TermText::Short(short) => short.as_str(),
            TermText::Long(term) => term.as_str(),
        }
    }

    /// The term as a text.
    pub fn into_text(self, alloc: Global) -> Result<Text, NoMemory>
        ensures { IfOk result (λ text. text ≡ self) }
    {
        let ListTerm { text } = self;
        match text {
            TermText::Short(short) => Text::from_str(alloc, short.as_str()),
            TermText::Long(term) => Ok(term),
        }
    }
}

/// A copy of a term, where it is short.
fn short_text(term: &Text) -> Option<ArrayString<SHORT>>
    ensures { IfSome result (λ short. short.bytes ≡ term.now) }
{
    match ArrayString::from(term.as_str()) {
        Ok(short) => Some(short),
        Err(_) => None,
    }
}
