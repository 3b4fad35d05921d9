ghost use Rattle.std.specs.Prelude.{ℕ, ◌≡◌, ◌≤◌, List, Some, IfOk, IfErr, drop, length, take, slice_get};
ghost use Rattle.std.specs.List.{AllByRecursion};
ghost use Rattle.jass_words.specs.Slots.{AreTermWords, IsTerm, Terms};
ghost use Rattle.jass_words.specs.Words.{texts};
ghost use Rattle.jass_words.specs.Private.Faults.{IsTailFault};

use crate::word_fault::WordFault;
use jass_base::limits::{LONGEST_TERM, MOST_TERM_WORDS};

/// Reads the terms of a query from a place on: 1 to 255 of at most 65,535 bytes, each as it stands.
pub fn read_terms(words: &[String], place: u32) -> Result<&[String], WordFault>
    requires there { place ≤ length words.now }
    requires near { place ≤ 1000 }
    ensures terms { IfOk result (λ terms. texts terms.now ≡ drop place (texts words.now)) }
    ensures are { IfOk result (λ terms. AreTermWords (texts terms.now)) }
    ensures fault { IfErr result (λ fault. IsTailFault Terms place (texts words.now) fault.which) }
{
    let terms = &words[place as usize..];
    let good = terms_in(terms).min(MOST_TERM_WORDS);
    if good == 0 || good < terms.len() {
        return Err(WordFault {
            which: place + 1 + good as u32,
        });
    }
    Ok(terms)
}

/// The place of the first word that is no term; how many words there are where each is a term.
fn terms_in(words: &[String]) -> usize
    ensures within { result ≤ length words.now }
    ensures terms { AllByRecursion IsTerm (take result (texts words.now)) }
    ensures next { (word : List ℕ) → slice_get (texts words.now) result ≡ Some word → ¬ IsTerm word }
{
    for (place, word) in words.iter().enumerate() {
        if word.len() > LONGEST_TERM {
            return place;
        }
    }
    words.len()
}
