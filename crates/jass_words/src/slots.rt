ghost use Rattle.std.specs.Prelude.{ℕ, ◌≡◌, ◌≢◌, ◌<◌, ◌≤◌, ◌+◌, ◌↔◌, [], List, IfErr, IfOk, IfSome, IsTrue, None, drop, false, length, map, replicate, take};
ghost use Rattle.std.specs.List.{AllByRecursion};
ghost use Rattle.std.specs.Option.{option_map};
ghost use Rattle.jass_base.specs.declared.answer.Budget.{Budget};
ghost use Rattle.jass_words.specs.Numbers.{IsNumber, IsBudget};
ghost use Rattle.jass_words.specs.Slots.{Ends, File, Number, Postings, IsFile, Tail};
ghost use Rattle.jass_words.specs.Words.{texts};
ghost use Rattle.jass_words.specs.Private.Faults.{Finds, IsFault, IsNextFile, IsTailFault, NoneAt, SaysFiles};

use crate::word_fault::WordFault;
use jass_base::limits::LONGEST_FILE_NAME;
use jass_base::{Budget, read_decimal};

/// The word at a place, where it can name a file, 1 to 4,096 bytes, none of them zero, and is
/// none of the others.
pub fn file_at<'a>(words: &'a [String], place: usize, others: &[&str]) -> Option<&'a str>
    ensures says { Finds File (map (λ other. other.now) others.now) place (texts words.now)
        (option_map (λ file. file.now) result) }
    ensures apart { IfSome result (λ file. AllByRecursion (λ other. other ≢ file.now)
        (map (λ other. other.now) others.now)) }
    ensures there { IfSome result (λ _. place < length words.now) }
{
    let Some(word) = words.get(place) else {
        return None;
    };
    let word = word.as_str();
    if is_file(word) && is_apart(word, others) {
        Some(word)
    } else {
        None
    }
}

/// The words from a place on, where so many stand there, each of which can name a file and is none
/// of those before it; else the first that isn't so.
pub fn files_from(words: &[String], place: u32, count: u32) -> Result<&[String], WordFault>
    requires near { place ≤ 100 }
    requires few { count ≤ 100 }
    requires begun { place ≤ length words.now }
    ensures files { IfOk result (λ files. length files.now ≡ count) }
    ensures says { IfOk result (λ files. SaysFiles count [] place (texts words.now) (texts files.now)) }
    ensures there { IfOk result (λ _. place + count ≤ length words.now) }
    ensures fault { IfErr result (λ fault. (tail : Tail)
        → IsFault (replicate count File) tail [] place (texts words.now) fault.which) }
{
    for n in 0..count {
        if !is_next_file(words, place, n) {
            return Err(WordFault {
                which: place + n + 1,
            });
        }
    }
    Ok(&words[place as usize..(place + count) as usize])
}

/// Whether a word stands so many behind a place, can name a file, and is none of those between.
fn is_next_file(words: &[String], place: u32, n: u32) -> bool
    requires near { place ≤ 100 }
    requires few { n ≤ 100 }
    requires before { place + n ≤ length words.now }
    ensures next { IsTrue result → IsNextFile place n (texts words.now) }
    ensures there { IsTrue result → place + n < length words.now }
    ensures none { result ≡ false → NoneAt File (take n (drop place (texts words.now))) (place + n) (texts words.now) }
{
    let at = (place + n) as usize;
    let Some(word) = words.get(at) else {
        return false;
    };
    is_file(word.as_str()) && is_new(word.as_str(), &words[place as usize..at])
}

/// Whether none of the words before is this one.
fn is_new(word: &str, before: &[String]) -> bool
    ensures { IsTrue result ↔ AllByRecursion (λ other. other ≢ word.now) (texts before.now) }
{
    for other in before {
        if other.as_str() == word {
            return false;
        }
    }
    true
}

fn is_file(word: &str) -> bool
    ensures { IsTrue result ↔ IsFile word.now }
{
    let bytes = word.as_bytes();
    !bytes.is_empty() && bytes.len() <= LONGEST_FILE_NAME && bytes.iter().all(|byte| *byte != 0)
}

/// Whether none of the others is this word.
fn is_apart(word: &str, others: &[&str]) -> bool
    ensures { IsTrue result ↔ AllByRecursion (λ other. other ≢ word.now) (map (λ other. other.now) others.now) }
{
    for other in others {
        if *other == word {
            return false;
        }
    }
    true
}

/// Sees that no word stands at a place or behind it.
pub fn read_end(words: &[String], place: u32) -> Result<(), WordFault>
    requires { place ≤ 1000 }
    ensures end { IfOk result (λ _. drop place (texts words.now) ≡ []) }
    ensures fault { IfErr result (λ fault. IsTailFault Ends place (texts words.now) fault.which) }
{
    if words.len() > place as usize {
        return Err(WordFault { which: place + 1 });
    }
    Ok(())
}

/// The number from a least to a greatest one in the word at a place.
pub fn number_at(words: &[String], place: usize, least: u32, most: u32) -> Option<u32>
    ensures says { Finds (Number least most) [] place (texts words.now) result }
    ensures there { IfSome result (λ _. place < length words.now) }
{
    let Some(word) = words.get(place) else {
        return None;
    };
    read_number(word.as_str(), least, most)
}

/// The number from a least to a greatest one that a word spells.
pub fn read_number(word: &str, least: u32, most: u32) -> Option<u32>
    ensures some { IfSome result (λ n. IsNumber word.now least most n) }
    ensures none { result ≡ None → (n : ℕ) → ¬ IsNumber word.now least most n }
{
    match read_decimal(word.as_bytes()) {
        Some(n) if n >= u64::from(least) && n <= u64::from(most) => Some(n as u32),
        _ => None,
    }
}

/// The number of postings, or `all`, in the word at a place.
pub fn budget_at(words: &[String], place: usize) -> Option<Budget>
    ensures says { Finds Postings [] place (texts words.now) result }
    ensures there { IfSome result (λ _. place < length words.now) }
{
    let Some(word) = words.get(place) else {
        return None;
    };
    read_budget(word.as_str())
}

/// The number of postings, or `all`, that a word spells.
pub fn read_budget(word: &str) -> Option<Budget>
    ensures some { IfSome result (λ budget. IsBudget word.now budget) }
    ensures none { result ≡ None → (budget : Budget) → ¬ IsBudget word.now budget }
{
    if word == "all" {
        return Some(Budget::All);
    }
    match read_decimal(word.as_bytes()) {
        Some(postings) => Some(Budget::Postings(postings)),
        None => None,
    }
}
