ghost use Rattle.std.specs.Prelude.{◌≡◌, ◌≤◌, ◌↔◌, ◌++◌, ◌∷◌, [], List, ℕ, None, false, IfOk, IfErr, IfSome, drop, length};
ghost use Rattle.jass_words.specs.declared.keys.Key.{Key};
ghost use Rattle.std.specs.List.{Contains};
ghost use Rattle.jass_base.specs.declared.limits.TheConstants.{MOST_FRAMES};
ghost use Rattle.jass_words.specs.Options.{AreOptions, IsOption, OptionData};
ghost use Rattle.jass_words.specs.Slots.{May, Must, IsTail};
ghost use Rattle.jass_words.specs.Words.{texts};
ghost use Rattle.jass_words.specs.Private.Faults.{IsTailFault};
ghost use Rattle.jass_words.specs.Private.Reading.{AreRead, Takes, found, is_found, option_data};

use crate::budgets::Budgets;
use crate::keys::Key;
use crate::option_words::{OptionWord, read_option};
use crate::until::Until;
use crate::word_fault::WordFault;
use query_reader::Mode;
use weights::{Bits, Rule};

/// What the options of a command say.
#[derive(Clone, Copy)]
pub struct Options<'a> {
    pub hits: Option<u32>,
    pub limits: Option<Budgets>,
    pub tag: Option<&'a str>,
    pub mode: Option<Mode>,
    pub until: Option<Until>,
    pub rule: Option<Rule>,
    pub bits: Option<Bits>,
    pub frames: Option<u32>,
}

impl<'a> Options<'a> {
    fn none() -> Options<'a>
        ensures { (key : Key) → found result key ≡ None }
    {
        Options {
            hits: None,
            limits: None,
            tag: None,
            mode: None,
            until: None,
            rule: None,
            bits: None,
            frames: None,
        }
    }

    /// Whether there is an option of a key.
    fn has(&self, key: Key) -> bool
        ensures { result ≡ is_found self.now key }
    {
        match key {
            Key::Hits => self.hits.is_some(),
            Key::Limits => self.limits.is_some(),
            Key::Tag => self.tag.is_some(),
            Key::Reading => self.mode.is_some(),
            Key::Stopping => self.until.is_some(),
            Key::Weights => self.rule.is_some(),
            Key::Width => self.bits.is_some(),
            Key::Frames => self.frames.is_some(),
        }
    }

    /// Takes an option in.
    fn put(&mut self, option: OptionWord<'a>)
        ensures { Takes self.old (option_data option.entry) self.new }
    {
        match option {
            OptionWord::Hits(k) => self.hits = Some(k),
            OptionWord::Limits(budgets) => self.limits = Some(budgets),
            OptionWord::Tag(tag) => self.tag = Some(tag),
            OptionWord::Reading(mode) => self.mode = Some(mode),
            OptionWord::Stopping(until) => self.until = Some(until),
            OptionWord::Weights(rule) => self.rule = Some(rule),
            OptionWord::Width(bits) => self.bits = Some(bits),
            OptionWord::Frames(frames) => self.frames = Some(frames),
        }
    }

    /// The option of one word more; `None` where it is none of the allowed keys, or its key stood
    /// before.
    fn next(&self, word: &'a str, allowed: &[Key]) -> Option<OptionWord<'a>>
        ensures some { IfSome result (λ option. IsOption word.now (option_data option)) }
        ensures allows { IfSome result (λ option. Contains allowed.now (option_data option).key) }
        ensures new { IfSome result (λ option. is_found self.now (option_data option).key ≡ false) }
        ensures none { result ≡ None → (words rest : List (List ℕ)) (options : List OptionData)
            → AreRead allowed.now words self.now → ¬ AreOptions allowed.now (words ++ word.now ∷ rest) options }
    {
        let Some(option) = read_option(word) else {
            return None;
        };
        let key = option.key();
        if key.is_among(allowed) && !self.has(key) {
            Some(option)
        } else {
            None
        }
    }
}

/// Reads the options from a place on, each of which has one of the allowed keys.
pub fn read_options<'a>(
    words: &'a [String],
    place: u32,
    allowed: &[Key],
) -> Result<Options<'a>, WordFault>
    requires there { place ≤ length words.now }
    requires near { place ≤ 1000 }
    ensures options { IfOk result (λ read. AreRead allowed.now (drop place (texts words.now)) read) }
    ensures fault { IfErr result (λ fault. IsTailFault (May allowed.now) place (texts words.now) fault.which) }
{
    let mut read = Options::none();
    for (n, word) in words[place as usize..].iter().enumerate() {
        match read.next(word.as_str(), allowed) {
            Some(option) => read.put(option),
            None => {
                return Err(WordFault {
                    which: place + 1 + n as u32,
                });
            }
        }
    }
    Ok(read)
}

/// Reads the option `frames=FRAMES` at a place, behind which no word stands.
pub fn read_frames(words: &[String], place: u32) -> Result<u32, WordFault>
    requires there { place ≤ length words.now }
    requires near { place ≤ 1000 }
    ensures frames { IfOk result (λ frames. IsTail (Must Key.Frames) (drop place (texts words.now)) frames) }
    ensures limits { IfOk result (λ frames. (1 ≤ frames) × (frames ≤ MOST_FRAMES)) }
    ensures fault { IfErr result (λ fault. IsTailFault (Must Key.Frames) place (texts words.now) fault.which) }
{
    let options = match read_options(words, place, &[Key::Frames]) {
        Ok(options) => options,
        Err(fault) => return Err(fault),
    };
    match options.frames {
        Some(frames) => Ok(frames),
        None => Err(WordFault { which: place + 1 }),
    }
}
