//! The definitions run on small queries over the terms `cat` and `dog`, which have the numbers 0
//! and 1 (`specs/Examples.antt`): each clause is proved by computing both sides.

ghost use Rattle.std.specs.Prelude.{◌≡◌, [], ◌∷◌, map, None, Some, Ok, Err, codes};
ghost use Rattle.std.specs.List.{range_with_len};
ghost use Rattle.query_reader.specs.Mentions.{words_as_mentions, named_of, unknown_of};
ghost use Rattle.query_reader.specs.Texts.{factor_of, plain_mentions};
ghost use Rattle.query_reader.specs.Reading.{broken_limit, read_mentions};
ghost use Rattle.query_reader.specs.declared.refusal.QueryWhy.TheVariants.{Terms, Times};
ghost use Rattle.query_reader.specs.Examples.{mention, named, cat_and_dog};

/// Terms stand by first mention, not by number.
pub fn terms_by_first_mention()
    ensures cat_dog { named_of cat_and_dog (words_as_mentions (codes "cat" ∷ codes "dog" ∷ []))
        ≡ named 0 1 ∷ named 1 1 ∷ [] }
    ensures dog_cat { named_of cat_and_dog (words_as_mentions (codes "dog" ∷ codes "cat" ∷ []))
        ≡ named 1 1 ∷ named 0 1 ∷ [] }
    ensures none { named_of cat_and_dog [] ≡ [] }
{}

/// A term that is mentioned twice is named twice.
pub fn repeated_words()
    ensures twice { named_of cat_and_dog (words_as_mentions (codes "cat" ∷ codes "cat" ∷ [])) ≡ named 0 2 ∷ [] }
    ensures around { named_of cat_and_dog (words_as_mentions (codes "dog" ∷ codes "cat" ∷ codes "dog" ∷ []))
        ≡ named 1 2 ∷ named 0 1 ∷ [] }
{}

/// The words are terms as they stand: no other spelling names a term, and no factor is read.
pub fn unknown_words()
    ensures named { named_of cat_and_dog (words_as_mentions (codes "cat" ∷ codes "zzz" ∷ [])) ≡ named 0 1 ∷ [] }
    ensures unknown { unknown_of cat_and_dog (words_as_mentions (codes "cat" ∷ codes "zzz" ∷ [])) ≡ 1 }
    ensures spelled { unknown_of cat_and_dog (words_as_mentions (codes "Cat" ∷ codes "cat^2" ∷ codes "ca" ∷ [] ∷ []))
        ≡ 4 }
{}

/// A term is named as often as the factors of its mentions say together, and a mention of another
/// term counts as one, whatever its factor.
pub fn weighted_mentions()
    ensures one { named_of cat_and_dog (mention (codes "cat") 2 ∷ mention (codes "dog") 1 ∷ [])
        ≡ named 0 2 ∷ named 1 1 ∷ [] }
    ensures sum { named_of cat_and_dog (mention (codes "cat") 3 ∷ mention (codes "dog") 5 ∷ mention (codes "cat") 4
        ∷ []) ≡ named 0 7 ∷ named 1 5 ∷ [] }
    ensures known { named_of cat_and_dog (mention (codes "cat") 3 ∷ mention (codes "2") 1 ∷ mention (codes "x") 1
        ∷ []) ≡ named 0 3 ∷ [] }
    ensures others { unknown_of cat_and_dog
        (mention (codes "cat") 3 ∷ mention (codes "2") 1 ∷ mention (codes "x") 1 ∷ []) ≡ 2 }
    ensures factor { unknown_of cat_and_dog (mention (codes "zzz") 200 ∷ []) ≡ 1 }
{}

/// 1 to 3 ASCII digits that stand for 1 to 255 are a factor.
pub fn factors()
    ensures least { factor_of (codes "1") ≡ Some 1 }
    ensures greatest { factor_of (codes "255") ≡ Some 255 }
    ensures zeros { factor_of (codes "007") ≡ Some 7 }
    ensures none { factor_of (codes "0") ≡ None }
    ensures above { factor_of (codes "256") ≡ None }
    ensures long { factor_of (codes "0001") ≡ None }
    ensures empty { factor_of [] ≡ None }
    ensures other { factor_of (codes "2x") ≡ None }
{}

/// Plain mentions are runs between blanks; the last `^` of a run decides.
#[tactic(auto, unfolding(crate::specs::Texts::plain_mentions, crate::specs::Texts::plain_mention, crate::specs::Texts::at_last_caret))]
pub fn plain_runs()
    ensures runs { plain_mentions (codes " \tStra,\t CAT! ")
        ≡ mention (codes "Stra,") 1 ∷ mention (codes "CAT!") 1 ∷ [] }
    ensures factor { plain_mentions (codes "cat^2 dog") ≡ mention (codes "cat") 2 ∷ mention (codes "dog") 1 ∷ [] }
    ensures above { plain_mentions (codes "a^256") ≡ mention (codes "a^256") 1 ∷ [] }
    ensures zero { plain_mentions (codes "a^0") ≡ mention (codes "a^0") 1 ∷ [] }
    ensures last { plain_mentions (codes "a^2^1") ≡ mention (codes "a^2") 1 ∷ [] }
    ensures front { plain_mentions (codes "^2") ≡ mention (codes "^2") 1 ∷ [] }
    ensures behind { plain_mentions (codes "a^2^") ≡ mention (codes "a^2^") 1 ∷ [] }
    ensures carriage { plain_mentions (codes "a\rb c") ≡ mention (codes "a\rb") 1 ∷ mention (codes "c") 1 ∷ [] }
{}

/// The limits of a query: 256 known terms, each named 255 times.
pub fn limits()
    ensures full { broken_limit (map (λ j. named j 255) (range_with_len 0 256)) ≡ None }
    ensures terms { broken_limit (map (λ j. named j 1) (range_with_len 0 257)) ≡ Some Terms }
    ensures times { broken_limit (named 7 1 ∷ named 3 256 ∷ []) ≡ Some Times }
{}

/// The first mention that breaks a limit is refused, whatever follows it.
#[tactic(auto, unfolding(crate::specs::Reading::read_mentions, crate::specs::Reading::first_broken))]
pub fn broken_limits()
    ensures most { read_mentions cat_and_dog (codes "q") (mention (codes "cat") 200 ∷ mention (codes "cat") 55 ∷ [])
        ≡ Ok (record { id = codes "q"; terms = named 0 255 ∷ []; unknown = 0 }) }
    ensures above { read_mentions cat_and_dog (codes "q")
        (mention (codes "cat") 255 ∷ mention (codes "dog") 1 ∷ mention (codes "cat") 1 ∷ [])
        ≡ Err Times }
    ensures others { read_mentions cat_and_dog (codes "q") (mention (codes "zzz") 255 ∷ mention (codes "zzz") 255 ∷ [])
        ≡ Ok (record { id = codes "q"; terms = []; unknown = 2 }) }
{}
