ghost use Rattle.std.specs.Prelude.{◌≡◌, ◌<◌, ◌%◌, map, IfOk, OnErr, OnOk};
ghost use Rattle.std.specs.String.{string_bytes};
ghost use Rattle.trial_data.specs.Generator.{drawn, next_state};
ghost use Rattle.trial_data.specs.Trials.{query_state, query_words, term_name};

use crate::draws::Draws;
use crate::names::put_name;
use jass_base::NoMemory;
use std::alloc::Global;

/// The words of the next query: three of so many terms, of which there is at least one. Where memory
/// is refused, none of them was drawn.
pub fn draw_query(alloc: Global, draws: &mut Draws, terms: u32) -> Result<Vec<String>, NoMemory>
    requires { 0 < terms }
    ensures words { IfOk result (λ words. map string_bytes words.items ≡ query_words terms draws.old) }
    ensures state { OnOk result (draws.new ≡ query_state draws.old) }
    ensures kept { OnErr result (draws.new ≡ draws.old) }
{
    let mut later = draws.again();
    let first = draw_word(alloc, &mut later, terms)?;
    let second = draw_word(alloc, &mut later, terms)?;
    let third = draw_word(alloc, &mut later, terms)?;
    match Vec::from_array(alloc, [first, second, third]) {
        Ok(words) => {
            *draws = later;
            Ok(words)
        }
        Err(_) => Err(NoMemory),
    }
}

/// The name of the next term.
fn draw_word(alloc: Global, draws: &mut Draws, terms: u32) -> Result<String, NoMemory>
    requires { 0 < terms }
    ensures word { IfOk result (λ word. string_bytes word ≡ term_name (drawn (next_state draws.old) % terms)) }
    ensures state { OnOk result (draws.new ≡ next_state draws.old) }
{
    let mut word = String::new(alloc);
    put_name(&mut word, "t", draws.next() % terms)?;
    Ok(word)
}
