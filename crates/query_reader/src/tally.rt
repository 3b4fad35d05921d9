ghost use Rattle.std.specs.Prelude.{◌≡◌, ◌+◌, ◌<◌, ◌^◌, [], None};
ghost use Rattle.query_reader.specs.Reading.{broken_limit};
ghost use Rattle.query_reader.specs.Private.Tally.{TallyData, CountsIn, TalliesIn, counted_in};

use crate::refusal::{LineFault, QueryWhy};
use jass_base::QueryTerm;
use jass_base::limits::MOST_QUERY_TERMS;
use std::alloc::Global;
use std::marker::Model;

/// What the mentions so far name: known terms by first mention, and the number of the others.
#[derive(Drop)]
pub struct Tally {
    pub named: Vec<QueryTerm>,
    pub unknown: u32,
}

impl Model for Tally {
    ghost Value = { TallyData };

    ghost view = { λ tally. record { named = tally.named.items; unknown = tally.unknown } };

    ghost invariant = { λ tally. broken_limit tally.named.items ≡ None };
}

impl Tally {
    pub fn new(alloc: Global) -> Tally
        ensures { result ≡ record { named = []; unknown = 0 } }
    {
        Tally {
            named: Vec::new(alloc),
            unknown: 0,
        }
    }

    /// Counts one mention more: of the term with a number, or of none.
    pub fn count(&mut self, number: Option<u32>, factor: u8) -> Result<(), LineFault>
        requires { self.old.unknown + 1 < 2 ^ 32 }
        ensures { CountsIn (counted_in self.old number factor) self.new result }
    {
        match number {
            Some(number) => count_known(&mut self.named, number, factor),
            None => {
                self.unknown += 1;
                Ok(())
            }
        }
    }
}

/// Names a term by a factor more. A term that wasn't named yet goes behind the others.
pub fn count_known(named: &mut Vec<QueryTerm>, number: u32, factor: u8) -> Result<(), LineFault>
    requires { broken_limit named.old.items ≡ None }
    ensures { TalliesIn named.old.items number factor named.new.items result }
{
    match named.iter().position(|n| n.term == number) {
        Some(place) => match named[place].times.checked_add(factor) {
            Some(times) => {
                named[place].times = times;
                Ok(())
            }
            None => Err(LineFault::Refused(QueryWhy::Times)),
        },
        None => {
            if named.as_slice().len() == MOST_QUERY_TERMS {
                return Err(LineFault::Refused(QueryWhy::Terms));
            }
            match named.push(QueryTerm {
                term: number,
                times: factor,
            }) {
                Ok(()) => Ok(()),
                Err(_) => Err(LineFault::NoMemory),
            }
        }
    }
}
