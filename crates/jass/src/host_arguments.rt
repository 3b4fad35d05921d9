ghost use Rattle.std.specs.Prelude.{None};

use crate::arguments::Arguments;
use std::env::{Env, FillError};

/// The host's arguments. It tells none of them.
#[derive(Drop)]
pub struct HostArguments<'a> {
    rt: &'a HostRuntime,
}

impl<'a> HostArguments<'a> {
    pub fn new(rt: &'a HostRuntime) -> HostArguments<'a> {
        HostArguments { rt }
    }
}

impl<'a> Arguments for HostArguments<'a> {
    ghost told = { λ _. None };

    fn argument(&self, place: usize, buf: &mut [u8]) -> Result<usize, FillError> {
        self.rt.arg(place, buf)
    }
}
