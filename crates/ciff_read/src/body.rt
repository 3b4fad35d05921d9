ghost use Rattle.std.specs.Prelude.{◌≤◌};

/// A message's body: its first place, and the place behind it.
#[derive(Clone, Copy)]
pub struct Body {
    pub from: usize,
    pub end: usize,
    pub ghost in_order: { from ≤ end },
}
