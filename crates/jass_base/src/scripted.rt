ghost use Rattle.std.specs.Prelude.{[]};
ghost use Rattle.jass_base.specs.Scripts.{Script, uncalled};

/// An outside in memory that is told which of its calls fail.
pub trait Scripted {
    /// The reads that fail, and how many there were.
    ghost reads: { Self → Script } = { λ _. uncalled [] };

    /// The same of the calls that write.
    ghost writes: { Self → Script } = { λ _. uncalled [] };
}
