//! What a state under the lock stands for.

ghost use Rattle.std.specs.Prelude.{◌≡◌, Bool, List, length};

/// A state that stands for a history of entries.
pub trait StandsFor {
    type Entry;

    type Fixed;

    /// The entries.
    ghost history: { Self → List Self.Entry };

    /// Whether it is shut. What is shut stays so.
    ghost shut: { Self → Bool };

    /// What no job changes.
    ghost fixed: { Self → Self.Fixed };

    /// Which histories are legal for a fixed part.
    ghost legal: { Self.Fixed → List Self.Entry → Type 0 };

    /// Whether the first entry closes the second.
    ghost closes: { Self.Entry → Self.Entry → Type 0 };

    /// How many entries there are.
    fn entries(&self) -> u64
        ensures { result ≡ length (history self.now) };

    fn is_shut(&self) -> bool
        ensures { result ≡ shut self.now };
}
