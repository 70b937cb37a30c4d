// Block kinds: what a pair may hold. Each kind has a zero, a sum and a test of sameness.
ghost use Rattle.std.specs.Prelude.{◌≡◌, Decides};
ghost use Rattle.kinds.specs.Group.{Group};

pub trait BlockKind: Copy {
    // The zero and the sum, with their laws: associative, commutative, x + 0 = x, x + x = 0.
    ghost group: { Group Self };

    fn zero() -> Self
        ensures { result ≡ group.none };

    fn add(self, other: Self) -> Self
        ensures { result ≡ group.sum self other };

    // Decides equality; the `==` of `Eq` need only be some equivalence.
    fn same(self, other: Self) -> bool
        ensures { Decides result (self ≡ other) };
}
