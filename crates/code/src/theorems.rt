// Theorems about the sum rules, each on the contract of a function.
ghost use Rattle.code.specs.Examples.{Examples};
ghost use Rattle.kinds.specs.Group.{Group};
ghost use Rattle.code.specs.Rebuilt.{Stands};

// Two lost stations can be rebuilt in exactly one way, at every size and for every block kind.
pub fn rebuild_stands<B>()
    ensures { (G : Group B) → Stands G }
{}

// The worked examples of sizes, places, diagonals and patterns.
pub fn examples_stand()
    ensures { Examples }
{}
