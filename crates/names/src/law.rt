// The laws of the table's numbers.
ghost use Rattle.std.specs.Prelude.{◌≡◌, ℕ, List, length, take};
ghost use Rattle.names.specs.Interning.{SameNumber, after};

// Two names get the same number exactly when all their bytes agree.
pub fn same_number_stands()
    ensures { SameNumber }
{}

// The names that are there keep their numbers when a name is entered.
pub fn numbers_stay()
    ensures { (ns : List (List ℕ)) (b : List ℕ) → take (length ns) (after ns b) ≡ ns }
{}
