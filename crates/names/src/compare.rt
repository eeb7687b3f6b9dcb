// Comparing two names.
ghost use Rattle.std.specs.Prelude.{◌≡◌, Decides};

// Whether the two byte strings have all their bytes in common.
pub fn same_name(a: &[u8], b: &[u8]) -> bool
    ensures { Decides result (a.now ≡ b.now) }
{
    if a.len() != b.len() {
        return false;
    }
    // a rule of the project: a loop over every byte, and no `==` of slices
    for (i, x) in a.iter().enumerate() {
        if *x != b[i] {
            return false;
        }
    }
    true
}
