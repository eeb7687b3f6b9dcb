// How much is kept and defined.
ghost use Rattle.std.specs.Prelude.{◌≡◌, length};
ghost use Rattle.books.specs.Book.{live};
ghost use Rattle.defines.specs.Held.{held};

use super::Defines;

impl Defines {
    // How many tokens are kept, those past the mark too.
    pub fn kept(&self) -> usize
        ensures { result ≡ length self.now.kept.items }
    {
        self.kept.len()
    }

    // How many definitions were accepted, in force or not.
    pub fn accepted(&self) -> usize
        ensures { result ≡ length (held self.now).table }
    {
        self.table.len()
    }

    // How many definitions are in force.
    pub fn in_force(&self) -> usize
        ensures { result ≡ live (held self.now).table }
    {
        self.table.iter().filter(|d| d.in_force).count()
    }
}
