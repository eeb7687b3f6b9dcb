// Definitions are put in force and taken out of force; what a handle means stays.
ghost use Rattle.std.specs.Prelude.{◌≡◌, ◌<◌, true, length, is_ok, IfErr, if◌then◌else◌, Some, None, vec_len, nat_lt};
ghost use Rattle.tokens.specs.declared.fault.PreprocessorError.TheVariants.{TooManyDefines};
ghost use Rattle.books.specs.Book.{find, Grown, Kept};
ghost use Rattle.defines.specs.Held.{held, settled, parameters, replacement};
ghost use Rattle.defines.specs.Changes.{without, made, entered, accepted};

use super::Defines;
use crate::define::Define;
use books::Book;
use tokens::fault::PreprocessorError;
use tokens::token::Part;

// At most this many definitions are accepted in a run.
pub const MAX_DEFINES: usize = 512;

impl Defines {
    // The name is not in force any more.
    pub fn undefine(&mut self, name: u32)
        ensures defs { held self.new ≡ without (held self.old) name }
        ensures handles { Grown (held self.old) (held self.new) }
        ensures gone { find (held self.new) name ≡ None }
        ensures kept { self.new.kept.items ≡ self.old.kept.items }
        ensures mark { self.new.mark ≡ self.old.mark }
        ensures body { self.new.body ≡ self.old.body }
    {
        if let Some(handle) = self.find(name) {
            self.table[handle].in_force = false;
        }
    }

    // The definition that was read is entered under a name that is free.
    fn enter(&mut self, name: u32, function_like: bool)
        requires free { find (held self.old) name ≡ None }
        requires room { vec_len self.old.table < 512 }
        ensures defs { held self.new ≡ entered (held self.old) (made name function_like (parameters self.old) (replacement self.old)) }
        ensures kept { self.new.kept.items ≡ self.old.kept.items }
        ensures mark { self.new.mark ≡ vec_len self.old.kept }
        ensures body { self.new.body ≡ vec_len self.old.kept }
    {
        let end = self.kept.len();
        let params = Part {
            start: self.mark,
            len: self.body - self.mark,
        };
        let tokens = Part {
            start: self.body,
            len: end - self.body,
        };
        self.table.push_reserved(Define {
            name,
            function_like,
            params,
            tokens,
            in_force: true,
        });
        self.mark = end;
        self.body = end;
    }

    // The definition that was read is put in force under the name in place of a former one, unless 512 were accepted already.
    pub fn accept(&mut self, name: u32, function_like: bool) -> Result<(), PreprocessorError>
        ensures value { is_ok result ≡ nat_lt (length (held self.old).table) 512 }
        ensures refused { IfErr result (λ e. e ≡ TooManyDefines) }
        ensures defs { held self.new ≡ (if is_ok result then accepted (held self.old) (made name function_like (parameters self.old) (replacement self.old)) else held self.old) }
        ensures handles { Grown (held self.old) (held self.new) }
        ensures names { Kept (held self.old) (held self.new) }
        ensures found { is_ok result ≡ true → find (held self.new) name ≡ Some (length (held self.old).table) }
        ensures kept { self.new.kept.items ≡ (if is_ok result then self.old.kept.items else settled self.old) }
        ensures mark { self.new.mark ≡ vec_len self.new.kept }
        ensures body { self.new.body ≡ vec_len self.new.kept }
    {
        if self.table.len() >= MAX_DEFINES {
            self.give_back();
            return Err(PreprocessorError::TooManyDefines);
        }
        self.undefine(name);
        self.enter(name, function_like);
        Ok(())
    }
}
