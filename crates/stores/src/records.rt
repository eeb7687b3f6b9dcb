// Search by name and stacks, written once for every kind of record.
ghost use Rattle.std.specs.Prelude.{◌≡◌, ℕ, ◌+◌, ◌-◌, ◌<◌, ◌≤◌, [], ◌∷◌, ◌++◌, map, length, take, IfSome, is_ok, IfErr, if◌then◌else◌, vec_len, vec_capacity, Option, MatchOption, nat_lt};
ghost use Rattle.std.specs.Option.{option_map, option_to_list};
ghost use Rattle.stores.specs.Places.{place, latest};
ghost use Rattle.stores.specs.Idents.{ident_of};

use tokens::token::{Token, TokenValue};

// A record that may be found by a name's number.
pub trait Named {
    ghost key: { Self → Option ℕ };

    fn name(&self) -> Option<u32>
        ensures { result ≡ key self.now };
}

// A name token is found by its name.
impl Named for Token {
    ghost key = { ident_of };

    fn name(&self) -> Option<u32> {
        match self.value {
            TokenValue::Ident(n) => Some(n),
            _ => None,
        }
    }
}

// The first place whose record bears this name.
pub fn find<T: Named>(items: &[T], name: u32) -> Option<usize>
    ensures value { result ≡ place 0 name (map T.key items.now) }
    ensures within { IfSome result (λ i. i < length items.now) }
{
    items.iter().position(|x| x.name() == Some(name))
}

// One more record at the end, or the record back where there are `limit` already.
pub fn push<T>(items: &mut Vec<T>, limit: usize, x: T) -> Result<(), T>
    requires { limit ≤ vec_capacity items.old }
    ensures items { items.new.items ≡ (if is_ok result then items.old.items ++ x ∷ [] else items.old.items) }
    ensures test { is_ok result ≡ nat_lt (vec_len items.old) limit }
    ensures refused { IfErr result (λ y. y ≡ x) }
    ensures capacity { vec_capacity items.new ≡ vec_capacity items.old }
{
    if items.len() >= limit {
        return Err(x);
    }
    items.push_reserved(x);
    Ok(())
}

// The last record, taken off. Thin over the library's: generic find, push and pop are a form of the project.
pub fn pop<T>(items: &mut Vec<T>) -> Option<T>
    ensures items { items.old.items ≡ items.new.items ++ option_to_list result }
    ensures front { items.new.items ≡ take (vec_len items.old - 1) items.old.items }
    ensures last { result ≡ latest items.old.items }
    ensures none { MatchOption result (vec_len items.old ≡ 0) (λ _. vec_len items.new + 1 ≡ vec_len items.old) }
    ensures capacity { vec_capacity items.new ≡ vec_capacity items.old }
{
    items.pop()
}

// The last record, left where it is. Thin over the library's, as `pop` is.
pub fn top<T>(items: &[T]) -> Option<&T>
    ensures { option_map (λ x. x.now) result ≡ latest items.now }
{
    items.last()
}
