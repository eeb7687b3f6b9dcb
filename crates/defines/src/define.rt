// A definition: its parameters and its body are parts of the kept tokens.
use tokens::token::Part;

#[derive(Clone, Copy, Default)]
pub struct Define {
    pub name: u32,
    pub function_like: bool,
    pub params: Part,
    pub tokens: Part,
    pub in_force: bool,
}
