// An atom, a unary operator and the ten binary levels, a function each, as is a form of the project. `depth` counts the parentheses open and the unary operators that lack their operand;
// it goes by value, so that no way out has to set it back.
ghost use Rattle.std.specs.Prelude.{◌≡◌, ◌+◌, ◌<◌, IfOk};
ghost use Rattle.conditions.specs.Looks.{remains, Ready, Looked, Took};

use crate::evaluator::Evaluator;
use books::Feed;
use operators::{Level, sign_of};
use tokens::fault::{Fault, Layer, PreprocessorError};
use tokens::location::Location;
use tokens::punct::Punct;
use tokens::token::TokenValue;

// At most this many parentheses and unary operators are open.
pub const DEPTH: u32 = 64;

// One more is open, unless as many are as may be.
fn deeper(depth: u32, location: Location) -> Result<u32, Fault>
    ensures { IfOk result (λ d. (d ≡ depth + 1) × (depth < 64)) }
{
    if depth >= DEPTH {
        return Err(Fault::new(
            PreprocessorError::ConditionTooDeep,
            location,
            Layer::Conditions,
        ));
    }
    Ok(depth + 1)
}

#[tactic(auto, using(crate::proofs::Looking::none_looked, crate::proofs::Looking::then_looked))]
impl<'a, F: Feed> Evaluator<'a, F> {
    // A condition as a whole.
    pub fn evaluate_expression(&mut self) -> Result<i64, Fault>
        requires { Ready F.Book.defs self.old }
        ensures looked { Looked F.Book.defs self.old self.new }
        ensures took { Took result (remains self.old) (remains self.new) }
    {
        self.logical_or(0)
    }

    #[cycle(levels)]
    fn atom(&mut self, depth: u32) -> Result<i64, Fault>
        requires { Ready F.Book.defs self.old }
        ensures looked { Looked F.Book.defs self.old self.new }
        ensures took { Took result (remains self.old) (remains self.new) }
    {
        let x = self.expect_next()?;
        match x.value {
            // every other name has become a number
            TokenValue::Ident(_) => self.handle_defined(),
            TokenValue::Integer(int) => Ok(int.value.cast_signed()),
            TokenValue::Punct(Punct::LeftParen) => {
                let v = self.logical_or(deeper(depth, x.location)?)?;
                self.close()?;
                Ok(v)
            }
            _ => Err(Fault::unexpected(x, Layer::Conditions)),
        }
    }

    #[cycle(levels)]
    fn unary(&mut self, depth: u32) -> Result<i64, Fault>
        requires { Ready F.Book.defs self.old }
        ensures looked { Looked F.Book.defs self.old self.new }
        ensures took { Took result (remains self.old) (remains self.new) }
    {
        let x = self.expect_peek()?;
        let Some(sign) = sign_of(x.value) else {
            return self.atom(depth);
        };
        self.take();
        let v = self.unary(deeper(depth, x.location)?)?;
        self.parser.apply_sign(sign, v)
    }

    #[cycle(levels)]
    fn multiplicative(&mut self, depth: u32) -> Result<i64, Fault>
        requires { Ready F.Book.defs self.old }
        ensures looked { Looked F.Book.defs self.old self.new }
        ensures took { Took result (remains self.old) (remains self.new) }
    {
        let mut left = self.unary(depth)?;
        while let Some(op) = self.take_op(Some(Level::Multiplicative))? {
            let right = self.unary(depth)?;
            left = self.parser.apply(op, left, right)?;
        }
        Ok(left)
    }

    #[cycle(levels)]
    fn additive(&mut self, depth: u32) -> Result<i64, Fault>
        requires { Ready F.Book.defs self.old }
        ensures looked { Looked F.Book.defs self.old self.new }
        ensures took { Took result (remains self.old) (remains self.new) }
    {
        let mut left = self.multiplicative(depth)?;
        while let Some(op) = self.take_op(Some(Level::Additive))? {
            let right = self.multiplicative(depth)?;
            left = self.parser.apply(op, left, right)?;
        }
        Ok(left)
    }

    #[cycle(levels)]
    fn shift(&mut self, depth: u32) -> Result<i64, Fault>
        requires { Ready F.Book.defs self.old }
        ensures looked { Looked F.Book.defs self.old self.new }
        ensures took { Took result (remains self.old) (remains self.new) }
    {
        let mut left = self.additive(depth)?;
        while let Some(op) = self.take_op(Some(Level::Shift))? {
            let right = self.additive(depth)?;
            left = self.parser.apply(op, left, right)?;
        }
        Ok(left)
    }

    #[cycle(levels)]
    fn comparative(&mut self, depth: u32) -> Result<i64, Fault>
        requires { Ready F.Book.defs self.old }
        ensures looked { Looked F.Book.defs self.old self.new }
        ensures took { Took result (remains self.old) (remains self.new) }
    {
        let mut left = self.shift(depth)?;
        while let Some(op) = self.take_op(Some(Level::Comparative))? {
            let right = self.shift(depth)?;
            left = self.parser.apply(op, left, right)?;
        }
        Ok(left)
    }

    #[cycle(levels)]
    fn equality(&mut self, depth: u32) -> Result<i64, Fault>
        requires { Ready F.Book.defs self.old }
        ensures looked { Looked F.Book.defs self.old self.new }
        ensures took { Took result (remains self.old) (remains self.new) }
    {
        let mut left = self.comparative(depth)?;
        while let Some(op) = self.take_op(Some(Level::Equality))? {
            let right = self.comparative(depth)?;
            left = self.parser.apply(op, left, right)?;
        }
        Ok(left)
    }

    #[cycle(levels)]
    fn bit_and(&mut self, depth: u32) -> Result<i64, Fault>
        requires { Ready F.Book.defs self.old }
        ensures looked { Looked F.Book.defs self.old self.new }
        ensures took { Took result (remains self.old) (remains self.new) }
    {
        let mut left = self.equality(depth)?;
        while let Some(op) = self.take_op(Some(Level::BitAnd))? {
            let right = self.equality(depth)?;
            left = self.parser.apply(op, left, right)?;
        }
        Ok(left)
    }

    #[cycle(levels)]
    fn bit_xor(&mut self, depth: u32) -> Result<i64, Fault>
        requires { Ready F.Book.defs self.old }
        ensures looked { Looked F.Book.defs self.old self.new }
        ensures took { Took result (remains self.old) (remains self.new) }
    {
        let mut left = self.bit_and(depth)?;
        while let Some(op) = self.take_op(Some(Level::BitXor))? {
            let right = self.bit_and(depth)?;
            left = self.parser.apply(op, left, right)?;
        }
        Ok(left)
    }

    #[cycle(levels)]
    fn bit_or(&mut self, depth: u32) -> Result<i64, Fault>
        requires { Ready F.Book.defs self.old }
        ensures looked { Looked F.Book.defs self.old self.new }
        ensures took { Took result (remains self.old) (remains self.new) }
    {
        let mut left = self.bit_xor(depth)?;
        while let Some(op) = self.take_op(Some(Level::BitOr))? {
            let right = self.bit_xor(depth)?;
            left = self.parser.apply(op, left, right)?;
        }
        Ok(left)
    }

    #[cycle(levels)]
    fn logical_and(&mut self, depth: u32) -> Result<i64, Fault>
        requires { Ready F.Book.defs self.old }
        ensures looked { Looked F.Book.defs self.old self.new }
        ensures took { Took result (remains self.old) (remains self.new) }
    {
        let mut left = self.bit_or(depth)?;
        while let Some(op) = self.take_op(Some(Level::LogicalAnd))? {
            let right = self.bit_or(depth)?;
            left = self.parser.apply(op, left, right)?;
        }
        Ok(left)
    }

    #[cycle(levels)]
    fn logical_or(&mut self, depth: u32) -> Result<i64, Fault>
        requires { Ready F.Book.defs self.old }
        ensures looked { Looked F.Book.defs self.old self.new }
        ensures took { Took result (remains self.old) (remains self.new) }
    {
        let mut left = self.logical_and(depth)?;
        while let Some(op) = self.take_op(Some(Level::LogicalOr))? {
            let right = self.logical_and(depth)?;
            left = self.parser.apply(op, left, right)?;
        }
        Ok(left)
    }
}
