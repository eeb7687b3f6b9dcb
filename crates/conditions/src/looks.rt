// Looks: the next token with macros started, and the takings that must find one.
ghost use Rattle.std.specs.Prelude.{◌≡◌, ◌<◌, is_some, None};
ghost use Rattle.tokens.specs.Faults.{raised};
ghost use Rattle.stores.specs.Tank.{tank};
ghost use Rattle.expansion.specs.Processor.{view};
ghost use Rattle.expansion.specs.Sane.{Holds};
ghost use Rattle.conditions.specs.Looks.{located, passing, taken, ahead, remains, Ready, Looked, Passed, Took, Found, Carried, Spent, Ended, Tells, found_in, Holding, Named, Settled, OfLevel, OfNumber};
ghost use Rattle.books.specs.Book.{find};
ghost use Rattle.operators.specs.Calc.{calc, signed, flag};

use crate::evaluator::Evaluator;
use crate::if_parser::IfParser;
use books::{Book, Feed};
use expansion::expander::Expander;
use operators::{Level, Sign, apply, apply_sign, level_number, level_of};
use stores::meter::Meter;
use tokens::fault::{Fault, Layer, PreprocessorError, Step, StepExit};
use tokens::punct::Punct;
use tokens::token::{Integer, Token, TokenValue};
use tokens::words::DEFINED;

// 1 for a name in force, else 0.
fn in_force<B: Book>(book: &B, name: u32) -> i64
    ensures { result ≡ flag (is_some (find (B.Book.defs book.now) name)) }
{
    i64::from(book.find(name).is_some())
}

impl IfParser {
    // A name that is no macro: 0 in a condition, a fault in `#line`.
    fn pass(&self, x: Token) -> Result<Token, Fault>
        ensures { result ≡ passing self.now.parsing_if x }
    {
        if self.parsing_if {
            Ok(Token {
                value: TokenValue::Integer(Integer {
                    value: 0,
                    signed: true,
                    width: 64,
                }),
                ..x
            })
        } else {
            Err(Fault::unexpected(x, Layer::Conditions))
        }
    }

    // The token that a look found is taken.
    pub fn take(&mut self)
        ensures { self.new ≡ taken self.old }
    {
        self.carry = None;
    }

    // A fault at the directive's word.
    fn at_word(&self, error: PreprocessorError) -> Fault
        ensures { result ≡ raised Layer.Conditions error self.now.location }
    {
        Fault::new(error, self.location, Layer::Conditions)
    }

    // The line has run out.
    fn ended(&self) -> Fault
        ensures { result ≡ raised Layer.Conditions PreprocessorError.UnexpectedEndOfInput self.now.location }
    {
        self.at_word(PreprocessorError::UnexpectedEndOfInput)
    }

    pub fn apply(&self, op: Punct, left: i64, right: i64) -> Result<i64, Fault>
        ensures { result ≡ located self.now.location (calc op left right) }
    {
        apply(op, left, right).map_err(|error| self.at_word(error))
    }

    pub fn apply_sign(&self, sign: Sign, v: i64) -> Result<i64, Fault>
        ensures { result ≡ located self.now.location (signed sign v) }
    {
        apply_sign(sign, v).map_err(|error| self.at_word(error))
    }
}

impl IfParser {
    // The operator of a level that comes next is taken, if one does. The level goes by its number: 0 is what is no operator, and past 10 is nothing.
    pub fn take_op<F: Feed>(
        &mut self,
        level: u8,
        lexer: &mut F,
        meter: &mut Meter,
    ) -> Result<Option<Punct>, Fault>
        requires { Holds (F.Book.defs lexer.old) (view self.old.processor) }
        ensures looked { Passed (F.Book.defs lexer.old) self.old (tank meter.old) (F.Book.defs lexer.new) self.new (tank meter.new) }
        ensures found { Found result (ahead self.old.carry (tank meter.old)) (ahead self.new.carry (tank meter.new)) }
        ensures level { OfNumber level result }
    {
        let mut evaluator = Evaluator {
            parser: self,
            lexer,
            meter,
        };
        let Some(x) = evaluator.peek()? else {
            return Ok(None);
        };
        match x.value {
            TokenValue::Punct(op) if level_number(op) == level => {
                evaluator.take();
                Ok(Some(op))
            }
            _ => Ok(None),
        }
    }
}

#[tactic(auto, using(crate::proofs::Looking::none_looked, crate::proofs::Looking::then_looked))]
impl<'a, F: Feed> Evaluator<'a, F> {
    // The carried token, else one move of the processor. Only the fault of spent moves is raised: any other counts as no token.
    pub fn raw_next(&mut self) -> Result<Option<Token>, Fault>
        ensures looked { Looked F.Book.defs self.old self.new }
        ensures found { Found result (remains self.old) (remains self.new) }
        ensures carry { self.new.parser.now.carry ≡ None }
        ensures carried { Carried self.old.parser.now.carry result }
        ensures spent { Spent result }
    {
        if let Some(x) = self.parser.carry.take() {
            return Ok(Some(x));
        }
        let mut expander = Expander {
            processor: &mut self.parser.processor,
            feed: self.lexer,
            meter: self.meter,
        };
        match expander.raw_step() {
            Ok(x) => Ok(Some(x)),
            Err(StepExit::Error(f)) if matches!(f.error, PreprocessorError::MovesSpent) => Err(f),
            Err(_) => Ok(None),
        }
    }

    // A name passes, or its macro is started.
    fn start_define_invocation(&mut self, x: Token, name: u32) -> Step<Token>
        requires { Ready F.Book.defs self.old }
        ensures looked { Looked F.Book.defs self.old self.new }
        ensures carry { self.new.parser.now.carry ≡ self.old.parser.now.carry }
    {
        let mut expander = Expander {
            processor: &mut self.parser.processor,
            feed: self.lexer,
            meter: self.meter,
        };
        expander.start_define_invocation(x, name)
    }

    // The next token, where names of macros are started; each exit of a start means something else here.
    pub fn next(&mut self) -> Result<Option<Token>, Fault>
        requires { Ready F.Book.defs self.old }
        ensures looked { Looked F.Book.defs self.old self.new }
        ensures found { Found result (remains self.old) (remains self.new) }
        ensures carry { self.new.parser.now.carry ≡ None }
        ensures settled { Settled result }
    {
        while let Some(x) = self.raw_next()? {
            let TokenValue::Ident(name) = x.value else {
                return Ok(Some(x));
            };
            if name == DEFINED {
                return Ok(Some(x));
            }
            match self.start_define_invocation(x, name) {
                Ok(_) => return self.parser.pass(x).map(Some),
                Err(StepExit::Continue) => {}
                Err(StepExit::Finished) => return Ok(None),
                Err(StepExit::Error(f)) => return Err(f),
            }
        }
        Ok(None)
    }

    // A look: what it finds is carried.
    pub fn peek(&mut self) -> Result<Option<Token>, Fault>
        requires { Ready F.Book.defs self.old }
        ensures looked { Looked F.Book.defs self.old self.new }
        ensures carry { self.new.parser.now.carry ≡ found_in result }
        ensures settled { Settled result }
    {
        let found = self.next()?;
        self.parser.carry = found;
        Ok(found)
    }

    // The token that a look found is taken.
    pub fn take(&mut self)
        ensures looked { Looked F.Book.defs self.old self.new }
        ensures parser { self.new.parser.now ≡ taken self.old.parser.now }
        ensures lexer { self.new.lexer.now ≡ self.old.lexer.now }
        ensures meter { self.new.meter.now ≡ self.old.meter.now }
    {
        self.parser.take();
    }

    pub fn expect_raw_next(&mut self) -> Result<Token, Fault>
        ensures looked { Looked F.Book.defs self.old self.new }
        ensures took { Took result (remains self.old) (remains self.new) }
        ensures ended { Ended self.old.parser.now.location result }
    {
        self.raw_next()?.ok_or(self.parser.ended())
    }

    pub fn expect_next(&mut self) -> Result<Token, Fault>
        requires { Ready F.Book.defs self.old }
        ensures looked { Looked F.Book.defs self.old self.new }
        ensures took { Took result (remains self.old) (remains self.new) }
        ensures settled { Named result }
    {
        self.next()?.ok_or(self.parser.ended())
    }

    pub fn expect_peek(&mut self) -> Result<Token, Fault>
        requires { Ready F.Book.defs self.old }
        ensures looked { Looked F.Book.defs self.old self.new }
        ensures carry { Holding result self.new.parser.now.carry }
    {
        self.peek()?.ok_or(self.parser.ended())
    }

    // The operator of the level that comes next is taken, if one does; of no level is what is no operator.
    pub fn take_op(&mut self, level: Option<Level>) -> Result<Option<Punct>, Fault>
        requires { Ready F.Book.defs self.old }
        ensures looked { Looked F.Book.defs self.old self.new }
        ensures found { Found result (remains self.old) (remains self.new) }
        ensures level { OfLevel level result }
    {
        let Some(x) = self.peek()? else {
            return Ok(None);
        };
        match x.value {
            TokenValue::Punct(op) if level_of(op) == level => {
                self.take();
                Ok(Some(op))
            }
            _ => Ok(None),
        }
    }

    // The end of a parenthesis is taken.
    pub fn close(&mut self) -> Result<(), Fault>
        requires { Ready F.Book.defs self.old }
        ensures looked { Looked F.Book.defs self.old self.new }
        ensures took { Took result (remains self.old) (remains self.new) }
    {
        let x = self.expect_next()?;
        match x.value {
            TokenValue::Punct(Punct::RightParen) => Ok(()),
            _ => Err(Fault::unexpected(x, Layer::Conditions)),
        }
    }

    // Behind `defined`: whether a name is in force.
    pub fn handle_defined(&mut self) -> Result<i64, Fault>
        requires { Ready F.Book.defs self.old }
        ensures looked { Looked F.Book.defs self.old self.new }
        ensures took { Took result (remains self.old) (remains self.new) }
        ensures tells { Tells (F.Book.defs self.new.lexer.now) result }
    {
        let next = self.expect_raw_next()?;
        match next.value {
            TokenValue::Ident(name) => Ok(in_force(self.lexer, name)),
            TokenValue::Punct(Punct::LeftParen) => {
                let inner = self.expect_raw_next()?;
                let TokenValue::Ident(name) = inner.value else {
                    return Err(Fault::unexpected(inner, Layer::Conditions));
                };
                self.close()?;
                Ok(in_force(self.lexer, name))
            }
            _ => Err(Fault::unexpected(next, Layer::Conditions)),
        }
    }
}
