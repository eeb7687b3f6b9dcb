// A move, a turn and a step of the processor over any feed.
ghost use Rattle.std.specs.Prelude.{◌<◌, OnOk};
ghost use Rattle.stores.specs.Tank.{tank};
ghost use Rattle.expansion.specs.Steps.{Ready, Stepped};
ghost use Rattle.expansion.specs.Moved.{Pays, PaysFor};

use crate::expander::Expander;
use crate::invocation::Phase;
use books::Feed;
use tokens::fault::{Fault, Layer, Step};
use tokens::token::{Integer, Token, TokenValue};
use tokens::words::LINE_MACRO;

#[tactic(auto, using(crate::proofs::Stepping::none_stepped, crate::proofs::Stepping::then_stepped))]
impl<'a, F: Feed> Expander<'a, F> {
    // The top macro is read on, or else the input: of level 0 the feed, of a deeper level the argument that it expands.
    fn step_internal(&mut self) -> Step<Token>
        ensures { Stepped F.Book.defs self.old self.new }
    {
        let processor = &mut *self.processor;
        if processor.is_expanding_define() {
            processor.read_invocation(self.feed, self.meter)
        } else if processor.below.is_empty() {
            self.feed.step(self.meter)
        } else {
            processor.read_input(self.meter)
        }
    }

    // `__LINE__` becomes its number: inside a macro that macro's line, else the token's own. Only level 0 follows `#line`.
    fn number_line(&self, step: Step<Token>) -> Step<Token> {
        let token = step?;
        let TokenValue::Ident(LINE_MACRO) = token.value else {
            return Ok(token);
        };
        let line = if self.processor.is_expanding_define() {
            self.processor.level.line
        } else {
            token.location.line
        };
        let shown = if self.processor.below.is_empty() {
            self.feed.apply_line_offset(line, token.location)?
        } else {
            line
        };
        Ok(Token {
            value: TokenValue::Integer(Integer {
                value: shown as u64,
                signed: false,
                width: 32,
            }),
            location: token.location,
        })
    }

    // One move, once it is granted: what was held back is met first.
    pub fn move_on(&mut self) -> Step<Token>
        ensures { Stepped F.Book.defs self.old self.new }
    {
        if let Phase::Held(step) = self.processor.phase {
            self.processor.phase = Phase::Plain;
            return step;
        }
        let step = self.step_internal();
        self.number_line(step)
    }

    // One move, if one is granted.
    pub(crate) fn paid_move(&mut self) -> Result<Step<Token>, Fault>
        ensures stepped { Stepped F.Book.defs self.old self.new }
        ensures pays { OnOk result (self.old.meter.now.moves < self.new.meter.now.moves) }
    {
        self.meter.spend().map_err(|error| Fault::new(error, self.feed.place(), Layer::Expansion))?;
        Ok(self.move_on())
    }

    // One turn: a move, and what the phase makes of it. No answer means that the step goes on.
    fn turn(&mut self) -> Option<Step<Token>>
        requires { Ready F.Book.defs self.old }
        ensures stepped { Stepped F.Book.defs self.old self.new }
        ensures pays { Pays result (tank self.old.meter.now) (tank self.new.meter.now) }
    {
        match self.paid_move() {
            Ok(met) => self.processor.meet(met, self.feed, self.meter),
            Err(fault) => Some(Err(fault.into())),
        }
    }

    // One step: turns, until one of them answers.
    pub fn step(&mut self) -> Step<Token>
        requires { Ready F.Book.defs self.old }
        ensures stepped { Stepped F.Book.defs self.old self.new }
        ensures pays { PaysFor result (tank self.old.meter.now) (tank self.new.meter.now) }
    {
        loop {
            if let Some(answer) = self.turn() {
                return answer;
            }
        }
    }
}
