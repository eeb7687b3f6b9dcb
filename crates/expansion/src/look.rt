// The two questions of a condition's parser: a look without expansion, and the start of a name that it gave.
ghost use Rattle.stores.specs.Tank.{tank};
ghost use Rattle.expansion.specs.Steps.{Ready, Stepped};
ghost use Rattle.expansion.specs.Moved.{PaysFor};

use crate::expander::Expander;
use books::Feed;
use tokens::fault::Step;
use tokens::token::Token;

#[tactic(auto, using(crate::proofs::Stepping::none_stepped, crate::proofs::Stepping::then_stepped))]
impl<'a, F: Feed> Expander<'a, F> {
    // One move and no more.
    pub fn raw_step(&mut self) -> Step<Token>
        ensures stepped { Stepped F.Book.defs self.old self.new }
        ensures pays { PaysFor result (tank self.old.meter.now) (tank self.new.meter.now) }
    {
        self.paid_move()?
    }

    // A name passes, and its token is the answer; or it starts an expansion, and the answer is to go on.
    pub fn start_define_invocation(&mut self, x: Token, name: u32) -> Step<Token>
        requires { Ready F.Book.defs self.old }
        ensures { Stepped F.Book.defs self.old self.new }
    {
        // `unwrap_or_else` was tried: what its closure leaves of the processor was not proved
        match self.processor.begin(x, name, self.feed, self.meter) {
            Some(answer) => answer,
            None => self.step(),
        }
    }
}
