// `#if`, `#ifdef`, `#ifndef`, `#elif`, `#else`, `#endif` and `#line`.
ghost use Rattle.std.specs.Prelude.{◌≡◌, true, if◌then◌else◌, OnOk};
ghost use Rattle.stores.specs.Tank.{tank, Grows, Spends};
ghost use Rattle.defines.specs.Held.{held};
ghost use Rattle.stores.specs.Places.{latest};
ghost use Rattle.reading.specs.Blocks.{pushed};
ghost use Rattle.directives.specs.Segments.{else_on, end_on, elif_on, decided, if_on};
ghost use Rattle.directives.specs.Unchanged.{Weighed, Worked};
ghost use Rattle.conditions.specs.Looks.{Ready, Looked};

use crate::processor::DirectiveProcessor;
use books::{Book, Feed};
use conditions::evaluator::Evaluator;
use conditions::if_lexer::IfLexer;
use reading::blocks::DirectiveBlock;
use sources::source::Source;
use stores::guard::Guard;
use stores::meter::Meter;
use stores::span::Span;
use tokens::fault::{Fault, Layer, PreprocessorError, Step, StepExit};
use tokens::location::Location;

// A second expression may follow the line of `#line`; its value is of no account.
fn pass_second_expression<F: Feed>(evaluator: &mut Evaluator<'_, F>) -> Result<(), Fault>
    requires { Ready F.Book.defs evaluator.old }
    ensures { Looked F.Book.defs evaluator.old evaluator.new }
{
    if evaluator.peek()?.is_some() {
        let _ = evaluator.evaluate_expression()?;
    }
    Ok(())
}

// Nothing may be left over behind an expression.
fn expect_end<F: Feed>(evaluator: &mut Evaluator<'_, F>) -> Result<(), Fault>
    requires { Ready F.Book.defs evaluator.old }
    ensures { Looked F.Book.defs evaluator.old evaluator.new }
{
    match evaluator.peek()? {
        Some(token) => Err(Fault::unexpected(token, Layer::Directives)),
        None => Ok(()),
    }
}

impl<S: Source> DirectiveProcessor<S> {
    // Whether the gathered line holds; nothing may be left over. Its evaluator is made here and in `evaluate_line`: their loans differ.
    fn evaluate_if_expression(
        &mut self,
        location: Location,
        line: Span,
        meter: &mut Meter,
    ) -> Result<bool, Fault>
        ensures defs { held self.new.defines ≡ held self.old.defines }
        ensures stores { Grows (tank meter.old) (tank meter.new) }
        ensures segments { self.new.blocks ≡ self.old.blocks }
    {
        self.parser.begin(location, true);
        let mut lexer = IfLexer {
            tokens: line,
            place: self.reader.last,
            book: &self.defines,
        };
        let mut evaluator = Evaluator {
            parser: &mut self.parser,
            lexer: &mut lexer,
            meter,
        };
        let value = evaluator.evaluate_expression()?;
        expect_end(&mut evaluator)?;
        Ok(value != 0)
    }

    // The rest of the line is gathered and worked on; what it took of the working store is given back.
    fn over_line<T, F: FnOnce(&mut DirectiveProcessor<S>, Span, &mut Meter) -> Result<T, Fault>>(
        &mut self,
        meter: &mut Meter,
        work: F,
    ) -> Step<T>
        requires callable { F.IsAlwaysCallable work }
        requires works { (p : _) (s : _) (m : _) (r : _) (q : _) (n : _) → F.post work p s m r q n → Worked p.now q.now (tank m.now) (tank n.now) }
        ensures defs { held self.new.defines ≡ held self.old.defines }
        ensures stores { Spends (tank meter.old) (tank meter.new) }
        ensures segments { self.new.blocks ≡ self.old.blocks }
    {
        let mark = meter.mark();
        let guard = Guard { meter, mark };
        let line = self.reader.gather_until_newline(guard.meter)?;
        let worked = work(self, line, guard.meter);
        worked.map_err(StepExit::Error)
    }

    // The rest of the line as a condition.
    fn condition(&mut self, location: Location, meter: &mut Meter) -> Step<bool>
        ensures defs { held self.new.defines ≡ held self.old.defines }
        ensures stores { Spends (tank meter.old) (tank meter.new) }
        ensures segments { self.new.blocks ≡ self.old.blocks }
    {
        self.over_line(
            meter,
            |this, line, meter| this.evaluate_if_expression(location, line, meter),
        )
    }

    // Whether the name behind `#ifdef` or `#ifndef` is in force.
    fn is_defined(&mut self, location: Location) -> Step<bool>
        ensures defs { held self.new.defines ≡ held self.old.defines }
        ensures segments { self.new.blocks ≡ self.old.blocks }
    {
        let (name, name_location) = self.reader.expect_lexer_ident(location)?;
        self.reader.expect_newline(name_location)?;
        Ok(self.defines.find(name).is_some())
    }

    fn begin_block(&mut self, block: DirectiveBlock, skipping: bool) -> Step<()>
        ensures defs { held self.new.defines ≡ held self.old.defines }
        ensures stack { self.new.blocks.stack.items ≡ pushed self.old.blocks.stack.items block }
        ensures skipping { self.new.blocks.skipping ≡ skipping }
    {
        let begun = self.blocks.begin(block, skipping);
        begun.map_err(|error| Fault::new(error, block.start_location, Layer::Directives).into())
    }

    // In dead text a block is only counted; in live text its condition is worked out first.
    fn parse_if_like_directive<F: FnOnce(&mut DirectiveProcessor<S>, &mut Meter) -> Step<bool>>(
        &mut self,
        directive_location: Location,
        meter: &mut Meter,
        parse: F,
    ) -> Step<()>
        requires callable { F.IsAlwaysCallable parse }
        requires weighs { (p : _) (m : _) (r : _) (q : _) (n : _) → F.post parse p m r q n → Weighed p.now q.now (tank m.now) (tank n.now) }
        ensures defs { held self.new.defines ≡ held self.old.defines }
        ensures stores { Spends (tank meter.old) (tank meter.new) }
        ensures segments { OnOk result ((self.new.blocks.stack.items ≡ if_on self.old.blocks.skipping self.new.blocks.skipping directive_location self.old.blocks.stack.items) × ((if self.old.blocks.skipping then self.new.blocks.skipping else true) ≡ true)) }
    {
        let outer_skipped = self.blocks.skipping;
        let holds = !outer_skipped && parse(self, meter)?;
        self.begin_block(
            DirectiveBlock {
                start_location: directive_location,
                had_valid_segment: holds,
                had_else: false,
                outer_skipped,
            },
            !holds,
        )?;
        if outer_skipped {
            return self.reader.consume_until_newline();
        }
        Ok(())
    }

    // pp-rs has the three directives; each says its clauses itself, as it is public.
    pub fn parse_if_directive(&mut self, location: Location, meter: &mut Meter) -> Step<()>
        ensures defs { held self.new.defines ≡ held self.old.defines }
        ensures stores { Spends (tank meter.old) (tank meter.new) }
        ensures segments { OnOk result ((self.new.blocks.stack.items ≡ if_on self.old.blocks.skipping self.new.blocks.skipping location self.old.blocks.stack.items) × ((if self.old.blocks.skipping then self.new.blocks.skipping else true) ≡ true)) }
    {
        self.parse_if_like_directive(
            location,
            meter,
            |this, meter| this.condition(location, meter),
        )
    }

    pub fn parse_ifdef_directive(&mut self, location: Location, meter: &mut Meter) -> Step<()>
        ensures defs { held self.new.defines ≡ held self.old.defines }
        ensures stores { Spends (tank meter.old) (tank meter.new) }
        ensures segments { OnOk result ((self.new.blocks.stack.items ≡ if_on self.old.blocks.skipping self.new.blocks.skipping location self.old.blocks.stack.items) × ((if self.old.blocks.skipping then self.new.blocks.skipping else true) ≡ true)) }
    {
        self.parse_if_like_directive(location, meter, |this, _| this.is_defined(location))
    }

    pub fn parse_ifndef_directive(&mut self, location: Location, meter: &mut Meter) -> Step<()>
        ensures defs { held self.new.defines ≡ held self.old.defines }
        ensures stores { Spends (tank meter.old) (tank meter.new) }
        ensures segments { OnOk result ((self.new.blocks.stack.items ≡ if_on self.old.blocks.skipping self.new.blocks.skipping location self.old.blocks.stack.items) × ((if self.old.blocks.skipping then self.new.blocks.skipping else true) ≡ true)) }
    {
        self.parse_if_like_directive(location, meter, |this, _| Ok(!this.is_defined(location)?))
    }

    // The structure is tested even in dead text; the condition only where it is needed.
    pub fn parse_elif_directive(
        &mut self,
        directive_location: Location,
        meter: &mut Meter,
    ) -> Step<()>
        ensures defs { held self.new.defines ≡ held self.old.defines }
        ensures stores { Spends (tank meter.old) (tank meter.new) }
        ensures segments { OnOk result ((self.new.blocks.stack.items ≡ elif_on self.new.blocks.skipping (latest self.old.blocks.stack.items) self.old.blocks.stack.items) × ((if decided (latest self.old.blocks.stack.items) then self.new.blocks.skipping else true) ≡ true)) }
    {
        self.blocks.skipping = true;
        let Some(block) = self.blocks.top() else {
            let error = PreprocessorError::ElifOutsideOfBlock;
            return Err(Fault::new(error, directive_location, Layer::Directives).into());
        };
        if block.had_else {
            let error = PreprocessorError::ElifAfterElse;
            return Err(Fault::new(error, directive_location, Layer::Directives).into());
        }
        if block.outer_skipped || block.had_valid_segment {
            return self.reader.consume_until_newline();
        }
        if self.condition(directive_location, meter)? {
            self.blocks.change(
                DirectiveBlock {
                    had_valid_segment: true,
                    ..block
                },
                false,
            );
        }
        Ok(())
    }

    pub fn parse_else_directive(&mut self, directive_location: Location) -> Step<()>
        ensures defs { held self.new.defines ≡ held self.old.defines }
        ensures segments { OnOk result ((self.new.blocks.stack.items ≡ (else_on (latest self.old.blocks.stack.items) (self.old.blocks.stack.items)).0) × (self.new.blocks.skipping ≡ (else_on (latest self.old.blocks.stack.items) (self.old.blocks.stack.items)).1)) }
    {
        self.reader.expect_newline(directive_location)?;
        let Some(block) = self.blocks.top() else {
            let error = PreprocessorError::ElseOutsideOfBlock;
            return Err(Fault::new(error, directive_location, Layer::Directives).into());
        };
        if block.had_else {
            let error = PreprocessorError::MoreThanOneElse;
            return Err(Fault::new(error, directive_location, Layer::Directives).into());
        }
        let skipping = block.outer_skipped || block.had_valid_segment;
        self.blocks.change(
            DirectiveBlock {
                had_else: true,
                ..block
            },
            skipping,
        );
        Ok(())
    }

    // After `#endif` the text is live exactly where the block lies in live text.
    pub fn parse_endif_directive(&mut self, directive_location: Location) -> Step<()>
        ensures defs { held self.new.defines ≡ held self.old.defines }
        ensures segments { OnOk result ((self.new.blocks.stack.items ≡ (end_on (latest self.old.blocks.stack.items) (self.old.blocks.stack.items)).0) × (self.new.blocks.skipping ≡ (end_on (latest self.old.blocks.stack.items) (self.old.blocks.stack.items)).1)) }
    {
        let Some(block) = self.blocks.close() else {
            let error = PreprocessorError::EndifOutsideOfBlock;
            return Err(Fault::new(error, directive_location, Layer::Directives).into());
        };
        self.blocks.skipping = block.outer_skipped;
        if block.outer_skipped {
            self.reader.consume_until_newline()
        } else {
            self.reader.expect_newline(directive_location)
        }
    }

    // The expressions of a gathered `#line`. Its evaluator is made as in `evaluate_if_expression`.
    fn evaluate_line(
        &mut self,
        location: Location,
        line: Span,
        meter: &mut Meter,
    ) -> Result<(), Fault>
        ensures defs { held self.new.defines ≡ held self.old.defines }
        ensures stores { Grows (tank meter.old) (tank meter.new) }
        ensures segments { self.new.blocks ≡ self.old.blocks }
    {
        self.parser.begin(location, false);
        let mut lexer = IfLexer {
            tokens: line,
            place: self.reader.last,
            book: &self.defines,
        };
        let mut evaluator = Evaluator {
            parser: &mut self.parser,
            lexer: &mut lexer,
            meter,
        };
        let value = evaluator.evaluate_expression()?;
        let Ok(number) = u32::try_from(value) else {
            return Err(Fault::new(PreprocessorError::LineOverflow, location, Layer::Directives));
        };
        self.line_offset = i64::from(number) - i64::from(location.line);
        pass_second_expression(&mut evaluator)?;
        expect_end(&mut evaluator)
    }

    pub fn parse_line_directive(
        &mut self,
        directive_location: Location,
        meter: &mut Meter,
    ) -> Step<()>
        ensures defs { held self.new.defines ≡ held self.old.defines }
        ensures stores { Spends (tank meter.old) (tank meter.new) }
        ensures segments { self.new.blocks ≡ self.old.blocks }
    {
        self.over_line(
            meter,
            |this, line, meter| this.evaluate_line(directive_location, line, meter),
        )
    }
}
