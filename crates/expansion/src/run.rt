// Any number of steps of a fresh processor, over any feed and with any budget.
ghost use Rattle.std.specs.Prelude.{IfOk};
ghost use Rattle.expansion.specs.Sane.{Lawful};

use crate::expander::Expander;
use crate::processor::MacroProcessor;
use books::Feed;
use std::alloc::{AllocError, Global};
use stores::meter::Meter;

// However many steps are made, no name is in expansion twice, each handle bears its macro's name, and the names
// in expansion number at most the definitions in force plus one.
#[tactic(auto, using(crate::proofs::Counts::sane_lawful))]
pub fn after_steps<F: Feed>(
    heap: Global,
    feed: &mut F,
    budget: u64,
    count: u32,
) -> Result<MacroProcessor, AllocError>
    ensures { IfOk result (λ p. Lawful (F.Book.defs feed.new) p.invocations.items) }
{
    let mut meter = Meter::new(heap, budget)?;
    let mut processor = MacroProcessor::new(heap)?;
    let mut expander = Expander {
        processor: &mut processor,
        feed,
        meter: &mut meter,
    };
    for _ in 0..count {
        let _ = expander.step();
    }
    Ok(processor)
}
