// An expansion under way: the processor, the feed that it reads and the meter that it spends.
use crate::processor::MacroProcessor;
use stores::meter::Meter;

// `Ready` is asked by each method: a ghost field must be a proposition.
#[derive(Drop)]
pub struct Expander<'a, F> {
    pub processor: &'a mut MacroProcessor,
    pub feed: &'a mut F,
    pub meter: &'a mut Meter,
}
