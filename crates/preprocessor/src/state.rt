// A run: the text's directives and macros, its moves and working tokens, and the fault that next has answered.
ghost use Rattle.defines.specs.Held.{held};
ghost use Rattle.preprocessor.specs.Steady.{Apart, Borne, Forced, Within, Rising, CallsKnown, CallsUnused, CallsAllowed, WaitsKnown, WaitsUnused, WaitsAllowed};

use directives::processor::DirectiveProcessor;
use expansion::processor::MacroProcessor;
use stores::meter::Meter;
use tokens::fault::Fault;

// The invariant stands fact by fact, as a ghost field must be a proposition.
#[derive(Drop)]
pub struct Preprocessor<S> {
    pub(crate) directives: DirectiveProcessor<S>,
    pub(crate) processor: MacroProcessor,
    pub(crate) meter: Meter,
    pub(crate) fault: Option<Fault>,
    ghost apart: { Apart processor.invocations.items },
    ghost borne: { Borne (held directives.defines) processor.invocations.items },
    ghost forced: { Forced (held directives.defines) processor.invocations.items },
    ghost within: { Within processor.invocations.items processor.below.items },
    ghost rising: { Rising processor.below.items },
    ghost calls: { CallsKnown (held directives.defines) processor.below.items },
    ghost unused: { CallsUnused processor.invocations.items processor.below.items },
    ghost allowed: { CallsAllowed (held directives.defines) processor.below.items },
    ghost known: { WaitsKnown (held directives.defines) processor.phase },
    ghost fresh: { WaitsUnused processor.invocations.items processor.phase },
    ghost force: { WaitsAllowed (held directives.defines) processor.invocations.items processor.phase },
}
