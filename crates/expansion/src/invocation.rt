// What a processor holds: macros in expansion, calls, levels that wait, and its phase.
use books::Handle;
use stores::span::Span;
use tokens::fault::Step;
use tokens::location::Location;
use tokens::token::Token;

// A macro in expansion: how far its body is read, and what is left of the argument that is read in its place.
#[derive(Clone, Copy)]
pub struct DefineInvocation {
    pub name: u32,
    pub handle: Handle,
    pub at: usize,
    pub reading: Option<Span>,
}

// A function-like name that was met.
#[derive(Clone, Copy)]
pub struct Callee {
    pub name: u32,
    pub handle: Handle,
    pub location: Location,
}

// A call whose arguments are gathered or expanded: `count` of them are whole (33 stands for more than 32, so that a call stays a few words), the next begins at `from`.
#[derive(Clone, Copy)]
pub struct Call {
    pub callee: Callee,
    pub paren: Location,
    pub last: Location,
    pub nesting: u32,
    pub from: usize,
    pub count: usize,
}

// What a level is doing.
#[derive(Clone, Copy)]
pub enum Phase {
    Plain,
    // #define f(x) x
    // f + f(2)  ->  f + 2: the first `f` passes, and `+` is held back for the next move
    Held(Step<Token>),
    // a function-like name was read: is it a call?
    Met(Callee),
    Gather(Call),
}

// What a level reads and where it writes.
#[derive(Clone, Copy, Default)]
pub struct Level {
    // what is left of the argument that it expands; level 0 reads the feed
    pub input: Span,
    // where its output begins
    pub start: usize,
    // the line that `__LINE__` shows within a macro
    pub line: u32,
}

// A level that waits while the argument `next` of its call is expanded one level deeper.
#[derive(Clone, Copy)]
pub struct Pending {
    pub call: Call,
    pub next: usize,
    pub level: Level,
    // how many macros were in expansion when it began to wait
    pub end: usize,
}
