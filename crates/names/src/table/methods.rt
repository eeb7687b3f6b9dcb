// Entering names, finding them, reading them back, and forgetting the latest.
ghost use Rattle.std.specs.Prelude.{◌≡◌, ◌+◌, ◌<◌, ◌≤◌, [], ◌∷◌, ◌++◌, map, fold, length, take, None, MatchOption, MatchResult, slice_index_or};
ghost use Rattle.std.specs.List.{concat};
ghost use Rattle.names.specs.Spans.{Distinct};
ghost use Rattle.names.specs.Interning.{seek, answer, after};
ghost use Rattle.names.specs.Table.{fixed};

use super::Names;
use crate::compare::same_name;
use std::alloc::Global;
use tokens::fault::Refusal;
use tokens::token::Part;

const NAME_LEN: usize = 1024;

const ALL_NAMES: usize = 1024;

const ALL_BYTES: usize = 16384;

// In the order of `tokens::words`; fixed words as byte strings are a form of the project.
const FIXED: [&[u8]; 15] = [
    b"error",
    b"line",
    b"define",
    b"undef",
    b"if",
    b"ifdef",
    b"ifndef",
    b"elif",
    b"else",
    b"endif",
    b"version",
    b"extension",
    b"pragma",
    b"defined",
    b"__LINE__",
];

impl Names {
    // How many names there are, no two of which are alike.
    pub fn count(&self) -> usize
        ensures value { result ≡ length self.now }
        ensures few { result ≤ 1024 }
        ensures distinct { Distinct self.now }
    {
        self.spans.len()
    }

    // How many bytes all the names have together.
    pub fn size(&self) -> usize
        ensures value { result ≡ length (concat self.now) }
        ensures few { result ≤ 16384 }
    {
        self.bytes.len()
    }

    // The bytes of a name by its number, none for an unknown number.
    pub fn bytes_of(&self, n: u32) -> Option<&[u8]>
        ensures { MatchOption result (length self.now ≤ n) (λ b. (n < length self.now) × (b.now ≡ slice_index_or self.now n [])) }
    {
        let part = self.spans.get(n as usize)?;
        Some(part.of(&self.bytes))
    }

    // The number of the name with these bytes.
    pub fn find(&self, bytes: &[u8]) -> Option<u32>
        ensures { result ≡ seek 0 self.now bytes.now }
    {
        let place = self
            .spans
            .iter()
            .position(|part| same_name(part.of(&self.bytes), bytes))?;
        Some(place as u32)
    }

    // One more name at the end.
    fn enter(&mut self, bytes: &[u8])
        requires fresh { seek 0 self.old bytes.now ≡ None }
        requires few { length self.old < 1024 }
        requires short { length (concat self.old) + length bytes.now ≤ 16384 }
        ensures { self.new ≡ self.old ++ bytes.now ∷ [] }
    {
        let start = self.bytes.len();
        let len = bytes.len();
        let _ = self.bytes.extend_from_slice(bytes);
        self.spans.push_reserved(Part { start, len });
    }

    // The number of the name with these bytes, entered now if it is new.
    pub fn intern(&mut self, bytes: &[u8]) -> Result<u32, Refusal>
        ensures value { result ≡ answer self.old bytes.now }
        ensures after { self.new ≡ after self.old bytes.now }
    {
        if bytes.is_empty() || bytes.len() > NAME_LEN {
            return Err(Refusal::NameLength);
        }
        if let Some(n) = self.find(bytes) {
            return Ok(n);
        }
        let count = self.count();
        if count >= ALL_NAMES || self.size() + bytes.len() > ALL_BYTES {
            return Err(Refusal::NamesFull);
        }
        self.enter(bytes);
        Ok(count as u32)
    }

    // Forgets all names but the first `count`.
    pub fn truncate(&mut self, count: usize)
        ensures { self.new ≡ take count self.old }
    {
        if let Some(first) = self.spans.get(count) {
            let size = first.start;
            self.bytes.truncate(size);
            self.spans.truncate(count);
        }
    }

    // An empty table with room for all that it may hold.
    fn empty(heap: Global) -> Result<Names, Refusal>
        ensures { MatchResult result (λ t. t ≡ []) (λ e. e ≡ Refusal.Memory) }
    {
        let bytes = Vec::with_capacity(heap, ALL_BYTES)?;
        let spans = Vec::with_capacity(heap, ALL_NAMES)?;
        Ok(Names { bytes, spans })
    }

    // A fresh table holds the fixed words.
    pub fn new(heap: Global) -> Result<Names, Refusal>
        ensures { MatchResult result (λ t. t ≡ fixed) (λ e. e ≡ Refusal.Memory) }
    {
        let mut t = Names::empty(heap)?;
        t.enter_fixed();
        Ok(t)
    }

    fn enter_fixed(&mut self)
        requires { self.old ≡ [] }
        ensures { self.new ≡ fixed }
    {
        self.enter_all(&FIXED);
    }

    // Names one after another, without those that are refused.
    fn enter_all(&mut self, words: &[&[u8]])
        ensures { self.new ≡ fold after self.old (map (λ w. w.now) words.now) }
    {
        for word in words {
            let _ = self.intern(word);
        }
    }
}
