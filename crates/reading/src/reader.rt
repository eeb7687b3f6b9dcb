// A source, and where its last token was read.
use tokens::location::Location;

#[derive(Drop)]
pub struct Reader<S> {
    pub source: S,
    pub last: Location,
}
