// The directive processor: a source, the definitions, the blocks, and the parser of conditions.
ghost use Rattle.defines.specs.Held.{Settled};

use conditions::if_parser::IfParser;
use defines::table::Defines;
use reading::blocks::Blocks;
use reading::reader::Reader;

#[derive(Drop)]
pub struct DirectiveProcessor<S> {
    pub reader: Reader<S>,
    pub defines: Defines,
    pub blocks: Blocks,
    pub parser: IfParser,
    // what `#line` adds to a line
    pub line_offset: i64,
    pub had_directive: bool,
    pub had_non_directive_token: bool,
    ghost settled: { Settled defines },
}
