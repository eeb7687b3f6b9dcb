// Entering a file's names into the table of names.
ghost use Rattle.std.specs.Prelude.{◌≡◌, ◌≤◌, true, length, sum, is_ok, if◌then◌else◌};
ghost use Rattle.sources.specs.Contents.{lens_of, cut};
ghost use Rattle.sources.specs.Entering.{numbers_of, table_after, Grown, Numbered};

use names::table::Names;
use std::alloc::Global;
use tokens::fault::Refusal;

// The numbers of the names that stand one after another in `text`.
fn number_names(
    heap: Global,
    table: &mut Names,
    lengths: &[u8],
    text: &[u8],
) -> Result<Vec<u32>, Refusal>
    requires { sum (lens_of lengths.now) ≤ length text.now }
    ensures value { Numbered result (numbers_of table.old (cut (lens_of lengths.now) text.now)) }
    ensures entered { is_ok result ≡ true → table.new ≡ table_after table.old (cut (lens_of lengths.now) text.now) }
    ensures grows { Grown table.old table.new }
{
    let (pairs, _) = lengths.as_chunks::<2>();
    let mut numbers = Vec::new(heap);
    let mut rest = text;
    for pair in pairs {
        let (name, left) = rest.split_at(u16::from_le_bytes(*pair) as usize);
        let number = table.intern(name)?;
        numbers.push(number)?;
        rest = left;
    }
    Ok(numbers)
}

// The same, and a refusal leaves the table as it was.
pub(crate) fn enter_names(
    heap: Global,
    table: &mut Names,
    lengths: &[u8],
    text: &[u8],
) -> Result<Vec<u32>, Refusal>
    requires { sum (lens_of lengths.now) ≤ length text.now }
    ensures value { Numbered result (numbers_of table.old (cut (lens_of lengths.now) text.now)) }
    ensures entered { table.new ≡ (if is_ok result then table_after table.old (cut (lens_of lengths.now) text.now) else table.old) }
{
    let count = table.count();
    let numbers = number_names(heap, table, lengths, text);
    if numbers.is_err() {
        table.truncate(count);
    }
    numbers
}
