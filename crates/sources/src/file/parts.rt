// The parts of a token file: two counts, the lengths of the names, the names' bytes, and 24 bytes a token.
ghost use Rattle.std.specs.Prelude.{◌≡◌, ◌*◌, ◌<◌, ◌≤◌, true, false, length, drop, sum, MatchOption};
ghost use Rattle.std.specs.List.{list_all};
ghost use Rattle.sources.specs.Bytes.{four};
ghost use Rattle.sources.specs.Contents.{lens_of, fit, shaped, length_bytes, text_bytes, record_bytes};

#[derive(Clone, Copy)]
pub struct Parts<'a> {
    // how many names there are
    pub names: u32,
    pub lengths: &'a [u8],
    pub text: &'a [u8],
    pub records: &'a [u8],
}

// The table's own limit, at the width of the file: all lengths are tested before a name is entered.
const NAME_LEN: u16 = 1024;

// The counts of names and of tokens, and the bytes after them; none where there are fewer than eight bytes.
fn counts(bytes: &[u8]) -> Option<(u32, u32, &[u8])>
    ensures { MatchOption result (length bytes.now < 8) (λ p. (8 ≤ length bytes.now) × (p.0 ≡ four bytes.now 0) × (p.1 ≡ four bytes.now 4) × (p.2.now ≡ drop 8 bytes.now)) }
{
    let [a, b, c, d, e, f, g, h, rest @ ..] = bytes else {
        return None;
    };
    let names = u32::from_le_bytes([*a, *b, *c, *d]);
    let tokens = u32::from_le_bytes([*e, *f, *g, *h]);
    Some((names, tokens, rest))
}

// The sum of the lengths, 2 bytes each.
fn total_of(lengths: &[u8]) -> u32
    requires { length lengths.now ≤ 65536 }
    ensures { result ≡ sum (lens_of lengths.now) }
{
    let (pairs, _) = lengths.as_chunks::<2>();
    pairs
        .iter()
        .map(|pair| u16::from_le_bytes(*pair) as u32)
        .sum()
}

fn length_fits(len: u16) -> bool
    ensures { result ≡ fit len }
{
    (1..=NAME_LEN).contains(&len)
}

// Whether every name has 1 to 1,024 bytes.
pub(crate) fn lengths_fit(lengths: &[u8]) -> bool
    ensures { result ≡ list_all fit (lens_of lengths.now) }
{
    let (pairs, _) = lengths.as_chunks::<2>();
    pairs
        .iter()
        .map(|pair| u16::from_le_bytes(*pair))
        .all(length_fits)
}

// The parts, none where the file is shorter or longer than its counts and lengths say.
pub(crate) fn parts_of(bytes: &[u8]) -> Option<Parts<'_>>
    requires { length bytes.now ≤ 65536 }
    ensures { MatchOption result (shaped bytes.now ≡ false) (λ p. (shaped bytes.now ≡ true) × (p.names ≡ four bytes.now 0) × (p.lengths.now ≡ length_bytes bytes.now) × (p.text.now ≡ text_bytes bytes.now) × (p.records.now ≡ record_bytes bytes.now)) }
{
    let (names, tokens, rest) = counts(bytes)?;
    let (lengths, bodies) = rest.split_at_checked(2 * names as usize)?;
    let sum = total_of(lengths) as usize;
    if bodies.len() != sum + 24 * tokens as usize {
        return None;
    }
    let (text, records) = bodies.split_at(sum);
    Some(Parts {
        names,
        lengths,
        text,
        records,
    })
}
