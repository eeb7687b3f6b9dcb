// A container of cases: of each the length of its name, 2 bytes, the length of its token file, 4 bytes, the name and the file.
ghost use Rattle.std.specs.Prelude.{◌≡◌, ◌+◌, ◌<◌, ◌++◌, length, drop, MatchOption};
ghost use Rattle.sources.specs.Bytes.{two, four};

#[derive(Clone, Copy)]
pub(crate) struct Case<'a> {
    pub(crate) name: &'a [u8],
    pub(crate) file: &'a [u8],
    // the cases after this one
    pub(crate) rest: &'a [u8],
}

// The two lengths, and the bytes after them; none where there are fewer than six bytes.
fn lengths(bytes: &[u8]) -> Option<(u16, u32, &[u8])>
    ensures { MatchOption result (length bytes.now < 6) (λ p. (p.0 ≡ two bytes.now 0) × (p.1 ≡ four bytes.now 2) × (p.2.now ≡ drop 6 bytes.now) × (length p.2.now + 6 ≡ length bytes.now)) }
{
    let [a, b, c, d, e, f, rest @ ..] = bytes else {
        return None;
    };
    let name = u16::from_le_bytes([*a, *b]);
    let file = u32::from_le_bytes([*c, *d, *e, *f]);
    Some((name, file, rest))
}

// The first case; none where the container is cut off in it.
pub(crate) fn first_case(bytes: &[u8]) -> Option<Case<'_>>
    ensures { MatchOption result (length bytes.now < 6 + two bytes.now 0 + four bytes.now 2) (λ c. (length c.name.now ≡ two bytes.now 0) × (length c.file.now ≡ four bytes.now 2) × (drop 6 bytes.now ≡ c.name.now ++ (c.file.now ++ c.rest.now)) × (length c.rest.now < length bytes.now)) }
{
    let (name_len, file_len, bodies) = lengths(bytes)?;
    let (name, files) = bodies.split_at_checked(name_len as usize)?;
    let (file, rest) = files.split_at_checked(file_len as usize)?;
    Some(Case { name, file, rest })
}
