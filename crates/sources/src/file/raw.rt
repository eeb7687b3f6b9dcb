// The fields of one token of a token file, as they stand there.
ghost use Rattle.std.specs.Prelude.{◌≡◌, ◌+◌, ◌≤◌, take, drop};
ghost use Rattle.sources.specs.Bytes.{raw_of};

#[derive(Clone, Copy)]
pub struct Raw {
    // kind and marks are numbers that are read in one place
    pub kind: u8,
    pub marks: u8,
    pub width: u16,
    pub value: u64,
    pub start: u32,
    pub end: u32,
    pub line: u32,
}

// Each number has its lowest byte first.
impl From<[u8; 24]> for Raw {
    ghost from_gives = { λ bytes raw. raw ≡ raw_of bytes };

    fn from(bytes: [u8; 24]) -> Raw {
        Raw {
            kind: bytes[0],
            marks: bytes[1],
            width: u16::from_le_bytes(bytes_at(&bytes, 2)),
            value: u64::from_le_bytes(bytes_at(&bytes, 4)),
            start: u32::from_le_bytes(bytes_at(&bytes, 12)),
            end: u32::from_le_bytes(bytes_at(&bytes, 16)),
            line: u32::from_le_bytes(bytes_at(&bytes, 20)),
        }
    }
}

// The N bytes from place `at` on.
fn bytes_at<const N: usize>(bytes: &[u8; 24], at: usize) -> [u8; N]
    requires { at + N ≤ 24 }
    ensures { result ≡ take N (drop at bytes.now) }
{
    *bytes[at..].first_chunk().unwrap()
}
