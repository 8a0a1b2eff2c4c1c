// Books and lists of tickets with a fault: one byte of them replaced, or their first bytes alone.
ghost use Rattle.std.specs.Prelude.{◌≡◌, cond, ltb, leb, set, take, length};

// Bytes with another at one place.
pub fn with<const N: usize>(bytes: [u8; N], at: usize, byte: u8) -> [u8; N]
    ensures { result ≡ cond (ltb at N) (set bytes.entry at byte) bytes.entry }
{
    let mut changed = bytes;
    if at < N {
        changed[at] = byte;
    }
    changed
}

// The first so many of them.
pub fn first(bytes: &[u8], count: usize) -> &[u8]
    ensures { result.now ≡ cond (leb count (length bytes.now)) (take count bytes.now) bytes.now }
{
    bytes.get(..count).unwrap_or(bytes)
}
