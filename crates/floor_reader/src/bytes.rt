// Little-endian numbers among bytes.
ghost use Rattle.std.specs.Prelude.{◌≡◌, ◌+◌, ◌≤◌, length, take, drop};
ghost use Rattle.floors.specs.Bytes.{i64_at};

// Bytes, and where to begin: a slice from there on would say both, but the format counts from the first byte of a file or a block, and the definitions with it.

// The N bytes that begin at a byte.
pub(crate) fn array_at<const N: usize>(bytes: &[u8], at: usize) -> [u8; N]
    requires { at + N ≤ length bytes.now }
    ensures { result ≡ take N (drop at bytes.now) }
{
    match bytes[at..].first_chunk() {
        Some(found) => *found,
        None => unreachable!(),
    }
}

// The signed number that begins at a byte.
pub(crate) fn i64_at(bytes: &[u8], at: usize) -> i64
    requires { at + 8 ≤ length bytes.now }
    ensures { result ≡ i64_at bytes.now at }
{
    i64::from_le_bytes(array_at(bytes, at))
}
