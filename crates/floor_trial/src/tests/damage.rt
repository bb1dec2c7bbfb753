// Changes of a file.
use floors::sum_of_words;
use std::process::Abort;
use std::test::Fail;

// Sets a byte.
pub(super) fn put(bytes: &mut [u8], at: usize, value: u8) -> Result<(), Fail> {
    *bytes.get_mut(at).ok_or("no such byte")? = value;
    Ok(())
}

// Changes one bit of a byte.
pub(super) fn flip(bytes: &mut [u8], at: usize) -> Result<(), Fail> {
    *bytes.get_mut(at).ok_or("no such byte")? ^= 0x40;
    Ok(())
}

// Makes the words of a block sum to a multiple of 65,536 again, by its checksum.
pub(super) fn seal(rt: &impl Abort, bytes: &mut [u8], block: usize) {
    assert!(rt; block < 80);
    let start = 512 * block;
    assert!(rt; start + 512 <= bytes.len());
    let (body, checksum) = bytes[start..start + 512].split_at_mut(510);
    checksum.copy_from_slice(&sum_of_words(body).wrapping_neg().to_le_bytes());
}

// Sets a byte and seals its block.
pub(super) fn change(rt: &impl Abort, bytes: &mut [u8], at: usize, value: u8) -> Result<(), Fail> {
    put(bytes, at, value)?;
    seal(rt, bytes, at / 512);
    Ok(())
}

// Sets a signed number, whose first byte is this, and seals its block.
pub(super) fn change_number(
    rt: &impl Abort,
    bytes: &mut [u8],
    at: usize,
    value: i64,
) -> Result<(), Fail> {
    for (k, byte) in value.to_le_bytes().iter().enumerate() {
        put(bytes, at.saturating_add(k), *byte)?;
    }
    seal(rt, bytes, at / 512);
    Ok(())
}
