//! The numbers of a volume as V7 filsys(5) lays them out.

/// A byte of a block; 0 past its end.
fn byte(block: &[u8; 512], at: usize) -> u8 {
    match block.get(at) {
        Some(byte) => *byte,
        None => 0,
    }
}

/// Two bytes, the low one first.
pub(crate) fn word(block: &[u8; 512], at: usize) -> u16 {
    u16::from_le_bytes([byte(block, at), byte(block, at.saturating_add(1))])
}

/// Two words, the high one first.
pub(crate) fn long(block: &[u8; 512], at: usize) -> u32 {
    let low = at.saturating_add(2);
    (u32::from(word(block, at)) << 16) | u32::from(word(block, low))
}

/// An address of three bytes: the highest one, then the two others as a word.
pub(crate) fn address(block: &[u8; 512], at: usize) -> u32 {
    let low = at.saturating_add(1);
    (u32::from(byte(block, at)) << 16) | u32::from(word(block, low))
}

/// So many bytes of a block from one on, zeros where it has none.
pub(crate) fn bytes<const N: usize>(block: &[u8; 512], at: usize) -> [u8; N] {
    let mut bytes = [0; N];
    for place in 0..N {
        bytes[place] = byte(block, at.saturating_add(place));
    }
    bytes
}
