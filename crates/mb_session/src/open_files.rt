use mb_kinds::How;

/// What a descriptor is on: the open file at a place below 17 of its caller, its inode, the directions in which it is
/// open, and the offset of the next byte. Two descriptors of a caller are on one open file exactly where they have one
/// place.
#[derive(Clone, Copy, Debug, PartialEq, Eq, Drop)]
pub struct OpenFile {
    pub place: u8,
    pub ino: u16,
    pub how: How,
    pub offset: u32,
}
