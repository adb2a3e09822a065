use mb_kinds::Seq;

/// One change that a fault makes before it strikes: the damage of a fault is in memory alone, in the dirty
/// pages of the current epoch and in the counts of open files.
#[derive(Debug, Drop)]
pub enum Stroke {
    /// Sets every byte of every current page to this one.
    Wipe(u8),
    /// Sets the bytes of the current page with that place in the list of current pages, from 0. Where there is
    /// none it changes nothing.
    Page { nth: u32, bytes: [u8; 512] },
    /// Sets the open count of that inode where it is open, and changes nothing otherwise. A count of 0 takes
    /// the inode out.
    Count { ino: u16, count: u32 },
}

/// Strokes, done in order. A contract sees the list.
pub type Damage = Seq<Stroke>;
