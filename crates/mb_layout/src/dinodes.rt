ghost use Rattle.std.specs.Prelude.{◌≡◌, ◌≢◌, ◌<◌, ◌*◌, ℕ, slice_index};
ghost use Rattle.mb_word.specs.Numbers.{put_at, addr_bytes};
ghost use Rattle.mb_layout.specs.Inode.{dinode_at, dinode_bytes, address_in};

use mb_word::{addr_at, long_at, put_addr, put_long, put_word, word_at};

/// An inode as it stands in a block of the i-list (V7 filsys(5)).
#[derive(Clone, Copy, Debug, PartialEq)]
pub struct Dinode {
    /// Kind and permissions; 0 where the inode is free.
    pub mode: u16,
    /// The number of slots that lead to it.
    pub nlink: u16,
    /// The owner.
    pub uid: u16,
    /// The owner's group.
    pub gid: u16,
    /// The size in bytes.
    pub size: u32,
    /// Thirteen addresses of three bytes each, and one byte that is kept as found.
    pub area: [u8; 40],
    /// When the inode was made, or what `utime` set since; reading leaves it as it is.
    pub atime: u32,
    /// When the inode was made or its bytes were last written, or what `utime` set since.
    pub mtime: u32,
    /// When the inode was last changed.
    pub ctime: u32,
}

impl Dinode {
    /// Reads the inode at a place, one of eight, of a block of the i-list.
    pub fn read(b: &[u8; 512], place: u8) -> Dinode
        requires { place < 8 }
        ensures { result ≡ dinode_at b.now place }
    {
        let at = 64 * place as usize;
        let mut area = [0; 40];
        area.copy_from_slice(&b[at + 12..at + 52]);
        Dinode {
            mode: word_at(b, at),
            nlink: word_at(b, at + 2),
            uid: word_at(b, at + 4),
            gid: word_at(b, at + 6),
            size: long_at(b, at + 8),
            area,
            atime: long_at(b, at + 52),
            mtime: long_at(b, at + 56),
            ctime: long_at(b, at + 60),
        }
    }

    /// Writes the inode at a place, one of eight, of a block of the i-list; the bytes of the other
    /// inodes stay.
    pub fn write(&self, b: &mut [u8; 512], place: u8)
        requires { place < 8 }
        ensures bytes { b.new ≡ put_at b.old (64 * place) (dinode_bytes self.now) }
        ensures value { dinode_at b.new place ≡ self.now }
        ensures others { (other : ℕ) → other < 8 → other ≢ place → dinode_at b.new other ≡ dinode_at b.old other }
    {
        let Dinode {
            mode,
            nlink,
            uid,
            gid,
            size,
            area,
            atime,
            mtime,
            ctime,
        } = *self;
        let at = 64 * place as usize;
        put_word(b, at, mode);
        put_word(b, at + 2, nlink);
        put_word(b, at + 4, uid);
        put_word(b, at + 6, gid);
        put_long(b, at + 8, size);
        b[at + 12..at + 52].copy_from_slice(&area);
        put_long(b, at + 52, atime);
        put_long(b, at + 56, mtime);
        put_long(b, at + 60, ctime);
    }

    /// The address at a place of the area: 0 to 9 are direct, 10 is single, 11 double and 12 triple
    /// indirect.
    pub fn address(&self, place: u8) -> u32
        requires { place < 13 }
        ensures { result ≡ address_in self.now place }
    {
        addr_at(&self.area, 3 * place as usize)
    }

    /// Sets the address at a place of the area, one of 13, to one below 16,777,216; the other
    /// addresses and the byte behind them stay.
    pub fn set_address(&mut self, place: u8, address: u32)
        requires place { place < 13 }
        requires small { address < 16777216 }
        ensures value { self.new ≡ record self.old { area = put_at self.old.area (3 * place) (addr_bytes address) } }
        ensures address { address_in self.new place ≡ address }
        ensures others { (other : ℕ) → other < 13 → other ≢ place → address_in self.new other ≡ address_in self.old other }
        ensures kept { slice_index self.new.area 39 ≡ slice_index self.old.area 39 }
    {
        put_addr(&mut self.area, 3 * place as usize, address);
    }
}
