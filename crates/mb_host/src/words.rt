use mb_kinds::Seq;

/// The bytes of a word, or of a path. A contract sees the list.
pub type Word8 = Seq<u8>;

/// The words after a program's name. A contract sees the list of their bytes.
pub type Words = Seq<Word8>;
