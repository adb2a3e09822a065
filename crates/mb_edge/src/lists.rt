use mb_kinds::Seq;

/// A list of bytes. A contract sees the list.
pub type Bytes = Seq<u8>;

/// The numbers of the calls that are to fail, from 1. A contract sees the list.
pub type Fails = Seq<u64>;
