ghost use Rattle.std.specs.Prelude.{◌≡◌, ◌∷◌, []};
ghost use Rattle.mb_word.specs.Laws.{WordReadsBack, LongReadsBack, AddrReadsBack, WordWritesBack, LongWritesBack, AddrWritesBack, WriteKeepsOthers, WordReadsOwnBytes, LongReadsOwnBytes, AddrReadsOwnBytes};
ghost use Rattle.mb_word.specs.Numbers.{long_at, addr_at, long_bytes, addr_bytes};

/// A number written reads back.
pub fn reads_back()
    ensures word { WordReadsBack }
    ensures long { LongReadsBack }
    ensures addr { AddrReadsBack }
{}

/// What was read, written where it stood, changes nothing.
pub fn writes_back()
    ensures word { WordWritesBack }
    ensures long { LongWritesBack }
    ensures addr { AddrWritesBack }
{}

/// A write leaves every byte that lies off it.
pub fn write_keeps_others()
    ensures { WriteKeepsOthers }
{}

/// A number is read from its own bytes alone.
pub fn own_bytes()
    ensures word { WordReadsOwnBytes }
    ensures long { LongReadsOwnBytes }
    ensures addr { AddrReadsOwnBytes }
{}

/// The long 0x00012345 is `01 00 45 23`, and the address 0x012345 is `01 45 23`.
pub fn worked_numbers()
    ensures long_written { long_bytes 0x00012345 ≡ 0x01 ∷ 0x00 ∷ 0x45 ∷ 0x23 ∷ [] }
    ensures long_read { long_at (0x01 ∷ 0x00 ∷ 0x45 ∷ 0x23 ∷ []) 0 ≡ 0x00012345 }
    ensures addr_written { addr_bytes 0x012345 ≡ 0x01 ∷ 0x45 ∷ 0x23 ∷ [] }
    ensures addr_read { addr_at (0x01 ∷ 0x45 ∷ 0x23 ∷ []) 0 ≡ 0x012345 }
{}
