ghost use Rattle.mb_blocks.specs.Laws.{Taken, Written, Rewritten, Hung, Freed, LetGo, Joined, LaidForFewer, Dropped, WayMade, WayMadeForFewer, WalkEnumerates, CostEnumerated, CostMissing, LaidKeepsRules, OutAtEnd, NextInChain, EntryBytes, TopBytes, InodeBytes, InodeFields};
ghost use Rattle.mb_blocks.specs.Worked.{PutBack, FreshChain, SmallFile};

/// A block that is taken was the free chain's first, and is in hand then.
pub fn taken()
    ensures { Taken }
{}

/// A block in hand may be written, and so may an inode whose addresses stay.
pub fn written()
    ensures in_hand { Written }
    ensures inode { Rewritten }
{}

/// A block of zeros in hand, hung at a hole, is held there.
pub fn hung()
    ensures { Hung }
{}

/// Blocks in hand that are put back are free, the last one first.
pub fn freed()
    ensures { Freed }
{}

/// The blocks of an inode that is let go are in hand.
pub fn let_go()
    ensures { LetGo }
{}

/// An inode is let go and written, and its blocks are put back.
pub fn dropped()
    ensures { Dropped }
{}

/// Inodes without an address may join those that have some.
pub fn joined()
    ensures { Joined }
{}

/// What is laid for some inodes is laid for fewer.
pub fn laid_for_fewer()
    ensures { LaidForFewer }
{}

/// Once the way to a place is made the place holds a block, and the chain is shorter by the blocks that were missing.
pub fn way_made()
    ensures whole { WayMade }
    ensures fewer { WayMadeForFewer }
{}

/// The walk over an inode's addresses by their levels lists its blocks, each once.
pub fn walk_enumerates()
    ensures { WalkEnumerates }
{}

/// A list of all blocks of an inode is as long as its parts cost, and one part more costs what is missing on its way.
pub fn costs()
    ensures enumerated { CostEnumerated }
    ensures missing { CostMissing }
{}

/// Laid blocks keep the rules on the sizes and the free chain.
pub fn keeps_rules()
    ensures { LaidKeepsRules }
{}

/// No block can be taken where the free chain is at its end, and there alone.
pub fn out_at_end()
    ensures { OutAtEnd }
{}

/// The block that is taken next is in the free chain.
pub fn next_in_chain()
    ensures { NextInChain }
{}

/// The bytes of an address, written in an index block or in an inode, set it.
pub fn address_bytes()
    ensures entry { EntryBytes }
    ensures top { TopBytes }
{}

/// The bytes of an inode, written in its block, are its value, and the other inodes stay.
pub fn inode_bytes()
    ensures value { InodeBytes }
    ensures fields { InodeFields }
{}

/// The lists of 0, 1, 49 and 50 addresses with one more, the chain of a small fresh volume, and the blocks of a small file.
pub fn worked_numbers()
    ensures put_back { PutBack }
    ensures fresh { FreshChain }
    ensures small_file { SmallFile }
{}
