ghost use Rattle.mb_tree.specs.VolumeLaws.{KeptComposes, KeptSame, VolumeResized, VolumeByItsBlocks, KeptResized};

/// What two changes of a volume in a row keep, both together keep.
pub fn kept_composes()
    ensures { KeptComposes }
{}

/// Where nothing changes all is kept.
pub fn kept_same()
    ensures { KeptSame }
{}

/// A volume is one on every device that has its blocks: the number of blocks from `s_fsize` on is no
/// matter.
pub fn volume_resized()
    ensures { VolumeResized }
{}

/// A volume is one by the bytes of its blocks below `s_fsize` alone, without block 0: what a device reads
/// past its end is no matter.
pub fn volume_by_its_blocks()
    ensures { VolumeByItsBlocks }
{}

/// What is kept says nothing of the number of blocks.
pub fn kept_resized()
    ensures { KeptResized }
{}
