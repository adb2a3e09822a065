ghost use Rattle.mb_namei.specs.InodeLaws.{InodesAreNodes};

/// On a volume each inode is the node of the reference tree.
pub fn inodes_are_nodes()
    ensures { InodesAreNodes }
{}
