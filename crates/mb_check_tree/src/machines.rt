ghost use Rattle.std.specs.Prelude.{◌≡◌, ◌+◌, ◌≤◌, map, IfSome, IfOk};
ghost use Rattle.mb_tree.specs.Opening.{first_seat, swept};
ghost use Rattle.mb_rules.specs.TreeOf.{tree_of};
ghost use Rattle.mb_check.specs.SlotTests.{IsBroken};
ghost use Rattle.mb_check_files.specs.Passes.{DeviceCause};
ghost use Rattle.mb_check_tree.specs.Opened.{AreFilesOf, AreOpened, IsOpened, OpenCause};

use crate::nodes::swept_nodes;
use mb_check::{OpenFault, sound};
use mb_check_files::{Stop, VolumeFiles, volume_files};
use mb_edge::Disk;
use mb_kinds::{Cred, Creds, NoMemory};
use mb_tree::{Machine, Seat, Seats, Tree};
use std::alloc::Global;

/// What is kept of the files of a volume, once the scan found nothing.
fn opened_files<D: Disk>(alloc: Global, disk: &mut D) -> Result<VolumeFiles, OpenFault>
    ensures files { IfSome (D.told disk.old) (λ image. AreOpened image result) }
    ensures told { D.told disk.new ≡ D.told disk.old }
    ensures cause { OpenCause (D.faults disk.old) (D.faults disk.new) result }
{
    let _told = sound(alloc, disk)?;
    let files = volume_files(alloc, disk)?;
    Ok(files)
}

/// The tree of a volume without the files that have no name.
fn swept_tree<D: Disk>(alloc: Global, disk: &mut D, files: &VolumeFiles) -> Result<Tree, Stop>
    ensures tree { IfOk result (λ tree.
        IfSome (D.told disk.old) (λ image.
        AreFilesOf image files.now → tree ≡ record (tree_of image) { nodes = swept (tree_of image).nodes })) }
    ensures unbroken { IsBroken result → ⊥ }
    ensures told { D.told disk.new ≡ D.told disk.old }
    ensures cause { DeviceCause (D.faults disk.old) (D.faults disk.new) result }
{
    let nodes = swept_nodes(alloc, disk, &files.table, files.last)?;
    Ok(Tree {
        nodes,
        last: files.last,
        cap: files.held.saturating_add(files.free),
    })
}

/// The sessions of callers that begin: each in the root, with no descriptor and no bit masked.
fn first_seats(alloc: Global, callers: &[Cred]) -> Result<Seats, NoMemory>
    ensures { IfOk result (λ seats. seats ≡ map first_seat callers.now) }
{
    let mut seats = Seats::new(alloc);
    for cred in callers {
        seats.push(Seat::new(*cred, 2))?;
    }
    Ok(seats)
}

/// The reference model as it begins for some callers on the volume of a disk: the volume's tree without its regular and
/// special files of link count 0, inode 1 excepted, with the same capacity, and the callers' sessions, each in the root
/// (this project's choice). Nothing is written. The errors are those of `sound`, each where that says.
pub fn machine<D: Disk>(alloc: Global, disk: &mut D, callers: &Creds) -> Result<Machine, OpenFault>
    ensures opening { IfSome (D.told disk.old) (λ image. IsOpened image callers.now result) }
    ensures told { D.told disk.new ≡ D.told disk.old }
    ensures cause { OpenCause (D.faults disk.old) (D.faults disk.new) result }
{
    let files = opened_files(alloc, disk)?;
    let tree = swept_tree(alloc, disk, &files)?;
    let seats = first_seats(alloc, callers.as_slice())?;
    Ok(Machine { tree, seats })
}
