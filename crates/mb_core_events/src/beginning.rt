ghost use Rattle.std.specs.Prelude.{◌≡◌, [], IfErr, IfOk, OnOk};
ghost use Rattle.std.specs.FinMap as fin;
ghost use Rattle.mb_cache.specs.State.{ReadHasCause};
ghost use Rattle.mb_core_events.specs.Beginning.{IsBegunOver, IsRefused, IsSweptIf, IsUnswept, TellsVolume, refused_by};
ghost use Rattle.mb_core_spec.specs.Bounds.{IsConfig};
ghost use Rattle.mb_core_spec.specs.Conditions.{MayBegin};
ghost use Rattle.mb_core_spec.specs.Right.{Right};

use crate::events::Core;
use mb_cache::ReadFault;
use mb_check::{OpenFault, Scan, sound};
use mb_core_spec::Config;
use mb_core_state::Fields;
use mb_edge::Disk;
use mb_iface::FileSys;
use mb_tree::Inos;
use std::alloc::Global;

/// A core that could not begin gives its disk back.
pub struct Refusal<D: Disk> {
    pub fault: OpenFault,
    pub disk: D,
}

impl<F: FileSys, D: Disk> Core<F, D> {
    /// A core begins over a disk: the image is scanned, and its nameless files are reclaimed. A refusal gives the disk back,
    /// which tells what it told: `Unsound` with the first broken rule in the order of the scan and its block, `Device` only
    /// where the disk's count of faults rose, `NoMemory` for want of memory. Nothing is written, and
    /// where no file is nameless no page waits to be written.
    pub fn begin(alloc: Global, fs: F, disk: D, config: Config) -> Result<Core<F, D>, Refusal<D>>
        requires { IsConfig config }
        ensures begun { IfOk result (IsBegunOver D.told D.faults fs disk config) }
        ensures volume { IfOk result (λ core. TellsVolume (D.told disk)) }
        ensures unswept { IfOk result (λ core. IsUnswept (D.told disk) core.cache.sealed) }
        ensures right { IfOk result (Right D.told D.faults) }
        ensures refused { IfErr result (λ refusal. IsRefused D.told D.faults disk refusal.fault refusal.disk) }
    {
        let fields = begun_fields(alloc, fs, disk, config)?;
        Ok(Core { fields })
    }
}

/// The fields of a core that begins over a sound image.
fn begun_fields<F: FileSys, D: Disk>(
    alloc: Global,
    fs: F,
    mut disk: D,
    config: Config,
) -> Result<Fields<F, D>, Refusal<D>>
    requires { IsConfig config }
    ensures begun { IfOk result (IsBegunOver D.told D.faults fs disk config) }
    ensures may { IfOk result (λ core. MayBegin D.told D.faults core.first config core.cache fin.empty) }
    ensures volume { IfOk result (λ core. TellsVolume (D.told disk)) }
    ensures unswept { IfOk result (λ core. IsUnswept (D.told disk) core.cache.sealed) }
    ensures refused { IfErr result (λ refusal. IsRefused D.told D.faults disk refusal.fault refusal.disk) }
{
    let Scan {
        nodes: _,
        held: _,
        free: _,
        nameless,
    } = match sound(alloc, &mut disk) {
        Ok(told) => told,
        Err(fault) => return Err(Refusal { fault, disk }),
    };
    let mut fields = match Fields::new(alloc, fs, disk, config) {
        Ok(fields) => fields,
        Err(disk) => {
            return Err(Refusal {
                fault: OpenFault::NoMemory,
                disk,
            });
        }
    };
    match sweep_some(&mut fields, alloc, nameless) {
        Ok(()) => Ok(fields),
        Err(fault) => Err(Refusal {
            fault: refused_by(fault),
            disk: fields.into_disk(),
        }),
    }
}

/// The nameless files are reclaimed where there are some. A list longer than the numbers of a volume comes of no image, and
/// is answered as want of memory.
fn sweep_some<F: FileSys, D: Disk>(
    fields: &mut Fields<F, D>,
    alloc: Global,
    nameless: Inos,
) -> Result<(), ReadFault>
    ensures ok { OnOk result (IsSweptIf D.told fields.old fields.new nameless) }
    ensures unread { fields.old.cache.room.clean ≡ [] → OnOk result (fields.new.cache.room.clean ≡ []) }
    ensures told { D.told fields.new.cache.disk ≡ D.told fields.old.cache.disk }
    ensures cause { ReadHasCause (D.faults fields.old.cache.disk) (D.faults fields.new.cache.disk) result }
{
    if nameless.as_slice().is_empty() {
        return Ok(());
    }
    if nameless.as_slice().len() > 65535 {
        return Err(ReadFault::NoMemory);
    }
    fields.sweep(alloc, nameless)
}

fn refused_by(fault: ReadFault) -> OpenFault
    ensures { result ≡ refused_by fault }
{
    match fault {
        ReadFault::Device => OpenFault::Device,
        ReadFault::NoMemory => OpenFault::NoMemory,
    }
}
