ghost use Rattle.mb_kinds.specs.Texts.{AreOctets, IsPath};
ghost use Rattle.mb_tree.specs.SessionLaws.{IsCall};

use mb_kinds::{Call, Octets, Path};

/// A path has at most 255 bytes and no byte 0.
fn path_allowed(path: &Path)
    ensures { IsPath path.now }
{
    path.as_slice();
}

/// A write has at most 65,535 bytes.
fn octets_allowed(bytes: &Octets)
    ensures { AreOctets bytes.now }
{
    bytes.as_slice();
}

/// A call is one that its type allows: each of its paths has at most 255 bytes and no byte 0, and a write
/// has at most 65,535 bytes. It does nothing, and shows this to whoever calls it.
pub fn call_allowed(call: &Call)
    ensures { IsCall call.now }
{
    match call {
        Call::Open { path, .. } => path_allowed(path),
        Call::Creat { path, .. } => path_allowed(path),
        Call::Write { bytes, .. } => octets_allowed(bytes),
        Call::Link { from, to } => {
            path_allowed(from);
            path_allowed(to)
        }
        Call::Unlink { path } => path_allowed(path),
        Call::Mkdir { path, .. } => path_allowed(path),
        Call::Rmdir { path } => path_allowed(path),
        Call::Chdir { path } => path_allowed(path),
        Call::Stat { path } => path_allowed(path),
        Call::Chmod { path, .. } => path_allowed(path),
        Call::Chown { path, .. } => path_allowed(path),
        Call::Utime { path, .. } => path_allowed(path),
        Call::Access { path, .. } => path_allowed(path),
        _ => {}
    }
}
