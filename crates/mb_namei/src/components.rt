ghost use Rattle.std.specs.Prelude.{◌≡◌};
ghost use Rattle.mb_tree.specs.Lookup.{padded, components};
ghost use Rattle.mb_namei.specs.Components.{IsFirstOf};
ghost use Rattle.mb_namei.specs.Pieces.{StartsPiece, IsPieceLen};

use mb_kinds::Name;

/// What stands between the components of a path.
const SLASH: u8 = b'/';

/// A component of a path, and what is behind it.
#[derive(Clone, Copy, Debug, Drop)]
pub struct Component<'a> {
    /// The component as a slot's name: its first 14 bytes, padded with 0.
    pub name: Name,
    /// What is behind it in the path.
    pub rest: &'a [u8],
}

/// The first component of a path (V7 namei): what stands between slashes, where empty pieces are
/// ignored. `None` where the path has none.
pub fn first_component(path: &[u8]) -> Option<Component<'_>>
    ensures { IsFirstOf path.now result }
{
    let piece = without_slashes(path);
    if piece.is_empty() {
        return None;
    }
    let end = piece_len(piece);
    Some(Component {
        name: name_of(&piece[..end]),
        rest: &piece[end..],
    })
}

/// What is behind the slashes with which a path begins.
fn without_slashes(path: &[u8]) -> &[u8]
    ensures { StartsPiece path.now result.now }
{
    for (i, byte) in path.iter().enumerate() {
        if *byte != SLASH {
            return &path[i..];
        }
    }
    &path[path.len()..]
}

/// How many bytes stand before the first slash of a path. Four of them are looked at in one round.
fn piece_len(path: &[u8]) -> usize
    ensures { IsPieceLen path.now result }
{
    let mut at = 0;
    while path.len() - at >= 4 {
        if path[at] == SLASH {
            return at;
        }
        if path[at + 1] == SLASH {
            return at + 1;
        }
        if path[at + 2] == SLASH {
            return at + 2;
        }
        if path[at + 3] == SLASH {
            return at + 3;
        }
        at += 4;
    }
    while at < path.len() {
        if path[at] == SLASH {
            return at;
        }
        at += 1;
    }
    at
}

/// A piece of a path as a slot's name. Of a long one the first 14 bytes are copied at once.
fn name_of(piece: &[u8]) -> Name
    ensures { result ≡ padded piece.now }
{
    if let Some(name) = piece.first_chunk::<14>() {
        return *name;
    }
    let mut name = [0; 14];
    name[..piece.len()].copy_from_slice(piece);
    name
}
