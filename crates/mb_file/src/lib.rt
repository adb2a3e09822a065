//! The contents of a V7 volume's files (filsys(5)): bytes read and put, a file emptied, an inode erased
//! with all that it holds. Every block is read from the changes first and from the view otherwise, and
//! asked for where neither has it.
//!
//! `read`, `put` and `empty` promise what `mb_iface` says of a query and of an operation on a volume of
//! the reference tree (`Finds`, `Acts`). `erase_in` is a step of an operation (`specs/Erasing.antt`):
//! from blocks that store a tree to blocks that store it without the node.
//! `specs/Walking.antt` says which blocks an inode holds, `specs/Freeing.antt` what it means to put them
//! back, `specs/Finding.antt` and `specs/Reading.antt` where a part of a file stands and which bytes it
//! has, and `specs/Putting.antt` what each step of putting bytes leads to.
#![tactic(auto)]

mod clears;
mod erases;
mod frees;
mod hangs;
mod parts;
mod puts;
mod reads;
mod spares;
mod walks;

pub use clears::empty;
pub use erases::erase_in;
pub use mb_alloc::Hung;
pub use puts::put;
pub use reads::read;
pub use spares::lacking_free;
