//! Two layers of pages over the blocks of a disk: the sealed pages, which wait to be written back, and the current ones
//! over them.
//!
//! A contract sees a [`Layers`] as two lists of pages, the room, and the count of link writes (`LayerState` of
//! `specs/Pages.antt`). The pages stand in two rings of `mb_frames`, and a map names by each block the tokens of its pages.
//! Taking a checkpoint ([`Layers::seal`]) unlinks one page for each block that has two, in at most eight link writes each, and
//! joins the rings in eight more; dropping the current pages empties a ring in at most eight, however many there are. For that a page's token is
//! kept with the number of its generation: a seal and a drop begin the next one, and the numbers of the dropped ones are
//! kept until no page is left.
#![tactic(auto)]

mod layers;
mod tokens;

pub use layers::Layers;
pub use mb_kinds::NoMemory;
