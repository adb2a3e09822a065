//! The reference model: a plain tree of named nodes and the callers' descriptor tables, stepped by one
//! call at a time, without blocks, caches, logs or faults. It is the yardstick of all claims on the
//! restartable file system.
//!
//! `Machine::step` makes exactly the step of `specs/Step.antt`: the plan of the call's row
//! (`specs/Rows.antt`), the effect of its one operation (`specs/Effect.antt`), and its session change
//! (`specs/Sessions.antt`). Want of memory is the only error and leaves the machine as it was.
//! `specs/Lookup.antt` says where a path leads, `specs/Cost.antt` how many blocks a tree holds,
//! `specs/Trees.antt` and `specs/Machines.antt` which trees are sound and which machines are valid,
//! `specs/History.antt` which lists of entries are histories, `specs/CarriedOut.antt` what their operations
//! come to. What holds of them is proved as laws: of steps and histories in `specs/Laws.antt` and
//! `specs/HistoryLaws.antt`, of the operations on names in `specs/NameLaws.antt`, of the counts of open files
//! and of what keeps a machine valid in `specs/SessionLaws.antt` and `specs/ValidLaws.antt`; of the free
//! number that is picked for a call in `specs/PickLaws.antt`; of what a call looks at in
//! `specs/LocalLaws.antt`; of the release at opening in `specs/Sweep.antt`; of the parts of a file in
//! `specs/PutParts.antt`; that an image is a volume of at most one tree in `specs/OneTree.antt`, and by its
//! blocks alone in `specs/VolumeLaws.antt`.
//!
//! A row that looks something up goes on with a continuation of its own (`open_found`, `creat_under` and so
//! on): a function of what stat tells, which a file system that looks things up on blocks can use as well.
#![tactic(auto)]

mod calls;
mod changes;
mod contents;
mod costs;
mod decisions;
mod effects;
mod file_rows;
mod history_laws;
mod inodes;
mod laws;
mod local_laws;
mod lookups;
mod machines;
mod maps;
mod name_laws;
mod nodes;
mod operations;
mod part_laws;
mod path_rows;
mod pick_laws;
mod plans;
mod seats;
mod session_laws;
mod stops;
mod tables;
mod trees;
mod valid_laws;
mod volume_laws;

pub use calls::call_allowed;
pub use changes::DOT;
pub use changes::DOT_DOT;
pub use decisions::access_found;
pub use decisions::bits_of;
pub use decisions::chdir_found;
pub use decisions::chmod_found;
pub use decisions::chown_found;
pub use decisions::creat_found;
pub use decisions::creat_under;
pub use decisions::descriptor;
pub use decisions::is_current;
pub use decisions::is_dots;
pub use decisions::is_owner;
pub use decisions::link_under;
pub use decisions::lseek_from;
pub use decisions::masked;
pub use decisions::mkdir_under;
pub use decisions::need;
pub use decisions::offset_from;
pub use decisions::open_file;
pub use decisions::open_found;
pub use decisions::read_found;
pub use decisions::stat_found;
pub use decisions::stored;
pub use decisions::unlink_found;
pub use decisions::utime_found;
pub use file_rows::close_row;
pub use file_rows::dup_row;
pub use file_rows::exit_row;
pub use file_rows::write_row;
pub use history_laws::callers_stay;
pub use history_laws::carried_out_appends;
pub use history_laws::carried_out_goes_on;
pub use history_laws::carried_out_once;
pub use history_laws::carried_out_splits;
pub use history_laws::few_opens;
pub use history_laws::history_carries_out;
pub use history_laws::history_finds_few_opens;
pub use history_laws::nothing_to_sweep;
pub use history_laws::operations_append;
pub use history_laws::sweep_is_release;
pub use history_laws::worked_operations;
pub use inodes::is_directory;
pub use inodes::is_regular;
pub use inodes::is_special;
pub use inodes::is_used;
pub use inodes::may;
pub use laws::after_appends;
pub use laws::bytes_or_attributes_kept;
pub use laws::cost_kept;
pub use laws::drop_kept;
pub use laws::legal_appends;
pub use laws::legal_grows;
pub use laws::legal_splits;
pub use laws::refused_stays;
pub use laws::release_kept;
pub use laws::served_by_effect;
pub use laws::session_kept;
pub use laws::slots_and_links_kept;
pub use local_laws::acted_alike;
pub use local_laws::free_of_counts;
pub use local_laws::place_known;
pub use local_laws::planned_alike;
pub use lookups::Placed;
pub use lookups::components;
pub use lookups::number_of;
pub use lookups::start_of;
pub use machines::Machine;
pub use maps::Copied;
pub use maps::Map;
pub use mb_kinds::NoMemory;
pub use name_laws::create_kept;
pub use name_laws::delink_kept;
pub use name_laws::enlink_kept;
pub use name_laws::make_dir_kept;
pub use name_laws::operation_kept;
pub use name_laws::remove_dir_kept;
pub use nodes::Body;
pub use nodes::Node;
pub use nodes::Nodes;
pub use nodes::Parts;
pub use nodes::PlainSlot;
pub use nodes::PlainSlots;
pub use operations::FsOp;
pub use operations::Inos;
pub use part_laws::parts_after_put;
pub use part_laws::parts_stand_after_put;
pub use part_laws::parts_stay_whole;
pub use part_laws::put_splits;
pub use part_laws::put_within_part;
pub use part_laws::worked_parts;
pub use pick_laws::adds_none;
pub use pick_laws::adds_one;
pub use pick_laws::effect_unpicked;
pub use pick_laws::lawful_made;
pub use pick_laws::lawful_refused;
pub use pick_laws::lawful_unmade;
pub use pick_laws::lawful_unplanned;
pub use pick_laws::makes_by_number;
pub use pick_laws::plan_repicked;
pub use pick_laws::refusal_repicked;
pub use pick_laws::refused_alike;
pub use pick_laws::refused_unpicked;
pub use pick_laws::refused_with_all;
pub use pick_laws::unpicked_fits;
pub use plans::CallPlan;
pub use plans::acting;
pub use plans::answered;
pub use plans::both;
pub use plans::changing;
pub use seats::PlainFile;
pub use seats::Seat;
pub use seats::Seats;
pub use seats::SessionChange;
pub use seats::change_session;
pub use seats::reads;
pub use seats::writes;
pub use session_laws::bytes_or_attributes_valid;
pub use session_laws::counts_follow;
pub use session_laws::operations_fit;
pub use session_laws::release_valid;
pub use session_laws::valid_kept;
pub use session_laws::valid_stays;
pub use stops::Stop;
pub use tables::Fds;
pub use tables::Files;
pub use trees::Tree;
pub use valid_laws::history_valid;
pub use valid_laws::one_tree;
pub use valid_laws::opening_valid;
pub use volume_laws::kept_composes;
pub use volume_laws::kept_resized;
pub use volume_laws::kept_same;
pub use volume_laws::volume_by_its_blocks;
pub use volume_laws::volume_resized;
