//! Databases in files. Only one program at a time can have a file open. A server has a socket,
//! called the door, next to the file. The server receives the office's commands through the door.
//! Without a server, a command opens the file itself.
#![tactic(auto)]

mod attempts;
mod door;
mod file_visit;
mod files;
mod folder;
mod handover;
mod kinds;
mod named;
mod open_file;
mod openings;
mod place;
mod retried;

pub use attempts::{Attempts, gain};
pub use door::FileDoor;
pub use file_visit::{FileVisit, connect};
pub use files::{DatabasesUser, Files, run_over_files};
pub use folder::{Folder, FolderEntry, has_door, may_make_door};
pub use handover::{AnswerReader, CommandWriter, LimitedSocket, answered, greeted, limit_answer};
pub use kinds::{is_cut_short, is_nobody, is_unread};
pub use named::{NamedStore, Removable};
pub use open_file::OpenFile;
pub use retried::{Servers, hand_over_by, hand_over_to, hand_over_until_done};
