//! The outside: the words that the program is started with, what it reads from and what it writes to, and the disk that keeps
//! its files, each in memory and for real.
//!
//! The objects in memory tell what they hold, so that contracts can speak of it; the real ones tell nothing.
#![tactic(auto)]

mod disk;
mod fault_text;
mod file_name;
mod folder_disk;
mod folder_files;
mod folder_walk;
mod laws;
mod mem_disk;
mod mem_files;
mod memory;
mod names;
mod opening;
mod raw_files;
mod real;
mod real_disk;
mod sink;
mod source;
mod words;

pub use disk::{Disk, DiskFault, LONGEST_FILE_NAME};
pub use file_name::has_segments;
pub use folder_disk::FolderDisk;
pub use folder_files::FolderFiles;
pub use laws::{
    fewer_names_follow, files_have_names, names_are_of_files, nothing_is_passed_over, walks_end,
};
pub use mem_disk::{MemDisk, Plan, Way};
pub use memory::{MemSink, MemSource};
pub use raw_files::RawFiles;
pub use real::{RealSink, RealSource};
pub use real_disk::RealDisk;
pub use sink::{Sink, SinkFault};
pub use source::{Source, SourceFault};
pub use words::{CommandWords, MemWords, RealWords, Words};
