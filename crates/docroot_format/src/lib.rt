//! How the cache lies in its docroot: the names of its files, and the texts of those that aren't bodies.
#![tactic(auto)]

mod fault;
mod file_role;
mod head;
mod laws;
mod names;
mod readings;
mod stat;
mod texts;

pub use fault::FileFault;
pub use file_role::{is_page_file, is_stat_file};
pub use head::{PageHead, head_in};
pub use laws::{
    a_page_has_files, deleted_pages_are_known_by_names, folders_are_mangled,
    folders_of_stamps_are_paths, names_are_apart, names_lie_in_the_docroot, names_tell_their_files,
    no_name_ends_as_one_beside, texts_are_read_back, what_reads_is_its_text,
};
pub use names::{EPOCH_NAME, body_name, head_name, stat_name};
pub use readings::{epoch_in, stat_in};
pub use stat::{StatText, stat_text};
pub use texts::{epoch_text, head_text};
