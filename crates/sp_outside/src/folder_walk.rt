//! The walk over a folder and all folders below it.
use crate::DiskFault;
use crate::file_name::is_name;
use crate::names::Names;
use sp_base::{Mem, NameList, TextBuf};
use std::alloc::Global;
use std::fs::{self, DirEntry, Files, ReadDir};
use std::io::{self, ErrorKind};

// What a walk has found, and where it is still to go.
#[derive(Drop)]
struct FolderWalk<'a> {
    alloc: Global,
    // How many bytes of a path stand before the name.
    before: usize,
    names: NameList,
    folders: &'a mut Names<()>,
    ahead: Vec<String>,
}

/// The names of all files below a folder; the folders below it are noted. A link is no file and no folder here, and a name that isn't
/// UTF-8 is passed over. So is a folder below it that may not be read, as the `lost+found` of a file system.
///
/// `readdir` gives each entry of a folder that is neither made nor removed meanwhile, and nothing is changed until the walk has ended.
pub(crate) fn walk<R: Files + AllocGlobal + Clone + Drop>(
    rt: &R,
    alloc: Global,
    folder: &str,
    folders: &mut Names<()>,
) -> Result<NameList, DiskFault> {
    let slash = usize::from(!folder.ends_with('/'));
    let mut walk = FolderWalk {
        alloc,
        before: folder.len().saturating_add(slash),
        names: NameList::new(alloc),
        folders,
        ahead: Vec::new(alloc),
    };
    walk.go_into(folder)?;
    for _ in 0..u64::MAX {
        let Some(next) = walk.ahead.pop() else {
            return Ok(walk.names);
        };
        match fs::read_dir(rt, next.as_str()) {
            Ok(entries) => walk.take_entries(entries)?,
            Err(fault) if may_not(&fault) && next.len() > folder.len() => {}
            Err(fault) => return Err(DiskFault::from(fault)),
        }
    }
    Err(DiskFault::Failed)
}

fn may_not(fault: &io::Error) -> bool {
    fault.kind() == ErrorKind::PermissionDenied
}

impl FolderWalk<'_> {
    fn go_into(&mut self, path: &str) -> Mem<()> {
        self.ahead.push(String::from_str(self.alloc, path)?)?;
        Ok(())
    }

    fn take_entries<R: Files + AllocGlobal + Clone + Drop>(
        &mut self,
        entries: ReadDir<R>,
    ) -> Result<(), DiskFault> {
        for entry in entries {
            match entry {
                Ok(entry) => self.take_entry(&entry)?,
                Err(fault) if fault.kind() == ErrorKind::InvalidFilename => {}
                Err(fault) => return Err(DiskFault::from(fault)),
            }
        }
        Ok(())
    }

    fn take_entry<R: Files>(&mut self, entry: &DirEntry<R>) -> Result<(), DiskFault> {
        let path = entry.path().as_str();
        let name = path.get(self.before..).unwrap_or("");
        match entry.file_type() {
            Ok(found) if found.is_dir() => {
                self.go_into(path)?;
                if is_name(name) {
                    self.folders.insert(name, ())?;
                }
            }
            Ok(found) if found.is_file() => self.names.push(TextBuf::of(self.alloc, name)?)?,
            // The folder may be read, and nothing in it.
            Err(fault) if !may_not(&fault) => return Err(DiskFault::from(fault)),
            _ => {}
        }
        Ok(())
    }
}
