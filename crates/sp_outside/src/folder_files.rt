//! The files below a folder of the real system.
ghost use Rattle.std.specs.Prelude.{◌≡◌, None};

use crate::disk::counted;
use crate::file_name::{BESIDE, is_name};
use crate::folder_walk::walk;
use crate::names::Names;
use crate::{DiskFault, RawFiles};
use sp_base::{ByteBuf, Mem, NameList, NoMemory};
use std::alloc::Global;
use std::fs::{self, File, Files, Metadata, OpenOptions};
use std::io::{self, ErrorKind, Read, Write};

/// The most bytes of a path that Linux takes.
const LONGEST_PATH: usize = 4_095;

/// The most bytes of a file.
const LONGEST_FILE: u64 = 67_108_864;

/// The file that is locked, and its name in other letters. Neither a file's name nor that of a file beside it ends so.
const LOCK_FILE: &str = ".lock%t%t";

const LOCK_FILE_IN_CAPITALS: &str = ".LOCK%t%t";

/// Where Linux tells the id of a boot.
const BOOT_ID: &str = "/proc/sys/kernel/random/boot_id";

/// The most bytes of an id that are looked at.
const LONGEST_ID: u64 = 64;

impl From<io::Error> for DiskFault {
    fn from(fault: io::Error) -> DiskFault {
        match fault.kind() {
            ErrorKind::OutOfMemory => DiskFault::NoMemory,
            _ => DiskFault::Failed,
        }
    }
}

/// The files below a folder of the real system. They aren't told, so what the clauses of `RawFiles` say of them is trusted: that each function
/// here does what its comment says, which is what POSIX says of the calls that it makes.
///
/// A file is written beside the old one and renamed, so that at every moment the old file or the new one stands whole, also where the
/// process is killed. Nothing is synced. A symbolic link below the folder is no file and no folder, and isn't followed.
#[derive(Drop)]
pub struct FolderFiles<R: Files<File = File> + AllocGlobal + Clone + Drop> {
    folder: Folder<R>,
    failed: u64,
}

// The folder, and what its calls keep.
#[derive(Drop)]
struct Folder<R: Files<File = File> + AllocGlobal + Clone + Drop> {
    rt: R,
    folder: String,
    // The path of the file beside the one that a call is about, in room that was taken at the beginning.
    beside: String,
    // The folders below that are known to stand there, and not as links.
    folders: Names<()>,
    // The system gives up the lock as the process ends, in whichever way.
    lock: Option<File>,
}

// `lstat`: what stands at a path, where a link stands for itself. ENOENT and ENOTDIR say that nothing does.
fn at_path<R: Files>(rt: &R, path: &str) -> io::Result<Option<Metadata>> {
    match fs::symlink_metadata(rt, path) {
        Ok(found) => Ok(Some(found)),
        Err(fault) if is_absent(&fault) => Ok(None),
        Err(fault) => Err(fault),
    }
}

fn is_file<R: Files>(rt: &R, path: &str) -> io::Result<bool> {
    match at_path(rt, path)? {
        Some(found) => Ok(found.is_file()),
        None => Ok(false),
    }
}

fn is_absent(fault: &io::Error) -> bool {
    matches!(fault.kind(), ErrorKind::NotFound | ErrorKind::NotADirectory)
}

// No folder is on the way, or a file stands where the one beside is to be made: nothing was renamed.
fn is_in_the_way(fault: &io::Error) -> bool {
    matches!(fault.kind(), ErrorKind::NotFound | ErrorKind::AlreadyExists)
}

// `mkdir` makes a folder where nothing stands, and fails where anything does, a link too (EEXIST).
fn make_folder<R: Files>(rt: &R, path: &str, found: io::Result<Metadata>) -> io::Result<()> {
    match found {
        Ok(found) if found.is_dir() => Ok(()),
        _ => fs::create_dir(rt, path),
    }
}

// `read` gives the bytes that were written last. A file that ends before its size is a fault.
fn contents<R: Files>(rt: &R, alloc: Global, path: &str, size: u64) -> Result<ByteBuf, DiskFault> {
    let size = match usize::try_from(size) {
        Ok(fits) if size <= LONGEST_FILE => fits,
        _ => return Err(DiskFault::Failed),
    };
    let mut bytes = vec![in alloc; 0u8; size]?;
    let mut file = fs::open(rt, path)?;
    file.read_exact(&mut bytes)?;
    Ok(ByteBuf::from(bytes))
}

// Reading.
impl<R: Files<File = File> + AllocGlobal + Clone + Drop> Folder<R> {
    fn at(rt: R, folder: &str) -> Mem<Folder<R>> {
        let alloc = rt.alloc();
        Ok(Folder {
            folder: String::from_str(alloc, folder)?,
            beside: String::with_capacity(alloc, LONGEST_PATH)?,
            folders: Names::new(alloc),
            lock: None,
            rt,
        })
    }

    // Makes the paths those of a name. One that is too long for the system fails.
    fn point_at(&mut self, name: &str) -> Result<(), DiskFault> {
        let length = self.folder.len().saturating_add(name.len());
        if length.saturating_add(1 + BESIDE.len()) > LONGEST_PATH {
            return Err(DiskFault::Failed);
        }
        self.beside.clear();
        self.beside.push_str(self.folder.as_str())?;
        self.beside.push_str("/")?;
        self.beside.push_str(name)?;
        Ok(self.beside.push_str(BESIDE)?)
    }

    fn path(&self) -> &str {
        self.beside.as_str().strip_suffix(BESIDE).unwrap_or("")
    }

    fn knows_folder(&self, name: &str) -> bool {
        match name.rsplit_once('/') {
            Some((folder, _)) => self.folders.has(folder),
            None => true,
        }
    }

    // A name has a file where its path is that of a regular file, and each folder on the way is known, so that no link leads elsewhere.
    fn find(&mut self, alloc: Global, name: &str) -> Result<Option<ByteBuf>, DiskFault> {
        if !self.knows_folder(name) {
            return Ok(None);
        }
        self.point_at(name)?;
        self.look(alloc)
    }

    fn look(&self, alloc: Global) -> Result<Option<ByteBuf>, DiskFault> {
        match at_path(&self.rt, self.path())? {
            Some(found) if found.is_file() => {
                Ok(Some(contents(&self.rt, alloc, self.path(), found.len())?))
            }
            _ => Ok(None),
        }
    }

    fn names(&mut self, alloc: Global) -> Result<NameList, DiskFault> {
        self.occupy()?;
        walk(&self.rt, alloc, self.folder.as_str(), &mut self.folders)
    }
}

// Writing and removing.
impl<R: Files<File = File> + AllocGlobal + Clone + Drop> Folder<R> {
    // Makes the folder, where it isn't there, and locks it, where it isn't locked or was taken away with its lock (`flock`). This fails
    // where another process holds the lock, and where the folder's file system takes names for the same that differ in the case of letters.
    // The folder itself may be a link to one.
    fn occupy(&mut self) -> Result<(), DiskFault> {
        let found = fs::metadata(&self.rt, self.folder.as_str());
        make_folder(&self.rt, self.folder.as_str(), found)?;
        self.point_at(LOCK_FILE)?;
        let has_file = self.has_file()?;
        if has_file && self.lock.is_some() {
            return Ok(());
        }
        let lock = self.open_lock(has_file)?;
        self.point_at(LOCK_FILE_IN_CAPITALS)?;
        if lock.try_lock().is_err() || self.has_any()? {
            return Err(DiskFault::Failed);
        }
        self.lock = Some(lock);
        Ok(())
    }

    // A file stands at the path.
    fn has_file(&self) -> io::Result<bool> {
        is_file(&self.rt, self.path())
    }

    // A file stands there, a folder, a link, or anything else.
    fn has_any(&self) -> io::Result<bool> {
        Ok(at_path(&self.rt, self.path())?.is_some())
    }

    // Opens the file at the path, or makes it. A new file is one that no link leads elsewhere.
    fn open_lock(&self, has_file: bool) -> io::Result<File> {
        if has_file {
            OpenOptions::new().write(true).open(&self.rt, self.path())
        } else {
            File::create_new(&self.rt, self.path())
        }
    }

    // Makes those folders on the way to a file that aren't there, the first among them. Each that is there is a folder, and no link.
    fn make_folders(&mut self, name: &str) -> Result<(), DiskFault> {
        self.occupy()?;
        self.point_at(name)?;
        let before = self.folder.len().saturating_add(1);
        for end in 1..name.len() {
            if let Some((folder, rest)) = name.split_at_checked(end)
                && rest.starts_with('/')
            {
                self.make_first(before.saturating_add(end))?;
                if is_name(folder) {
                    self.folders.insert(folder, ())?;
                }
            }
        }
        Ok(())
    }

    // Makes the folder that so many bytes of the path name.
    fn make_first(&self, length: usize) -> io::Result<()> {
        let path = self.path().get(..length).unwrap_or("");
        make_folder(&self.rt, path, fs::symlink_metadata(&self.rt, path))
    }

    // Writes a file, once more where a folder on the way was taken away, or what a killed process left is in the way.
    fn write(&mut self, name: &str, bytes: &[u8]) -> Result<(), DiskFault> {
        if bytes.len() as u64 > LONGEST_FILE {
            return Err(DiskFault::Failed);
        }
        self.point_at(name)?;
        if self.knows_folder(name) {
            match self.write_and_rename(bytes) {
                Err(fault) if is_in_the_way(&fault) => {}
                written => return Ok(written?),
            }
        }
        self.make_folders(name)?;
        Ok(self.write_and_rename(bytes)?)
    }

    // After a failure no file stays beside: `unlink` takes it away.
    fn write_and_rename(&self, bytes: &[u8]) -> io::Result<()> {
        let written = self.write_beside(bytes);
        if written.is_err() {
            let _ = fs::remove_file(&self.rt, self.beside.as_str());
        }
        written
    }

    // `open` by O_CREAT and O_EXCL makes a new file, and fails where anything stands, a link too (EEXIST). `rename` puts it in the place of the old
    // one, which stays visible, or the new one, at every moment; where it fails, by any error but EIO, the old one is unaffected.
    fn write_beside(&self, bytes: &[u8]) -> io::Result<()> {
        let mut file = File::create_new(&self.rt, self.beside.as_str())?;
        file.write_all(bytes)?;
        fs::rename(&self.rt, self.beside.as_str(), self.path())
    }

    // `unlink` removes a file, or the link itself. Where it fails the file is unchanged; ENOENT and ENOTDIR say that there is none.
    fn erase(&mut self, name: &str) -> Result<(), DiskFault> {
        if !self.knows_folder(name) {
            return Ok(());
        }
        self.point_at(name)?;
        match fs::remove_file(&self.rt, self.path()) {
            Err(fault) if is_absent(&fault) => Ok(()),
            removed => Ok(removed?),
        }
    }
}

impl<R: Files<File = File> + AllocGlobal + Clone + Drop> FolderFiles<R> {
    /// The files below a folder. Nothing is opened.
    pub fn below(rt: R, folder: &str) -> Mem<FolderFiles<R>> {
        Ok(FolderFiles {
            folder: Folder::at(rt, folder)?,
            failed: 0,
        })
    }
}

impl<R: Files<File = File> + AllocGlobal + Clone + Drop> RawFiles for FolderFiles<R> {
    ghost boot = { None };

    ghost faults = { λ f. f.failed };

    ghost files = { λ _. None };

    fn read(&mut self, alloc: Global, name: &str) -> Result<Option<ByteBuf>, DiskFault> {
        let found = self.folder.find(alloc, name);
        counted(&mut self.failed, found)
    }

    fn replace(&mut self, name: &str, bytes: &[u8]) -> Result<(), DiskFault> {
        let written = self.folder.write(name, bytes);
        counted(&mut self.failed, written)
    }

    fn unlink(&mut self, name: &str) -> Result<(), DiskFault> {
        match self.folder.erase(name) {
            Ok(()) => Ok(()),
            Err(_) => counted(&mut self.failed, Err(DiskFault::Failed)),
        }
    }

    fn walk(&mut self, alloc: Global) -> Result<NameList, DiskFault> {
        let names = self.folder.names(alloc);
        counted(&mut self.failed, names)
    }

    fn boot_id(&self, alloc: Global) -> Mem<Option<ByteBuf>> {
        let Ok(file) = fs::open(&self.folder.rt, BOOT_ID) else {
            return Ok(None);
        };
        let mut bytes = Vec::new(alloc);
        match file.take(LONGEST_ID).read_to_end(&mut bytes) {
            Ok(_) if !bytes.is_empty() => Ok(Some(ByteBuf::from(bytes))),
            Err(fault) if fault.kind() == ErrorKind::OutOfMemory => Err(NoMemory),
            _ => Ok(None),
        }
    }
}
