//! Files of the system, read whole.
use outside_world::{InputFault, Inputs, LONGEST_INPUT, RealInputs};
use sp_base::ByteBuf;
use std::fs;
use std::io::{self, Seek, SeekFrom, Write};

fn is_whole(read: Result<ByteBuf, InputFault>, wanted: &str) -> bool {
    matches!(read, Ok(bytes) if bytes.bytes() == wanted.as_bytes())
}

fn has_failed(read: Result<ByteBuf, InputFault>) -> bool {
    matches!(read, Err(InputFault::Failed))
}

fn makes_files(rt: &HostRuntime) -> bool {
    let _ = fs::remove_dir_all(rt, "inputs");
    fs::create_dir(rt, "inputs").is_ok()
        && fs::write(rt, "inputs/a.json", "{}").is_ok()
        && fs::write(rt, "inputs/empty", "").is_ok()
}

fn reads_files(rt: &HostRuntime) -> bool {
    let mut inputs = RealInputs::new(rt);
    is_whole(inputs.whole(rt.alloc(), "inputs/a.json"), "{}")
        && is_whole(inputs.whole(rt.alloc(), "inputs/empty"), "")
        && has_failed(inputs.whole(rt.alloc(), "inputs"))
        && has_failed(inputs.whole(rt.alloc(), "inputs/missing"))
        && has_failed(inputs.whole(rt.alloc(), "inputs/a.json/b"))
        && has_failed(inputs.whole(rt.alloc(), "inputs/a\0json"))
        && has_failed(inputs.whole(rt.alloc(), ""))
        && is_whole(inputs.whole(rt.alloc(), "inputs/a.json"), "{}")
}

// A file of so many bytes, of which the last alone is written.
fn make_long(rt: &HostRuntime, name: &str, length: u64) -> io::Result<()> {
    let mut file = fs::File::create(rt, name)?;
    file.seek(SeekFrom::Start(length.saturating_sub(1)))?;
    file.write_all(b"x")
}

fn reads_long(rt: &HostRuntime, length: u64) -> Result<usize, InputFault> {
    match make_long(rt, "long_input", length) {
        Ok(()) => {
            let mut inputs = RealInputs::new(rt);
            Ok(inputs.whole(rt.alloc(), "long_input")?.bytes().len())
        }
        Err(_) => Err(InputFault::Failed),
    }
}

#[test]
fn inputs_of_the_system(rt: HostRuntime) {
    assert!(rt; makes_files(&rt));
    assert!(rt; reads_files(&rt));
}

#[test]
fn a_file_may_be_too_long(rt: HostRuntime) {
    assert!(rt; reads_long(&rt, LONGEST_INPUT as u64 + 1) == Err(InputFault::TooLong));
}
