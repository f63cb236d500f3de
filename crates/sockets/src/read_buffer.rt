//! The room that sockets are read into.
ghost use Rattle.std.specs.Prelude.{◌≤◌, length};

use sp_base::Mem;
use std::alloc::Global;

/// The most bytes that one read takes.
const READ_ROOM: usize = 16_384;

/// Room for one read.
#[derive(Drop)]
pub(crate) struct ReadBuffer {
    pub bytes: Vec<u8>,
    pub ghost some: { 1 ≤ length bytes.items },
    pub ghost within: { length bytes.items ≤ 65536 },
}

impl ReadBuffer {
    pub fn new(alloc: Global) -> Mem<ReadBuffer> {
        Ok(ReadBuffer {
            bytes: vec![in alloc; 0u8; READ_ROOM]?,
        })
    }
}
