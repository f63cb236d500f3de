//! What is written to a sink.

use crate::ending::CheckEnding;
use sp_outside::{Sink, SinkFault};

// Writes all of the bytes.
fn write_all<K: Sink>(sink: &mut K, bytes: &[u8]) -> Result<(), SinkFault> {
    let mut at = 0;
    while at < bytes.len() {
        at += sink.write(&bytes[at..])?;
    }
    Ok(())
}

/// Writes a text, after which the check ends so.
pub fn say<K: Sink>(sink: &mut K, text: &[u8], good: CheckEnding) -> CheckEnding {
    match write_all(sink, text) {
        Ok(()) => good,
        Err(SinkFault::Failed) => CheckEnding::SinkFailed,
        Err(SinkFault::NoMemory) => CheckEnding::NoMemory,
    }
}
