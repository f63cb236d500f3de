//! How many look-ups a decomposition takes. Decompositions are asked for through the program (examples/runs/splits).
ghost use Rattle.std.specs.Prelude.{◌==◌, length};

use sp_base::{LONGEST_SEGMENT, MOST_SEGMENTS, Mem, Path};
use std::alloc::{AllocError, Global};
use std::cell::Cell;
use url_split::{Known, split};

// Knows the root alone, and counts what is looked up.
#[derive(Drop)]
struct Counted {
    reach: usize,
    look_ups: Cell<usize>,
    bytes: Cell<usize>,
}

impl Known for Counted {
    ghost known = { λ s p. length p == 0 };

    fn has(&self, _alloc: Global, path: &Path) -> Mem<bool> {
        self.look_ups.set(self.look_ups.get().saturating_add(1));
        let size = path.as_text().len();
        self.bytes.set(self.bytes.get().saturating_add(size));
        Ok(path.depth() == 0)
    }

    fn reach(&self, _alloc: Global, _path: &Path) -> Mem<usize> {
        Ok(self.reach)
    }
}

// The longest path: each segment a letter and then dots.
fn longest_path(alloc: Global) -> Result<String, AllocError> {
    let dots = ".".repeat(alloc, LONGEST_SEGMENT - 1)?;
    let segment = format!(in alloc; "/x{}", dots.as_str())?;
    segment.as_str().repeat(alloc, MOST_SEGMENTS)
}

fn is_split_by_few_look_ups(alloc: Global, known: &Counted, text: &str) -> bool {
    matches!(split(alloc, known, text), Ok(None))
        && known.look_ups.get() <= 1 + 2 * LONGEST_SEGMENT
        && known.bytes.get() <= text.len() + 800 * LONGEST_SEGMENT
}

fn longest_path_is_split(alloc: Global, known: &Counted) -> bool {
    match longest_path(alloc) {
        Ok(text) => is_split_by_few_look_ups(alloc, known, text.as_str()),
        Err(_) => false,
    }
}

#[test]
fn looks_up_no_more_than_the_reach(rt: HostRuntime) {
    let known = Counted {
        reach: 1,
        look_ups: Cell::new(0),
        bytes: Cell::new(0),
    };
    assert!(rt; longest_path_is_split(rt.alloc(), &known));
}
