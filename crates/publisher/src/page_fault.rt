// Why a page isn't put together.

ghost use Rattle.std.specs.Prelude.{◌≡◌};
ghost use Rattle.publisher.specs.declared.page_fault.PageFault.TheVariants as fault;

use sp_base::NoMemory;
use std::alloc::AllocError;

/// Why a page isn't put together.
#[derive(Drop)]
pub(crate) enum PageFault {
    /// A limit is passed: of the text, of what is put in, of how deep it is put in, or of the contents of lists.
    Over,
    NoMemory,
}

impl From<NoMemory> for PageFault {
    ghost from_gives = { λ _ e. e ≡ fault.NoMemory };

    fn from(_fault: NoMemory) -> PageFault {
        PageFault::NoMemory
    }
}

impl From<AllocError> for PageFault {
    ghost from_gives = { λ _ e. e ≡ fault.NoMemory };

    fn from(_fault: AllocError) -> PageFault {
        PageFault::NoMemory
    }
}
