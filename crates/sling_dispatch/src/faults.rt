//! How a refusal is written.
ghost use Rattle.std.specs.Prelude.{◌≡◌, ◌+◌, ◌<◌, ◌^◌, ◌↔◌, IfOk, IsTrue};
ghost use Rattle.sling_dispatch.specs.Endings.{output_of, RefusalLine, ContentLine, FarmLine, OfServing, InputLine};

use crate::farms::FarmRefusal;
use content_json::ContentFault;
use outside_world::InputFault;
use sp_base::Mem;
use std::alloc::Global;

// The line that names the refused line of a scenario: one more than the newlines before the place.
pub fn refusal_line(alloc: Global, before: u64) -> Mem<Vec<u8>>
    requires { before + 1 < 2 ^ 64 }
    ensures { IfOk result (λ text. text.items ≡ output_of (RefusalLine before)) }
{
    let line = before + 1;
    let text = format!(in alloc; "scenario refused at line {line}\n")?;
    Ok(text.into_bytes())
}

pub fn is_memory(fault: &ContentFault) -> bool
    ensures { IsTrue result ↔ (fault.now ≡ ContentFault.NoMemory) }
{
    matches!(fault, ContentFault::NoMemory)
}

// The line of a content that is refused.
pub fn content_line(alloc: Global, fault: &ContentFault) -> Mem<Vec<u8>>
    ensures { IfOk result (λ text. text.items ≡ output_of (ContentLine fault.now)) }
{
    let text = format!(in alloc; "content refused: {fault}\n")?;
    Ok(text.into_bytes())
}

// The line of a farm that is refused.
pub fn farm_line(alloc: Global, refusal: &FarmRefusal) -> Mem<Vec<u8>>
    ensures { IfOk result (λ text. text.items ≡ output_of (FarmLine refusal.now)) }
{
    let text = format!(in alloc; "farm refused: {refusal}\n")?;
    Ok(text.into_bytes())
}

// The line of an input that wasn't read.
pub fn unread_line(alloc: Global, fault: InputFault, name: &str) -> Mem<Vec<u8>>
    ensures { IfOk result (λ text. text.items ≡ output_of (OfServing (InputLine fault name.now))) }
{
    let text = format!(in alloc; "{fault}: {name}\n")?;
    Ok(text.into_bytes())
}
