//! Patterns from their texts.
ghost use Rattle.std.specs.Prelude.{◌≡◌, ◌≢◌, Ok, Err, IfOk, IfErr};
ghost use Rattle.std.specs.Str.{chars};
ghost use Rattle.regex_rules.specs.Reading as spec;
ghost use Rattle.regex_rules.specs.Spelling.{strict};

use crate::chars::first_char;
use crate::reader::Reader;
use crate::{PatternFault, PatternPlace};
use std::alloc::Global;

/// The places of a pattern.
#[tactic(auto, using(crate::proofs::ReadLemmas::read_next, crate::proofs::ReadLemmas::ends_ok, crate::proofs::ReadLemmas::ends_err))]
pub(crate) fn read_places(alloc: Global, text: &str) -> Result<Vec<PatternPlace>, PatternFault>
    ensures ok { IfOk result (λ places. spec.read_from strict 0 spec.unread (chars text.now) ≡ Ok places.items) }
    ensures err { IfErr result (λ e. e ≢ PatternFault.NoMemory → spec.read_from strict 0 spec.unread (chars text.now) ≡ Err e) }
{
    let mut reader = Reader::new(alloc);
    let mut rest = text;
    while let Some((c, later)) = first_char(rest) {
        reader.step(alloc, text.len() - rest.len(), c)?;
        rest = later;
    }
    reader.finish(text.len())
}
