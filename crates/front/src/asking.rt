//! What the publisher is asked for a target, and the answer where no memory was there for its own.
ghost use Rattle.std.specs.Prelude.{◌≡◌, IfOk};
ghost use Rattle.connections.specs.Slots.{fixed_answer as fixed};
ghost use Rattle.run_events.specs.Publishers as spec;

use any_config::Farm;
use http_front::{INSUFFICIENT_STORAGE, Target};
use sp_base::{Answer, Ask, ByteBuf, Mark, Mem, TextBuf};
use std::alloc::Global;

/// What the publisher is asked for a target alone.
pub(crate) fn get_of(alloc: Global, farm: &Farm, target: Target) -> Mem<Ask>
    ensures { IfOk result (λ ask. ask ≡ spec.get_of farm.now target) }
{
    Ok(Ask {
        method: TextBuf::of(alloc, "GET")?,
        host: farm.ask_host.duplicate(alloc)?,
        port: farm.ask_port,
        path: target.path,
        slash: target.slash,
        kind: TextBuf::from(String::new(alloc)),
        body: ByteBuf::from(Vec::new(alloc)),
    })
}

/// The answer in place of one for which no memory was there (RFC 4918, section 11.5).
pub(crate) fn fixed_answer(alloc: Global) -> Answer
    ensures { result ≡ fixed }
{
    Answer {
        status: INSUFFICIENT_STORAGE,
        kind: TextBuf::from(String::new(alloc)),
        location: TextBuf::from(String::new(alloc)),
        mark: Mark::Plain,
        body: ByteBuf::from(Vec::new(alloc)),
    }
}

/// An answer once more, whose body is shared.
pub(crate) fn shared(alloc: Global, answer: &mut Answer) -> Mem<Answer>
    ensures ok { IfOk result (λ a. a ≡ answer.old) }
    ensures same { answer.new ≡ answer.old }
{
    Ok(Answer {
        status: answer.status,
        kind: answer.kind.duplicate(alloc)?,
        location: answer.location.duplicate(alloc)?,
        mark: answer.mark,
        body: answer.body.share(alloc)?,
    })
}
