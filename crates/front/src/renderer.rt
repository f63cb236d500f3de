//! What a front asks of its publisher.
ghost use Rattle.std.specs.Prelude.{◌≡◌, ◌≢◌, IfOk, IsTrue, OnOk, OnErr, codes};
ghost use Rattle.resource_tree.specs.Content.{Content};
ghost use Rattle.http_front.specs.Faults.{insufficient_storage};
ghost use Rattle.sp_base.specs.MediaTypes.{is_kind};
ghost use Rattle.run_events.specs.Publishers.{Publishing};

use sp_base::{Answer, Ask, Mem};
use std::alloc::Global;

/// What answers requests on a content, and may change it.
pub trait Renderer {
    /// What is given for a request on a content.
    ghost publishing: { Publishing };

    /// The content of this moment.
    ghost content: { Self → Content };

    /// What a request is answered now. A GET changes nothing (RFC 9110, section 9.2.1), no answer has the status of
    /// the fixed one, and each has a media type that can be kept.
    fn render(&mut self, alloc: Global, ask: &Ask) -> Mem<Answer>
        ensures ok { IfOk result (λ a. a ≡ (publishing (content self.old) ask.now).answer) }
        ensures after { OnOk result (content self.new ≡ (publishing (content self.old) ask.now).content) }
        ensures status { IfOk result (λ a. a.status ≢ insufficient_storage) }
        ensures kind { IfOk result (λ a. IsTrue (is_kind a.kind)) }
        ensures safe { ask.now.method ≡ codes "GET" → content self.new ≡ content self.old }
        ensures unchanged { OnErr result (content self.new ≡ content self.old) };
}
