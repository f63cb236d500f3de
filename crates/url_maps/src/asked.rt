// What the mappings of a first turn are asked for.
ghost use Rattle.std.specs.Prelude.{◌≡◌, ◌++◌, IfOk, length, option_copied};
ghost use Rattle.sp_base.specs.Paths.{path_or_none};
ghost use Rattle.resource_tree.specs.Content.{name_of};
ghost use Rattle.url_maps.specs.Patterns.{asked_for};

use crate::patterns::mappings_path;
use sp_base::{Mem, Path, TextBuf};
use std::alloc::Global;
use std::marker::Model;

/// The text of a first turn, and the host and the port at which it is asked for. Contracts see the path of their node, and the text.
#[derive(Drop)]
pub(crate) struct HostText {
    /// HOST.PORT, and then the text: that is what patterns match.
    whole: TextBuf,
    /// Where the text begins in it.
    from: usize,
    /// The path of the host node, where HOST.PORT may be a name.
    node: Option<Path>,
}

impl Model for HostText {
    ghost use Rattle.std.specs.Prelude.{◌≡◌, ◌≤◌, drop, length, take};
    ghost use Rattle.sp_base.specs.Paths.{path_or_none};
    ghost use Rattle.resource_tree.specs.Content.{kid};
    ghost use Rattle.url_maps.specs.Patterns.{Asked, mappings_path};

    ghost Value = { Asked };

    ghost view = { λ a. record { host_node = kid mappings_path (take a.from a.whole); text = drop a.from a.whole } };

    ghost invariant = { λ a. (a.from ≤ length a.whole) × (a.node ≡ path_or_none (kid mappings_path (take a.from a.whole))) };
}

impl HostText {
    pub(crate) fn of(alloc: Global, host: &str, port: u16, text: &str) -> Mem<HostText>
        ensures { IfOk result (λ a. a ≡ asked_for host.now port text.now) }
    {
        let mut whole = host.to_ascii_lowercase(alloc)?;
        whole.push_str(".")?;
        whole.push_str(format!(in alloc; "{port}")?.as_str())?;
        let from = whole.len();
        let node = mappings_path(alloc)?.child_or_none(alloc, whole.as_str())?;
        whole.push_str(text)?;
        Ok(HostText {
            whole: TextBuf::from(whole),
            from,
            node,
        })
    }

    pub(crate) fn host_node(&self) -> Option<&Path>
        ensures { option_copied result ≡ path_or_none self.now.host_node }
    {
        self.node.as_ref()
    }

    pub(crate) fn whole(&self) -> &str
        ensures { result.now ≡ name_of self.now.host_node ++ self.now.text }
    {
        self.whole.text()
    }

    pub(crate) fn from(&self) -> usize
        ensures { result ≡ length (name_of self.now.host_node) }
    {
        self.from
    }
}
