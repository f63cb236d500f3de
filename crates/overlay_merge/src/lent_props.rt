// Properties that layers lend.
ghost use Rattle.std.specs.Prelude.{◌≡◌, [], not, IfOk, OnOk};
ghost use Rattle.std.specs.FinMap.Entries.{put, where_key};
ghost use Rattle.std.specs.Ordering.{eq_by_cmp};
ghost use Rattle.sp_base.specs.Names.{by_name};

use sp_base::{Mem, PropList, Value};
use std::alloc::Global;
use std::collections::BTreeMap;
use std::marker::Model;

/// Properties that layers lend, by their names: one is put over another, or taken away, with no walk over the others, and the values that
/// are left are copied once.
#[derive(Drop)]
pub(crate) struct LentProps<'a> {
    props: BTreeMap<&'a str, &'a Value>,
}

impl<'a> Model for LentProps<'a> {
    ghost use Rattle.std.specs.Prelude.{List, ℕ};
    ghost use Rattle.sp_base.specs.declared.value.Value.{Value as PropValue};
    ghost use Rattle.overlay_merge.specs.Lent.{properties_lent};

    ghost Value = { List (List ℕ × PropValue) };

    ghost view = { λ l. properties_lent l.props.entries };
}

impl<'a> LentProps<'a> {
    pub(crate) fn new(alloc: Global) -> LentProps<'a>
        ensures { result ≡ [] }
    {
        LentProps {
            props: BTreeMap::new(alloc),
        }
    }

    /// Sets the value under a name.
    pub(crate) fn put(&mut self, name: &'a str, value: &'a Value) -> Mem<()>
        ensures { OnOk result (self.new ≡ put by_name name.entry.now value.entry.now self.old) }
    {
        self.props.insert(name, value)?;
        Ok(())
    }

    /// Takes the value under a name away, if there is one.
    pub(crate) fn remove(&mut self, name: &str)
        ensures { self.new ≡ where_key by_name (λ key. not (eq_by_cmp by_name name.now key)) self.old }
    {
        // `len` says that the names rise.
        let _ = self.props.len();
        let _ = self.props.remove(name);
    }

    /// Takes all away.
    pub(crate) fn clear(&mut self)
        ensures { self.new ≡ [] }
    {
        self.props.clear();
    }

    /// A copy that is lent no more.
    pub(crate) fn copied(&self, alloc: Global) -> Mem<PropList>
        ensures { IfOk result (λ props. props ≡ self.now) }
    {
        let mut props = PropList::new(alloc);
        for (name, value) in self.props.iter() {
            props.put(alloc, name, value.duplicate(alloc)?)?;
        }
        Ok(props)
    }
}
