//! The scripts of a content whose texts have no reading.
ghost use Rattle.std.specs.Prelude.{◌≡◌, IfOk, OnOk, option_copied};
ghost use Rattle.site_faults.specs.Scripts as spec;
ghost use Rattle.site_faults.specs.Scripts.{AreScriptFaults};
ghost use Rattle.site_faults.specs.Telling.{Tells};

use crate::script_fault::{ScriptFault, text_fault};
use resource_tree::Tree;
use script_rank::{is_script_name, script_text};
use sp_base::{Mem, Path};
use std::alloc::Global;
use std::collections::BTreeMap;

/// Scripts by their paths, each with what is wrong with it.
pub type ScriptFaults = BTreeMap<Path, ScriptFault>;

/// Whether a path is that of a script of a type: its name ends in `.html`, and it is below a search path.
pub fn is_script_path(path: &Path) -> bool
    ensures { result ≡ spec.is_script_path path.now }
{
    is_search_top(path.seg(0)) && is_script_name(path.name())
}

// Whether this is the first segment of a search path.
fn is_search_top(top: Option<&str>) -> bool
    ensures { result ≡ spec.is_search_top (option_copied top.entry) }
{
    match top {
        Some(top) => top == "apps" || top == "libs",
        None => false,
    }
}

// What is wrong with the script at a path, where one is there whose text has no reading.
fn script_fault(alloc: Global, tree: &Tree, path: &Path) -> Mem<Option<ScriptFault>>
    ensures { IfOk result (λ fault. fault ≡ spec.script_fault_at tree.now path.now) }
{
    if !is_script_path(path) || tree.node(path).is_none() {
        return Ok(None);
    }
    match script_text(alloc, tree, path)? {
        Some(text) => text_fault(alloc, text.text()),
        None => Ok(None),
    }
}

// Tells the script at a path, where its text has no reading.
fn tell_script(told: &mut ScriptFaults, alloc: Global, tree: &Tree, path: &Path) -> Mem<()>
    ensures { OnOk result (Tells tree.now path.now told.old.entries told.new.entries) }
{
    if let Some(fault) = script_fault(alloc, tree, path)? {
        told.insert(path.duplicate(alloc)?, fault)?;
    }
    Ok(())
}

/// Each script whose text has no reading, with what is wrong with it, in the order of the paths.
pub fn script_faults(alloc: Global, tree: &Tree) -> Mem<ScriptFaults>
    ensures { IfOk result (λ told. AreScriptFaults tree.now told.entries) }
{
    let mut told = BTreeMap::new(alloc);
    let all = tree.rows(alloc)?;
    let rows = all.as_slice();
    for row in rows {
        tell_script(&mut told, alloc, tree, row.0)?;
    }
    // `len` says that the scripts stand in the order of their paths.
    let _ = told.len();
    Ok(told)
}
