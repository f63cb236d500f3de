//! What is found in a site.

use crate::lines::{
    push_any_fault, push_content_fault, push_counts, push_farm_fault, push_script_fault,
};
use crate::warnings::{WarningLines, content_warnings, farm_warnings, member_warnings};
use any_config::{AnyFault, AnyNode, FarmFault, farm_of, read_any};
use content_json::{ContentFault, read_tree};
use resource_tree::Tree;
use script_rank::script_text;
use site_faults::{ScriptFault, script_faults};
use sp_base::{Mem, NoMemory, Path, TextBuf};
use std::alloc::Global;
use std::hash::RandomState;

/// What is found, as lines, and how much it is.
#[derive(Drop)]
pub struct Findings {
    pub text: Vec<u8>,
    pub faults: usize,
    pub warnings: usize,
}

/// What is found in a content and a farm.
pub fn find(alloc: Global, seeds: RandomState, content: &[u8], any: &[u8]) -> Mem<Findings> {
    let mut found = Findings {
        text: Vec::new(alloc),
        faults: 0,
        warnings: 0,
    };
    let ask = ask_of(alloc, any)?;
    find_in_content(&mut found, alloc, seeds, content, &ask)?;
    find_in_file(&mut found, alloc, any)?;
    push_counts(alloc, &mut found.text, found.faults, found.warnings)?;
    Ok(found)
}

// The host and the port at which the publisher is asked, where the farm isn't refused.
fn ask_of(alloc: Global, any: &[u8]) -> Mem<Option<(TextBuf, u16)>> {
    let top = match read_any(alloc, any) {
        Ok(top) => top,
        Err(AnyFault::NoMemory) => return Err(NoMemory),
        Err(_) => return Ok(None),
    };
    match farm_of(alloc, &top) {
        Ok(farm) => Ok(Some((farm.ask_host.duplicate(alloc)?, farm.ask_port))),
        Err(FarmFault::NoMemory) => Err(NoMemory),
        Err(_) => Ok(None),
    }
}

fn find_in_content(
    found: &mut Findings,
    alloc: Global,
    seeds: RandomState,
    content: &[u8],
    ask: &Option<(TextBuf, u16)>,
) -> Mem<()> {
    match read_tree(alloc, seeds, content) {
        Ok(tree) => find_in_tree(found, alloc, &tree, ask),
        Err(ContentFault::NoMemory) => Err(NoMemory),
        Err(fault) => {
            found.faults = found.faults.saturating_add(1);
            push_content_fault(alloc, &mut found.text, &fault)
        }
    }
}

fn find_in_tree(
    found: &mut Findings,
    alloc: Global,
    tree: &Tree,
    ask: &Option<(TextBuf, u16)>,
) -> Mem<()> {
    let told = script_faults(alloc, tree)?;
    for (path, fault) in &told {
        find_script(found, alloc, tree, path, *fault)?;
    }
    let ask = match ask {
        Some((host, port)) => Some((host.text(), *port)),
        None => None,
    };
    let lines = content_warnings(alloc, tree, ask)?;
    add_warnings(found, &lines)
}

fn add_warnings(found: &mut Findings, lines: &WarningLines) -> Mem<()> {
    for (line, _) in lines {
        found.warnings = found.warnings.saturating_add(1);
        found.text.extend_from_slice(line.text().as_bytes())?;
    }
    Ok(())
}

fn find_script(
    found: &mut Findings,
    alloc: Global,
    tree: &Tree,
    path: &Path,
    fault: ScriptFault,
) -> Mem<()> {
    found.faults = found.faults.saturating_add(1);
    match script_text(alloc, tree, path)? {
        Some(text) => push_script_fault(
            alloc,
            &mut found.text,
            path,
            text.text().as_bytes(),
            fault,
        ),
        None => Ok(()),
    }
}

fn find_in_file(found: &mut Findings, alloc: Global, any: &[u8]) -> Mem<()> {
    match read_any(alloc, any) {
        Ok(top) => find_in_farm(found, alloc, any, &top),
        Err(AnyFault::NoMemory) => Err(NoMemory),
        Err(fault) => {
            found.faults = found.faults.saturating_add(1);
            push_any_fault(alloc, &mut found.text, any, fault)
        }
    }
}

fn find_in_farm(found: &mut Findings, alloc: Global, text: &[u8], top: &AnyNode) -> Mem<()> {
    match farm_of(alloc, top) {
        Ok(_) => add_warnings(found, &farm_warnings(alloc, text, top)?),
        Err(FarmFault::NoMemory) => Err(NoMemory),
        Err(fault) => {
            found.faults = found.faults.saturating_add(1);
            push_farm_fault(alloc, &mut found.text, &fault)?;
            add_warnings(found, &member_warnings(alloc, text, top)?)
        }
    }
}
