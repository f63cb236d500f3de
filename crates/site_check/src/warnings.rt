//! Warnings, as lines.

use crate::lines::push_placed;
use crate::shown::push_shown;
use any_config::AnyNode;
use farm_members::passed_members;
use resource_tree::Tree;
use site_faults::{
    IdleCause, MappingEnd, MatchFault, circling_types, idle_entries, idle_hidings, idle_matches,
    lost_mappings, shared_claims, unreached_scripts, unrendered_types,
};
use sp_base::{Mem, TextBuf};
use std::alloc::Global;
use std::collections::BTreeMap;

/// Lines, each once, in the order of their bytes.
pub type WarningLines = BTreeMap<TextBuf, ()>;

// Adds a line of these parts, with what is laid out already behind them.
fn add_line(lines: &mut WarningLines, alloc: Global, parts: &[&str], laid_out: &[u8]) -> Mem<()> {
    let mut line = Vec::new(alloc);
    line.extend_from_slice(b"warning: ")?;
    for part in parts {
        push_shown(&mut line, (*part).as_bytes())?;
    }
    line.extend_from_slice(laid_out)?;
    if let Ok(text) = str::from_utf8(&line) {
        lines.insert(TextBuf::of(alloc, text)?, ())?;
    }
    Ok(())
}

// Adds a line of these parts.
fn warn(lines: &mut WarningLines, alloc: Global, parts: &[&str]) -> Mem<()> {
    add_line(lines, alloc, parts, b"\n")
}

fn warn_of_scripts(lines: &mut WarningLines, alloc: Global, tree: &Tree) -> Mem<()> {
    let told = unreached_scripts(alloc, tree)?;
    for (path, _) in &told {
        warn(
            lines,
            alloc,
            &[
                path.as_text(),
                ": no resource has a type that reaches this script",
            ],
        )?;
    }
    Ok(())
}

fn warn_of_types(lines: &mut WarningLines, alloc: Global, tree: &Tree) -> Mem<()> {
    let told = unrendered_types(alloc, tree)?;
    for (name, path) in &told {
        warn(
            lines,
            alloc,
            &[path.as_text(), ": no script renders its type ", name.text()],
        )?;
    }
    Ok(())
}

fn warn_of_claims(lines: &mut WarningLines, alloc: Global, tree: &Tree) -> Mem<()> {
    let told = shared_claims(alloc, tree)?;
    for shared in told.as_slice() {
        let (node, claim) = (shared.other.as_text(), shared.claim.as_text());
        if shared.other == shared.first {
            let what = ", by an alias and by a vanity path";
            warn(lines, alloc, &[node, ": claims ", claim, what])?;
        } else {
            let first = shared.first.as_text();
            warn(
                lines,
                alloc,
                &[node, ": claims ", claim, ", as ", first, " does"],
            )?;
        }
    }
    Ok(())
}

fn warn_of_super_types(lines: &mut WarningLines, alloc: Global, tree: &Tree) -> Mem<()> {
    let told = circling_types(alloc, tree)?;
    for path in told.as_slice() {
        let what = ": its super types lead in a circle";
        warn(lines, alloc, &[path.as_text(), what])?;
    }
    Ok(())
}

fn warn_of_mapping(
    lines: &mut WarningLines,
    alloc: Global,
    node: &str,
    end: &MappingEnd,
) -> Mem<()> {
    match end {
        MappingEnd::Somewhere => Ok(()),
        MappingEnd::Nowhere(text) => {
            let to = text.text();
            warn(
                lines,
                alloc,
                &[node, ": maps to ", to, ", where no resource is"],
            )
        }
        MappingEnd::InCircles => warn(lines, alloc, &[node, ": redirects in a circle"]),
        MappingEnd::TooFar => {
            let what = ": more than 20 redirects follow each other";
            warn(lines, alloc, &[node, what])
        }
        MappingEnd::PassedOver(above) => {
            let (what, why) = (": maps nothing below ", ", which has a sling:match");
            warn(lines, alloc, &[node, what, above.as_text(), why])
        }
        MappingEnd::NotAsked(asked) => {
            let what = ": maps nothing, since the publisher is asked at ";
            warn(lines, alloc, &[node, what, asked.text()])
        }
    }
}

fn warn_of_mappings(
    lines: &mut WarningLines,
    alloc: Global,
    tree: &Tree,
    ask: Option<(&str, u16)>,
) -> Mem<()> {
    let told = lost_mappings(alloc, tree, ask)?;
    for lost in told.as_slice() {
        warn_of_mapping(lines, alloc, lost.node.as_text(), &lost.end)?;
    }
    Ok(())
}

fn warn_at(
    lines: &mut WarningLines,
    alloc: Global,
    node: &str,
    place: (&str, usize),
    what: &str,
) -> Mem<()> {
    let mut laid_out = Vec::new(alloc);
    push_placed(
        alloc,
        &mut laid_out,
        place.0.as_bytes(),
        place.1,
        what.as_bytes(),
    )?;
    add_line(lines, alloc, &[node, ":"], &laid_out)
}

fn warn_of_match(
    lines: &mut WarningLines,
    alloc: Global,
    node: &str,
    fault: &MatchFault,
) -> Mem<()> {
    match fault {
        MatchFault::Misplaced => {
            let what =
                ": sling:match counts directly below /etc/map/http alone; this node and all below it map nothing";
            warn(lines, alloc, &[node, what])
        }
        MatchFault::NoText => warn(lines, alloc, &[node, ": sling:match is no text"]),
        MatchFault::NoPattern(text, at) => {
            let what = "no pattern of sling:match goes on with this";
            warn_at(lines, alloc, node, (text.text(), *at), what)
        }
        MatchFault::TooDeep(text, at) => {
            let what = "a pattern of sling:match nests deeper than 32 brackets";
            warn_at(lines, alloc, node, (text.text(), *at), what)
        }
        MatchFault::NoTarget => warn(lines, alloc, &[node, ": sling:match without a target"]),
        MatchFault::NoHost => {
            let what = ": sling:match begins with a slash, where the host would stand";
            warn(lines, alloc, &[node, what])
        }
    }
}

fn warn_of_matches(lines: &mut WarningLines, alloc: Global, tree: &Tree) -> Mem<()> {
    let told = idle_matches(alloc, tree)?;
    for idle in told.as_slice() {
        warn_of_match(lines, alloc, idle.node.as_text(), &idle.fault)?;
    }
    Ok(())
}

fn warn_of_hidings(lines: &mut WarningLines, alloc: Global, tree: &Tree) -> Mem<()> {
    let told = idle_hidings(alloc, tree)?;
    for idle in told.as_slice() {
        warn(
            lines,
            alloc,
            &[
                idle.node.as_text(),
                ": ",
                idle.property.text(),
                " hides nothing",
            ],
        )?;
    }
    Ok(())
}

/// What is likely to be a mistake in a content, where the publisher is asked at a host and a port, if these are known.
pub fn content_warnings(alloc: Global, tree: &Tree, ask: Option<(&str, u16)>) -> Mem<WarningLines> {
    let mut lines = BTreeMap::new(alloc);
    warn_of_scripts(&mut lines, alloc, tree)?;
    warn_of_types(&mut lines, alloc, tree)?;
    warn_of_super_types(&mut lines, alloc, tree)?;
    warn_of_claims(&mut lines, alloc, tree)?;
    warn_of_mappings(&mut lines, alloc, tree, ask)?;
    warn_of_matches(&mut lines, alloc, tree)?;
    warn_of_hidings(&mut lines, alloc, tree)?;
    Ok(lines)
}

fn warn_of_members(lines: &mut WarningLines, alloc: Global, text: &[u8], top: &AnyNode) -> Mem<()> {
    let told = passed_members(alloc, text, top)?;
    for member in told.as_slice() {
        let line = member.line.to_string(alloc)?;
        warn(
            lines,
            alloc,
            &[
                "/",
                member.name.text(),
                " of ",
                member.group.text(),
                ", line ",
                line.as_str(),
                ": this member is passed over",
            ],
        )?;
    }
    Ok(())
}

fn warn_of_entries(lines: &mut WarningLines, alloc: Global, top: &AnyNode) -> Mem<()> {
    let told = idle_entries(alloc, top)?;
    for entry in told.as_slice() {
        let cause = match entry.cause {
            IdleCause::DecidedLater => ": a later entry decides all that this one applies to",
            IdleCause::NotAdmitted => ": the filter admits nothing that this one applies to",
        };
        warn(
            lines,
            alloc,
            &["/", entry.name.text(), " of ", entry.list.text(), cause],
        )?;
    }
    Ok(())
}

/// The members of a file that are passed over, whether or not it has a farm that can be used.
pub fn member_warnings(alloc: Global, text: &[u8], top: &AnyNode) -> Mem<WarningLines> {
    let mut lines = BTreeMap::new(alloc);
    warn_of_members(&mut lines, alloc, text, top)?;
    Ok(lines)
}

/// What is likely to be a mistake in a farm, which reads as its text does.
pub fn farm_warnings(alloc: Global, text: &[u8], top: &AnyNode) -> Mem<WarningLines> {
    let mut lines = BTreeMap::new(alloc);
    warn_of_members(&mut lines, alloc, text, top)?;
    warn_of_entries(&mut lines, alloc, top)?;
    Ok(lines)
}
