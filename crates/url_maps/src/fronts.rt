// The pair that patterns give for what is asked.
ghost use Rattle.std.specs.Prelude.{◌≡◌, IfOk, Some, length};
ghost use Rattle.url_maps.specs.Claims.{IsIndexOf};
ghost use Rattle.url_maps.specs.Found.{IsFirstFront, IsLongestPair, IsTextOf, first_row, is_ahead, pair_if_at};

use crate::MapIndex;
use crate::asked::HostText;
use crate::mappings::pair_of;
use crate::pairs::{Pair, PairKind};
use crate::patterns::{PatternNode, mappings_path};
use resource_tree::Tree;
use sp_base::Mem;
use std::alloc::Global;

/// Up to where a pattern matches what is asked, HOST.PORT included.
#[derive(Clone, Copy, Drop)]
pub(crate) struct RowFront<'a> {
    pub at: usize,
    pub row: &'a PatternNode,
}

/// The pair of a pattern, and the length of its prefix.
#[derive(Drop)]
pub(crate) struct PatternFront {
    pub at: usize,
    pub pair: Pair,
}

impl MapIndex {
    // Of the pairs that patterns give for what is asked the one with the longest prefix: each pattern is walked over once.
    pub(crate) fn longest_pair(
        &self,
        alloc: Global,
        tree: &Tree,
        asked: &Option<HostText>,
        text: &str,
    ) -> Mem<Option<PatternFront>>
        requires index { IsIndexOf tree.now self.now }
        requires text { IsTextOf asked.now text.now }
        ensures { IfOk result (IsLongestPair tree.now asked.now text.now) }
    {
        match asked {
            Some(asked) => self.longest_pair_for(alloc, tree, asked),
            None => Ok(None),
        }
    }

    fn longest_pair_for(
        &self,
        alloc: Global,
        tree: &Tree,
        asked: &HostText,
    ) -> Mem<Option<PatternFront>>
        requires { IsIndexOf tree.now self.now }
        ensures { IfOk result (IsLongestPair tree.now (Some asked.now) asked.now.text) }
    {
        // `len` says that the tree is one.
        let _ = tree.len();
        let rows = self.patterns.as_slice();
        let Some(best) = first_front(alloc, rows, asked.whole(), asked.from())? else {
            return Ok(None);
        };
        let name = best.row.name.text();
        let Some(path) = mappings_path(alloc)?.child_or_none(alloc, name)? else {
            return Ok(None);
        };
        let Some(node) = tree.node(&path) else {
            return Ok(None);
        };
        let Some(pair) = pair_of(alloc, node)? else {
            return Ok(None);
        };
        Ok(Some(PatternFront {
            at: best.at - asked.from(),
            pair: Pair {
                kind: PairKind::Pattern,
                target: pair.target,
                away: pair.away,
            },
        }))
    }
}

// Of the fronts of some patterns in a text the last, and at a tie that of the node with the least name.
fn first_front<'a>(
    alloc: Global,
    rows: &'a [PatternNode],
    whole: &str,
    from: usize,
) -> Mem<Option<RowFront<'a>>>
    ensures { IfOk result (IsFirstFront rows.entry.now whole.entry.now from (length rows.entry.now)) }
{
    let mut best = None;
    for row in rows {
        let front = row.pattern.longest_front(alloc, whole, from)?;
        best = first_of(best, front, row);
    }
    Ok(best)
}

// Of the front so far, and that of a row, the one that is ahead.
fn first_of<'a>(
    best: Option<RowFront<'a>>,
    front: Option<usize>,
    row: &'a PatternNode,
) -> Option<RowFront<'a>>
    ensures { result ≡ first_row best.entry front row.entry }
{
    let Some(at) = front else {
        return best;
    };
    match best {
        Some(old) if !is_ahead(at, row.name.text(), &old) => Some(old),
        _ => Some(RowFront { at, row }),
    }
}

// Whether a front is after another one, or at its place and of a node with a less name.
fn is_ahead(at: usize, name: &str, old: &RowFront) -> bool
    ensures { result ≡ is_ahead at name.now old.now }
{
    if at == old.at {
        return name < old.row.name.text();
    }
    old.at < at
}

// The pair found, where its prefix has this length.
pub(crate) fn pair_if_at(
    alloc: Global,
    len: usize,
    found: &Option<PatternFront>,
) -> Mem<Option<Pair>>
    ensures { IfOk result (λ o. o ≡ pair_if_at len found.now) }
{
    let Some(found) = found else {
        return Ok(None);
    };
    if found.at != len {
        return Ok(None);
    }
    Ok(Some(Pair {
        kind: found.pair.kind,
        target: found.pair.target.duplicate(alloc)?,
        away: found.pair.away,
    }))
}
