// Counts the resources that a JSON text shows, level by level, up to the most that it may show: each is looked up once.
ghost use Rattle.std.specs.Prelude.{◌≡◌, ◌<◌, ◌++◌, IfOk, OnOk, option_map};
ghost use Rattle.get_servlet.specs.Rendering.{shown_kid, shown_count, greatest_fitting};
ghost use Rattle.get_servlet.specs.Steps.{kid_list, shown_kids, next_level, Gathers, GathersAll, depth_instead};

use crate::kids::{Kid, shown_kid};
use resource_tree::{Look, Res};
use sp_base::{Mem, Path};
use std::alloc::Global;

/// The most resources that a text of more than one level shows.
const MOST_RESOURCES: usize = 1000;

// Adds the kid of a name to a level, where it is shown.
fn add_kid<'a, L: Look>(
    alloc: Global,
    look: &'a L,
    path: &Path,
    res: &Res<'_>,
    name: &str,
    level: &mut Vec<Kid<'a>>,
) -> Mem<()>
    ensures { OnOk result (level.new.items ≡ level.old.items ++ kid_list (shown_kid (L.seen look.now) path.now res.now name.now)) }
{
    if let Some(kid) = shown_kid(alloc, look, path, res, name)? {
        level.push(kid)?;
    }
    Ok(())
}

// Adds the kids that a resource shows to a level. The answer says whether the level has at most `most` kids then; if it would have
// more, only some of them are added.
fn add_kids<'a, L: Look>(
    alloc: Global,
    look: &'a L,
    path: &Path,
    res: &Res<'_>,
    level: &mut Vec<Kid<'a>>,
    most: usize,
) -> Mem<bool>
    ensures { IfOk result (λ all. Gathers most all level.new.items (level.old.items ++ shown_kids (L.seen look.now) path.now res.now)) }
{
    for name in res.kids() {
        if level.len() > most {
            return Ok(false);
        }
        add_kid(alloc, look, path, res, name.text(), level)?;
    }
    Ok(level.len() <= most)
}

// The kids of the kids of a level, if they are at most `most`.
fn next_level<'a, L: Look>(
    alloc: Global,
    look: &'a L,
    level: &[Kid<'a>],
    most: usize,
) -> Mem<Option<Vec<Kid<'a>>>>
    ensures { IfOk result (λ next. GathersAll most (option_map (λ kids. kids.items) next) (next_level (L.seen look.now) level.now)) }
{
    let mut next = Vec::new(alloc);
    for kid in level {
        if !add_kids(alloc, look, &kid.path, &kid.res, &mut next, most)? {
            return Ok(None);
        }
    }
    Ok(Some(next))
}

// The greatest depth up to this one that is 1 or shows at most 1,000 resources.
fn greatest_fitting<L: Look>(alloc: Global, look: &L, res: &Res<'_>, depth: u32) -> Mem<u32>
    requires deep { 1 < depth }
    ensures { IfOk result (λ most. most ≡ greatest_fitting (shown_count (L.seen look.now) res.now) depth) }
{
    let mut room = MOST_RESOURCES - 1;
    let mut level = Vec::new(alloc);
    if !add_kids(alloc, look, res.path(), res, &mut level, room)? {
        return Ok(1);
    }
    for reached in 1..depth {
        room -= level.len();
        let Some(next) = next_level(alloc, look, &level, room)? else {
            return Ok(reached);
        };
        if next.is_empty() {
            return Ok(depth);
        }
        level = next;
    }
    Ok(depth)
}

/// The depth to ask for instead of one above 1 that shows more than 1,000 resources.
pub(crate) fn depth_instead<L: Look>(
    alloc: Global,
    look: &L,
    res: &Res<'_>,
    depth: u32,
) -> Mem<Option<u32>>
    ensures { IfOk result (λ instead. instead ≡ depth_instead (shown_count (L.seen look.now) res.now) depth) }
{
    if depth <= 1 {
        return Ok(None);
    }
    let fitting = greatest_fitting(alloc, look, res, depth)?;
    if fitting < depth {
        return Ok(Some(fitting));
    }
    Ok(None)
}
