//! Whether happenings may come one after the other.
ghost use Rattle.std.specs.Prelude.{◌≡◌, ◌↔◌, IsTrue, Some, map};
ghost use Rattle.outside_world.specs.declared.world.WorldEntry.TheVariants.{Came};
ghost use Rattle.outside_world.specs.Comings.{MayCome};
ghost use Rattle.outside_world.specs.Worlds.{HasSize, IsNewsTo, is_connected, open_after_news};

use crate::{Happening, HappeningList, LONGEST_PIECE};
use connection_ids::ConnectionId;

/// Whether happenings may come one after the other in a world in memory: each piece has 1 to `LONGEST_PIECE` bytes, and no connection
/// opens with the number of one that opened before and isn't gone since.
pub fn may_come(happenings: &HappeningList) -> bool
    ensures { IsTrue result ↔ MayCome happenings.now }
{
    are_news(happenings.as_slice())
}

fn are_news(happenings: &[Happening]) -> bool
    ensures { IsTrue result ↔ MayCome happenings.now }
{
    for (place, happening) in happenings.iter().enumerate() {
        if !is_news(&happenings[..place], happening) {
            return false;
        }
    }
    true
}

// Whether a happening may come after those.
fn is_news(before: &[Happening], happening: &Happening) -> bool
    ensures { IsTrue result ↔ IsNewsTo (Some (map Came before.now)) happening.now }
{
    match happening {
        Happening::Opened(conn, _) => !is_open_after(before, *conn),
        Happening::Piece(_, bytes) => {
            let length = bytes.bytes().len();
            length >= 1 && length <= LONGEST_PIECE
        }
        Happening::Gone(_) | Happening::Quiet => true,
    }
}

fn is_open_after(before: &[Happening], conn: ConnectionId) -> bool
    ensures { result ≡ is_connected (map Came before.now) conn }
{
    let mut is_open = false;
    for happening in before {
        is_open = follows(conn, is_open, happening);
    }
    is_open
}

// Whether a connection is open after a happening, where it was so or not before.
fn follows(conn: ConnectionId, was_open: bool, happening: &Happening) -> bool
    ensures { result ≡ open_after_news conn was_open happening.now }
{
    match happening {
        Happening::Opened(other, _) => *other == conn || was_open,
        Happening::Gone(other) => *other != conn && was_open,
        Happening::Piece(_, _) | Happening::Quiet => was_open,
    }
}
