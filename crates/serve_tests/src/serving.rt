//! What a world in memory is told by a server of one page before the standard farm, whose disk is in memory too.
ghost use Rattle.std.specs.Prelude.{◌<◌};

use crate::pages::OnePage;
use any_config::{Farm, STANDARD_FARM, farm_of, read_any};
use connections::ConnectionId;
use front::Front;
use outside_world::{Happening, HappeningList, MemWorld, may_come};
use resource_tree::Tree;
use serve_loop::{ServeEnd, serve};
use sp_base::{ByteBuf, CallList, Mem, TextBuf};
use sp_outside::MemDisk;
use std::alloc::Global;
use std::hash::RandomState;

/// The answer that gives the page.
pub(crate) const PAGE: &str =
    "HTTP/1.1 200 OK\r\nContent-Type: text/plain\r\nContent-Length: 4\r\n\r\npage";

/// A happening of the connection with this number.
#[derive(Clone, Copy, Drop)]
pub(crate) enum Row<'a> {
    Opened(u32),
    Piece(u32, &'a [u8]),
    Gone(u32),
}

fn happening(alloc: Global, row: &Row<'_>) -> Mem<Happening> {
    match row {
        Row::Opened(number) => {
            let peer = TextBuf::of(alloc, "127.0.0.1")?;
            Ok(Happening::Opened(ConnectionId::new(*number), peer))
        }
        Row::Piece(number, bytes) => {
            let bytes = ByteBuf::of(alloc, bytes)?;
            Ok(Happening::Piece(ConnectionId::new(*number), bytes))
        }
        Row::Gone(number) => Ok(Happening::Gone(ConnectionId::new(*number))),
    }
}

pub(crate) fn happenings(alloc: Global, rows: &[Row<'_>]) -> Mem<HappeningList> {
    let mut list = HappeningList::new(alloc);
    for row in rows {
        list.push(happening(alloc, row)?)?;
    }
    Ok(list)
}

pub(crate) fn one_call(alloc: Global, number: u64) -> Mem<CallList> {
    let mut list = CallList::new(alloc);
    list.push(number)?;
    Ok(list)
}

/// Clients from whom this comes, of whom this call of `next` fails, and this one that sends. A call of number 0 never comes.
pub(crate) fn world_of(
    alloc: Global,
    happenings: HappeningList,
    next_fails: u64,
    send_fails: u64,
) -> Mem<Option<MemWorld>> {
    let next_fails = one_call(alloc, next_fails)?;
    let send_fails = one_call(alloc, send_fails)?;
    if !may_come(&happenings) {
        return Ok(None);
    }
    Ok(Some(MemWorld::new(alloc, happenings, next_fails, send_fails)))
}

fn standard_farm(alloc: Global) -> Option<Farm> {
    let Ok(top) = read_any(alloc, STANDARD_FARM.as_bytes()) else {
        return None;
    };
    farm_of(alloc, &top).ok()
}

fn one_page(alloc: Global, seeds: RandomState) -> Option<OnePage> {
    match Tree::new(alloc, seeds) {
        Ok(tree) => Some(OnePage { tree }),
        Err(_) => None,
    }
}

/// A server of the page over the files of a disk.
pub(crate) fn front_over(
    alloc: Global,
    seeds: RandomState,
    disk: &mut MemDisk,
) -> Option<Front<OnePage>> {
    let farm = standard_farm(alloc)?;
    let renderer = one_page(alloc, seeds)?;
    Front::new(alloc, renderer, farm, disk).ok()
}

/// Serves so many turns over no files.
pub(crate) fn served(
    alloc: Global,
    seeds: RandomState,
    world: &mut MemWorld,
    turns: u64,
) -> Option<ServeEnd>
    requires { 0 < turns }
{
    let mut disk = MemDisk::new(alloc);
    let mut front = front_over(alloc, seeds, &mut disk)?;
    let end = serve(alloc, &mut front, &mut disk, world, turns);
    drop(front.end());
    Some(end)
}
