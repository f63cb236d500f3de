//! The lines.

use crate::fault_answers::{cause_of, fault_status};
use crate::object_count::object_count;
use crate::open_requests::OpenRequests;
use any_config::read_any;
use connection_ids::ConnectionId;
use farm_members::passed_members;
use std::alloc::Global;
use std::cell::Cell;
use std::env::Env;
use std::fs::{File, Files};
use std::io::{self, Eprint, Read};

/// The folder of the pages, and the file of the session's number in it.
const DOCROOT: &str = "docroot";

const EPOCH: &str = "docroot/.epoch";

/// What stands before the number.
const EPOCH_FORM: &str = "epoch 1 ";

/// The most bytes of that file that are read, and of the path of a folder.
const LONGEST_EPOCH: u64 = 64;

const LONGEST_FOLDER: usize = 4_096;

/// Writes what an operator is told. What can't be found out is left out, and what can't be written is passed over.
#[derive(Drop)]
pub struct Report<R: Eprint + Files + Env + Drop> {
    rt: R,
    port: u16,
    // The nodes of the content that was read last.
    nodes: Cell<usize>,
}

impl<R: Eprint + Files + Env + Drop> Report<R> {
    /// For a server at this port.
    pub fn new(rt: R, port: u16) -> Report<R> {
        Report {
            rt,
            port,
            nodes: Cell::new(0),
        }
    }

    /// Remembers how many nodes a content has.
    pub(crate) fn content(&self, json: &[u8]) {
        self.nodes.set(object_count(json));
    }

    /// Tells the members of a farm's file that are passed over.
    pub(crate) fn farm(&self, alloc: Global, text: &[u8]) {
        let Ok(file) = read_any(alloc, text) else {
            return;
        };
        let Ok(told) = passed_members(alloc, text, &file) else {
            return;
        };
        for member in told.as_slice() {
            let (name, group) = (member.name.text(), member.group.text());
            let _ = eprintln!(self.rt;
                "sling_dispatch: /{name} of {group}, line {}: this member is passed over",
                member.line
            );
        }
    }

    // The path of the folder of the pages.
    fn folder(&self, alloc: Global) -> Option<String> {
        let mut room = vec![in alloc; 0u8; LONGEST_FOLDER].ok()?;
        let length = self.rt.current_dir(&mut room).ok()?;
        let path = str::from_utf8(room.get(..length)?).ok()?;
        format!(in alloc; "{path}/{DOCROOT}").ok()
    }

    // What the file of the session's number holds.
    fn epoch(&self, alloc: Global) -> io::Result<String> {
        let mut text = String::new(alloc);
        File::open(&self.rt, EPOCH)?
            .take(LONGEST_EPOCH)
            .read_to_string(&mut text)?;
        Ok(text)
    }

    /// Tells that clients may come.
    pub(crate) fn listens(&self, alloc: Global, beginning: &str) {
        let folder = self.folder(alloc).unwrap_or(String::new(alloc));
        let text = self.epoch(alloc).unwrap_or(String::new(alloc));
        let epoch = text.as_str().trim_end();
        let epoch = epoch.strip_prefix(EPOCH_FORM).unwrap_or("unknown");
        let nodes = self.nodes.get();
        let _ = eprintln!(self.rt;
            "sling_dispatch: listens at 127.0.0.1:{}, {beginning}, epoch {epoch}, {nodes} nodes, pages in {}",
            self.port,
            folder.as_str()
        );
    }

    /// Tells an answer on a connection, where its status is 500 and above. The request is named where that is known which it is to.
    pub(crate) fn answer(&self, conn: ConnectionId, answer: &[u8], open: &OpenRequests) {
        let Some(status) = fault_status(answer) else {
            return;
        };
        let cause = cause_of(status, answer, open.answer_to(conn));
        let _ = match open.asked(conn) {
            Some(asked) => eprintln!(self.rt; "sling_dispatch: {status} to {asked}: {cause}"),
            None => eprintln!(self.rt;
                "sling_dispatch: {status} on connection {}: {cause}",
                conn.number()
            ),
        };
    }

    /// Tells how serving ended.
    pub(crate) fn end(&self, status: u8) {
        let _ = eprintln!(self.rt; "sling_dispatch: ended with status {status}");
    }
}
