//! The requests that are to be answered.

use crate::fault_answers::AnswerTo;
use crate::head_in_pieces::{HeadInPieces, HeadLine};
use crate::request_head::{asked_in, path_in};
use connection_ids::ConnectionId;
use std::alloc::Global;

/// The most bytes of a method and a target that are told.
const MOST_TOLD: usize = 200;

/// Connections with this number and above are not looked at: a server has none.
const MOST_CONNECTIONS: usize = 1_024;

/// How an answer begins after which another comes to the same request.
const INTERIM: &[u8] = b"HTTP/1.1 1";

/// The path of a flush, which may have a slash at its end. It may be spelled with escapes too.
const FLUSH: &[u8] = b"/dispatcher/invalidate.cache";

// What is known of the requests of a connection.
#[derive(Clone, Copy, Drop)]
enum Known {
    /// All that came were answered, and what comes next begins one.
    Answered,
    /// The head of the first that isn't answered goes on.
    Begun,
    /// The first that isn't answered, and how many bytes of its body are to come; none where what comes after it isn't known.
    Asked(Option<usize>),
    Nothing,
}

#[derive(Drop)]
struct Connection {
    known: Known,
    // The head of what was asked last.
    head: HeadInPieces,
    // The method and the target in it. Printable ASCII alone, and empty before its first line came, and where there was no memory for it.
    text: String,
    // What an answer to it is to.
    to: AnswerTo,
}

fn printed(byte: u8) -> char {
    match byte {
        b' '..=b'~' => byte as char,
        _ => '?',
    }
}

// What an answer to this method and this target is to.
fn answer_to(asked: &[u8]) -> AnswerTo {
    let Some(path) = path_in(asked) else {
        return AnswerTo::Unknown;
    };
    if path.contains(&b'%') {
        AnswerTo::Unknown
    } else if path.strip_suffix(b"/".as_slice()).unwrap_or(path) == FLUSH {
        AnswerTo::Flush
    } else {
        AnswerTo::Page
    }
}

// Keeps what is told of a request: a text with a hole would name another.
fn print(text: &mut String, asked: &[u8]) {
    for byte in asked.iter().take(MOST_TOLD) {
        if text.push(printed(*byte)).is_err() {
            text.clear();
            return;
        }
    }
}

impl Connection {
    fn new(alloc: Global) -> Connection {
        Connection {
            known: Known::Nothing,
            head: HeadInPieces::new(alloc),
            text: String::new(alloc),
            to: AnswerTo::Unknown,
        }
    }

    fn see(&mut self, piece: &[u8]) {
        self.known = match self.known {
            Known::Answered => {
                self.begin();
                self.read_head(piece)
            }
            Known::Begun => self.read_head(piece),
            Known::Asked(Some(left)) => Known::Asked(left.checked_sub(piece.len())),
            known => known,
        };
    }

    // Before the first piece of a request.
    fn begin(&mut self) {
        self.head.begin();
        self.text.clear();
        self.to = AnswerTo::Unknown;
    }

    // Looks at a piece in which a head begins or goes on.
    fn read_head(&mut self, piece: &[u8]) -> Known {
        let mut rest = piece;
        for _ in 0..piece.len() {
            let Some(end) = rest.iter().position(|byte| *byte == b'\n') else {
                break;
            };
            let (part, after) = rest.split_at(end);
            rest = after.get(1..).unwrap_or(after);
            self.head.keep(part);
            if let Some(known) = self.end_line(rest.len()) {
                return known;
            }
        }
        self.head.keep(rest);
        Known::Begun
    }

    // Looks at a line whose end came, with so many bytes after it. What is known then, where nothing of the head is to come.
    fn end_line(&mut self, after: usize) -> Option<Known> {
        match self.head.kind() {
            HeadLine::First if !self.note_asked() => return Some(Known::Nothing),
            HeadLine::First | HeadLine::Field => {}
            HeadLine::Last => return Some(Known::Asked(self.head.body_to_come(after))),
        }
        self.head.pass();
        None
    }

    // Notes what the first line of a request asks for, where it is one.
    fn note_asked(&mut self) -> bool {
        let Some(line) = self.head.line() else {
            return false;
        };
        let Some(asked) = asked_in(line) else {
            return false;
        };
        self.to = answer_to(asked);
        print(&mut self.text, asked);
        true
    }

    // What follows an answer begins a request only where nothing else came with what was asked, and all of it came.
    fn note_answer(&mut self) {
        self.known = match self.known {
            Known::Asked(Some(0)) => Known::Answered,
            _ => Known::Nothing,
        };
    }
}

/// For each connection the request that is answered next, where that is known for sure.
#[derive(Drop)]
pub struct OpenRequests {
    // By their numbers.
    connections: Vec<Connection>,
}

impl OpenRequests {
    pub fn new(alloc: Global) -> OpenRequests {
        OpenRequests {
            connections: Vec::new(alloc),
        }
    }

    /// Takes note of a connection that was opened. A number may be that of one that is over.
    pub fn open(&mut self, alloc: Global, conn: ConnectionId) {
        let place = conn.number() as usize;
        if place >= MOST_CONNECTIONS {
            return;
        }
        for _ in self.connections.len()..place + 1 {
            // Without memory for it nothing is known of it.
            if self.connections.push(Connection::new(alloc)).is_err() {
                return;
            }
        }
        if let Some(connection) = self.connections.get_mut(place) {
            connection.known = Known::Answered;
        }
    }

    /// Looks at a piece that was read.
    pub fn see(&mut self, conn: ConnectionId, piece: &[u8]) {
        if let Some(connection) = self.connections.get_mut(conn.number() as usize) {
            connection.see(piece);
        }
    }

    /// Takes note of an answer that was sent.
    pub fn note_answer(&mut self, conn: ConnectionId, answer: &[u8]) {
        if answer.starts_with(INTERIM) {
            return;
        }
        if let Some(connection) = self.connections.get_mut(conn.number() as usize) {
            connection.note_answer();
        }
    }

    /// The method and the target of the request that is answered next, where that is known.
    pub fn asked(&self, conn: ConnectionId) -> Option<&str> {
        let connection = self.connections.get(conn.number() as usize)?;
        match connection.known {
            Known::Begun | Known::Asked(_) if !connection.text.is_empty() => {
                Some(connection.text.as_str())
            }
            _ => None,
        }
    }

    /// What the next answer is to.
    pub fn answer_to(&self, conn: ConnectionId) -> AnswerTo {
        let Some(connection) = self.connections.get(conn.number() as usize) else {
            return AnswerTo::Unknown;
        };
        match connection.known {
            Known::Begun | Known::Asked(_) => connection.to,
            _ => AnswerTo::Unknown,
        }
    }
}
