//! Answers by which the server says that it is at fault, and what led to them.

/// How such an answer begins.
const FAULT: &[u8] = b"HTTP/1.1 5";

/// Where the status begins and ends in it.
const STATUS: usize = 9;

const PHRASE: usize = 12;

/// How an answer ends after which the connection closes: the head, as it comes alone after a HEAD, and the body of a 503.
const CLOSING: &[u8] = b"Connection: close\r\n\r\n";

const CLOSING_503: &[u8] = b"Connection: close\r\n\r\n503 Service Unavailable\n";

/// What an answer is to, where that is known.
#[derive(Clone, Copy, Drop)]
pub enum AnswerTo {
    Flush,
    Page,
    Unknown,
}

/// The status of an answer of 500 and above.
pub fn fault_status(answer: &[u8]) -> Option<&str> {
    if !answer.starts_with(FAULT) {
        return None;
    }
    str::from_utf8(answer.get(STATUS..PHRASE)?).ok()
}

/// What led to an answer of this status, or what may have.
pub fn cause_of(status: &str, answer: &[u8], to: AnswerTo) -> &'static str {
    match status {
        "500" => cause_of_500(to),
        "502" => "the answer was lost",
        "503" => cause_of_503(answer, to),
        "507" => "out of memory",
        _ => "unknown",
    }
}

fn cause_of_500(to: AnswerTo) -> &'static str {
    match to {
        AnswerTo::Flush => "the disk failed",
        AnswerTo::Page => "a script without a reading, or a page over its limits",
        AnswerTo::Unknown => {
            "a script without a reading, a page over its limits, or the disk at a flush"
        }
    }
}

// A flush that finds no place leaves its connection open, but where its client asked otherwise.
fn cause_of_503(answer: &[u8], to: AnswerTo) -> &'static str {
    let closes = answer.ends_with(CLOSING) || answer.ends_with(CLOSING_503);
    match (closes, to) {
        (false, _) | (true, AnswerTo::Flush) => "256 flushes are unfinished",
        (true, AnswerTo::Page) => "64 requests of this connection wait",
        (true, AnswerTo::Unknown) =>
            "64 requests of this connection wait, or 256 flushes are unfinished",
    }
}
