//! Answers that the publisher doesn't give, as bytes. Those that it gives are stored runs (examples/runs).
use http_front::{Framing, answer_bytes};
use sp_base::{Answer, Mark};
use std::alloc::Global;
use test_values::answer_of;

// An answer's status, media type, mark and body, and its bytes.
type AnswerRow<'a> = (u16, &'a str, Mark, &'a str, &'a str);

const ANSWERS: &[AnswerRow<'_>] = &[
    (
        405,
        "a\r\nb",
        Mark::MustRevalidate,
        "x",
        "HTTP/1.1 405 Method Not Allowed\r\nContent-Type: a  b\r\nAllow: GET, HEAD, POST\r\nCache-Control: must-revalidate\r\nContent-Length: 1\r\n\r\nx",
    ),
    (
        204,
        "",
        Mark::NoCache,
        "x",
        "HTTP/1.1 204 No Content\r\nCache-Control: no-cache\r\n\r\n",
    ),
];

const PLAIN: Framing = Framing {
    head_only: false,
    close: false,
};

fn are_bytes(alloc: Global, answer: Answer, wanted: &str) -> bool {
    matches!(answer_bytes(alloc, PLAIN, answer), Ok(bytes) if bytes.is(wanted.as_bytes()))
}

fn is_written(alloc: Global, row: &AnswerRow<'_>) -> bool {
    let (status, kind, mark, body, wanted) = *row;
    match answer_of(alloc, status, kind, "", mark, body) {
        Ok(answer) => are_bytes(alloc, answer, wanted),
        Err(_) => false,
    }
}

#[test]
fn writes_answers(rt: HostRuntime) {
    for row in ANSWERS {
        assert!(rt; is_written(rt.alloc(), row));
    }
}
