//! The places of faults of a body. Bodies are posted through the program (examples/runs/post_forms, post_pairs), which doesn't tell places.
use form_input::{FormFault, read_form};
use std::alloc::Global;

const KIND: &str = "multipart/form-data; boundary=B";

// Whether a body is refused with this fault.
fn refuses(alloc: Global, kind: &str, body: &[u8], wanted: FormFault) -> bool {
    matches!(read_form(alloc, kind, body), Err(fault) if fault == wanted)
}

// The kind of a body, the body, and its fault.
const REFUSED: &[(&str, &str, FormFault)] = &[
    ("text/plain", "x", FormFault::WrongKind),
    ("multipart/form-data", "--B--", FormFault::NoBoundary),
    (KIND, "--B\n--B--\n", FormFault::BadPart(10)),
    (KIND, "\r\n--B\r\n\r\n\r\nx\r\n--B--", FormFault::BadPart(2)),
];

#[test]
fn refuses_forms(rt: HostRuntime) {
    for (kind, body, wanted) in REFUSED {
        assert!(rt; refuses(rt.alloc(), *kind, body.as_bytes(), *wanted));
    }
}

const WHOLE: &[u8] = b"--B\r\nContent-Disposition: form-data; name=a\r\n\r\nx\r\n--B--\r\n";

// Whether a body that was cut is refused at its end, or is whole.
fn answers_cut(alloc: Global, cut: &[u8], is_whole: bool) -> bool {
    match read_form(alloc, KIND, cut) {
        Ok(_) => is_whole,
        Err(fault) => !is_whole && fault == FormFault::BadPart(cut.len()),
    }
}

// Each cut of a body lacks its end, but for the cut before its last line end.
#[test]
fn refuses_each_cut(rt: HostRuntime) {
    for n in 0..WHOLE.len() {
        assert!(rt; answers_cut(rt.alloc(), &WHOLE[..n], n + 2 == WHOLE.len()));
    }
}
