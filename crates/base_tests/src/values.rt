//! Faults of paths and of typed values, which the program doesn't tell, and paths as the cache has them.
use sp_base::{Hint, HintedType, Path, PathFault, TextBuf, TextList, Value, ValueFault};
use std::alloc::Global;

fn is_refused(alloc: Global, text: &str, wanted: PathFault) -> bool {
    matches!(Path::read(alloc, text), Err(fault) if fault == wanted)
}

const REFUSED: &[(&str, PathFault)] = &[
    ("", PathFault::NotAbsolute),
    ("a/b", PathFault::NotAbsolute),
    ("//", PathFault::EmptySegment),
    ("/a/", PathFault::EmptySegment),
    ("/./a//b", PathFault::EmptySegment),
    ("/a/../b", PathFault::DotSegment),
    ("/.", PathFault::DotSegment),
    (
        "/a/xxxxxxxxxxxxxxxxxxxxxxxxxxxxxxxxxxxxxxxxxxxxxxxxxxxxxxxxxxxxxxxxxxxxxxxxxxxxxxxxxxxxxxxxxxxxxxxxxxxxxxxxxxxxxxxxxxxxxxxxxxxxxxxxxxxxxxxxxxxxxxxxxxxxxxxxxxxxxxxxxxxxxxxxxxxxxxxxxxxxxxxxxxxxxxxxxxxxxxxxx",
        PathFault::LongSegment(1),
    ),
    (
        "/a/a/a/a/a/a/a/a/a/a/a/a/a/a/a/a/a/a/a/a/a/a/a/a/a/a/a/a/a/a/a/a/a/a/a/a/a/a/a/a/a/a/a/a/a/a/a/a/a/a/a/a/a/a/a/a/a/a/a/a/a/a/a/a/a",
        PathFault::TooDeep,
    ),
];

#[test]
fn refuses_paths(rt: HostRuntime) {
    for (text, wanted) in REFUSED {
        assert!(rt; is_refused(rt.alloc(), *text, *wanted));
    }
}

fn is_mangled(alloc: Global, path: &Path, wanted: &str) -> bool {
    matches!(path.mangled(alloc), Ok(mangled) if mangled.as_text() == wanted)
}

fn mangles(alloc: Global, text: &str, wanted: &str) -> bool {
    match Path::read_or_none(alloc, text) {
        Ok(Some(path)) => is_mangled(alloc, &path, wanted),
        _ => false,
    }
}

const MANGLED: &[(&str, &str)] = &[
    ("/", "/"),
    ("/a/jcr:content/sling:x", "/a/_jcr_content/_sling_x"),
    ("/nt:a/cq:b:c", "/_nt_a/_cq_b:c"),
    ("/jcr:/x:y/_jcr_a", "/jcr:/x:y/_jcr_a"),
];

#[test]
fn mangles_paths(rt: HostRuntime) {
    for (text, wanted) in MANGLED {
        assert!(rt; mangles(rt.alloc(), *text, *wanted));
    }
}

fn pushes(alloc: Global, words: &mut TextList, word: &str) -> bool {
    match TextBuf::of(alloc, word) {
        Ok(word) => words.push(word).is_ok(),
        Err(_) => false,
    }
}

fn pushes_all(alloc: Global, words: &mut TextList, texts: &[&str]) -> bool {
    for text in texts {
        if !pushes(alloc, words, *text) {
            return false;
        }
    }
    true
}

fn is_fault(alloc: Global, hint: Hint, words: &TextList, wanted: ValueFault) -> bool {
    matches!(Value::typed(alloc, hint, words), Err(fault) if fault == wanted)
}

// Whether these words aren't of this kind, with this fault.
fn are_refused(alloc: Global, hint: Hint, texts: &[&str], wanted: ValueFault) -> bool {
    let mut words = TextList::new(alloc);
    pushes_all(alloc, &mut words, texts) && is_fault(alloc, hint, &words, wanted)
}

const NUMBERS: Hint = Hint {
    hinted: HintedType::Long,
    many: true,
};

const TRUTH: Hint = Hint {
    hinted: HintedType::Truth,
    many: false,
};

#[test]
fn refuses_words(rt: HostRuntime) {
    assert!(rt;
        are_refused(
            rt.alloc(),
            NUMBERS,
            &["1", "abc", "x"],
            ValueFault::NotANumber(1)
        )
    );
    assert!(rt; are_refused(rt.alloc(), TRUTH, &[], ValueFault::WrongCount(0)));
}
