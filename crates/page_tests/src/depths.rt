//! How deep elements, scripts and resources stand in one another in a page.
use crate::site::{Site, page_len, push_all, push_times};
use sp_base::Mem;
use std::alloc::Global;
use std::hash::RandomState;
use std::test::Fail;

// What stands in itself so often: what comes first, what opens it, what stands in the middle, and what closes it.
#[derive(Clone, Copy, Drop)]
struct Nest<'n> {
    start: &'n str,
    open: &'n str,
    middle: &'n str,
    close: &'n str,
}

fn nested(alloc: Global, nest: &Nest<'_>, times: usize) -> Mem<String> {
    let mut text = String::new(alloc);
    push_all(&mut text, &[nest.start])?;
    push_times(&mut text, nest.open, times)?;
    push_all(&mut text, &[nest.middle])?;
    push_times(&mut text, nest.close, times)?;
    Ok(text)
}

const ELEMENTS: Nest<'static> = Nest {
    start: "",
    open: "<p data-sly-unwrap>",
    middle: "x",
    close: "</p>",
};

// Scripts that put in the one below them, and the last of them.
const SCRIPTS: Nest<'static> = Nest {
    start: ",",
    open: r#""d":{"t.html":{"jcr:content":{"jcr:data":"x<i data-sly-unwrap data-sly-include='d/t.html'></i>"}},"#,
    middle: r#""d":{"t.html":{"jcr:content":{"jcr:data":"y"}}}"#,
    close: "}",
};

// Resources whose script puts in the one below them, and a last one that doesn't.
const RESOURCES: Nest<'static> = Nest {
    start: ",",
    open: r#""a":{"sling:resourceType":"s/page/deep","#,
    middle: r#""a":{"sling:resourceType":"s/part","title":"T"}"#,
    close: "}",
};

const DEEP: &str =
    r#","deep":{"html.html":{"jcr:content":{"jcr:data":"x<i data-sly-unwrap data-sly-resource='a'></i>"}}}"#;

fn elements_len(alloc: Global, seeds: RandomState, times: usize) -> Mem<Option<usize>> {
    let script = nested(alloc, &ELEMENTS, times)?;
    let site = Site {
        script: script.as_str(),
        members: "",
        scripts: "",
    };
    page_len(alloc, seeds, &site)
}

fn scripts_len(alloc: Global, seeds: RandomState, times: usize) -> Mem<Option<usize>> {
    let scripts = nested(alloc, &SCRIPTS, times)?;
    let site = Site {
        script: "<i data-sly-unwrap data-sly-include='d/t.html'></i>",
        members: "",
        scripts: scripts.as_str(),
    };
    page_len(alloc, seeds, &site)
}

fn resources_len(alloc: Global, seeds: RandomState, times: usize) -> Mem<Option<usize>> {
    let members = nested(alloc, &RESOURCES, times)?;
    let site = Site {
        script: "<i data-sly-unwrap data-sly-resource='a'></i>",
        members: members.as_str(),
        scripts: DEEP,
    };
    page_len(alloc, seeds, &site)
}

#[test]
fn elements_stand_thirty_two_deep(rt: HostRuntime) -> Result<(), Fail> {
    let seeds = RandomState::new(&rt)?;
    assert!(rt; matches!(elements_len(rt.alloc(), seeds, 32), Ok(Some(1))));
    assert!(rt; matches!(elements_len(rt.alloc(), seeds, 33), Ok(None)));
    Ok(())
}

#[test]
fn scripts_stand_sixteen_deep(rt: HostRuntime) -> Result<(), Fail> {
    let seeds = RandomState::new(&rt)?;
    assert!(rt; matches!(scripts_len(rt.alloc(), seeds, 15), Ok(Some(16))));
    assert!(rt; matches!(scripts_len(rt.alloc(), seeds, 16), Ok(None)));
    Ok(())
}

#[test]
fn resources_stand_sixteen_deep(rt: HostRuntime) -> Result<(), Fail> {
    let seeds = RandomState::new(&rt)?;
    assert!(rt; matches!(resources_len(rt.alloc(), seeds, 15), Ok(Some(18))));
    assert!(rt; matches!(resources_len(rt.alloc(), seeds, 16), Ok(None)));
    Ok(())
}
