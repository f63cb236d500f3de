//! How many scripts and resources are put into a page, how often the contents of lists stand in it, and how long it is.
use crate::site::{Site, page_len, push_all, push_times};
use sp_base::Mem;
use std::alloc::Global;
use std::hash::RandomState;
use std::test::Fail;

// `one` writes a byte, `two` puts in `one`, `rounds` has 1,000,000 contents of lists, `long` writes a property, and `more` has a variable with
// the text of one that it was given.
const SCRIPTS: &str =
    r#","one.html":{"jcr:content":{"jcr:data":"1"}},"two.html":{"jcr:content":{"jcr:data":"<i data-sly-unwrap data-sly-include='one.html'></i>"}},"rounds.html":{"jcr:content":{"jcr:data":"<p data-sly-unwrap data-sly-list='${properties.items}'><q data-sly-unwrap data-sly-list='${properties.fewer}'></q></p>"}},"long.html":{"jcr:content":{"jcr:data":"${properties.long}"}},"more.html":{"jcr:content":{"jcr:data":"<q data-sly-list.more='${[item]}'></q>"}}"#;

// A part so often, between two texts.
fn repeated(alloc: Global, start: &str, part: &str, times: usize, end: &str) -> Mem<String> {
    let mut text = String::new(alloc);
    push_all(&mut text, &[start])?;
    push_times(&mut text, part, times)?;
    push_all(&mut text, &[end])?;
    Ok(text)
}

fn repeated_len(
    alloc: Global,
    seeds: RandomState,
    members: &str,
    row: &(&str, usize, &str, Option<usize>),
) -> Mem<Option<usize>> {
    let script = repeated(alloc, "", row.0, row.1, row.2)?;
    let site = Site {
        script: script.as_str(),
        members,
        scripts: SCRIPTS,
    };
    page_len(alloc, seeds, &site)
}

// The first row that doesn't hold, of a site with these members: a script of a part so often and an end, and how many bytes its page has, if
// it has one.
fn other_len(
    alloc: Global,
    seeds: RandomState,
    members: &str,
    rows: &[(&str, usize, &str, Option<usize>)],
) -> Option<usize> {
    for (place, row) in rows.iter().enumerate() {
        if !matches!(repeated_len(alloc, seeds, members, row), Ok(len) if len == row.3) {
            return Some(place);
        }
    }
    None
}

const ONE: &str = "<i data-sly-unwrap data-sly-include='one.html'></i>";

const TWO: &str = "<i data-sly-unwrap data-sly-include='two.html'></i>";

const MISSING: &str = "<i data-sly-unwrap data-sly-include='missing.html'></i>";

const PART: &str = "<i data-sly-unwrap data-sly-resource='part'></i>";

const INCLUSIONS: [(&str, usize, &str, Option<usize>); 9] = [
    (ONE, 1000, "", Some(1000)),
    (ONE, 1001, "", None),
    (ONE, 999, MISSING, Some(999)),
    (ONE, 1000, MISSING, None),
    (ONE, 999, PART, Some(1002)),
    (ONE, 1000, PART, None),
    (TWO, 500, "", Some(500)),
    (TWO, 500, MISSING, None),
    (TWO, 501, "", None),
];

#[test]
fn a_thousand_are_put_in(rt: HostRuntime) -> Result<(), Fail> {
    let seeds = RandomState::new(&rt)?;
    assert_eq!(rt; other_len(rt.alloc(), seeds, "", &INCLUSIONS), None);
    Ok(())
}

const ROUNDS: &str = "<i data-sly-unwrap data-sly-include='rounds.html'></i>";

const ONE_ROUND: &str = "<p data-sly-unwrap data-sly-list='${properties.one}'></p>";

const CONTENTS: [(&str, usize, &str, Option<usize>); 2] = [
    (ROUNDS, 1, "", Some(0)),
    (ROUNDS, 1, ONE_ROUND, None),
];

// A property `items` with 1,000 texts, and `fewer` with 999.
fn lists(alloc: Global) -> Mem<String> {
    let mut text = repeated(
        alloc,
        r#","items":["x""#,
        r#","x""#,
        999,
        r#"],"fewer":["x""#,
    )?;
    push_times(&mut text, r#","x""#, 998)?;
    push_all(&mut text, &["]"])?;
    Ok(text)
}

#[test]
fn contents_stand_a_million_times(rt: HostRuntime) -> Result<(), Fail> {
    let seeds = RandomState::new(&rt)?;
    let Ok(members) = lists(rt.alloc()) else {
        return Ok(());
    };
    assert_eq!(rt;
        other_len(rt.alloc(), seeds, members.as_str(), &CONTENTS),
        None
    );
    Ok(())
}

const LONG: &str = "${properties.long}";

const LONG_SCRIPT: &str = "<i data-sly-unwrap data-sly-include='long.html'></i>";

const TEXTS: [(&str, usize, &str, Option<usize>); 6] = [
    (LONG, 4, "", Some(4_194_304)),
    (LONG, 4, "y", None),
    (LONG_SCRIPT, 4, "", Some(4_194_304)),
    (LONG_SCRIPT, 4, "y", None),
    (LONG_SCRIPT, 3, LONG, Some(4_194_304)),
    (LONG_SCRIPT, 4, ONE, None),
];

const SIXTY_FOUR: &str = "xxxxxxxxxxxxxxxxxxxxxxxxxxxxxxxxxxxxxxxxxxxxxxxxxxxxxxxxxxxxxxxx";

// A property `long` of 1,048,576 bytes.
fn long(alloc: Global) -> Mem<String> {
    repeated(alloc, r#","long":""#, SIXTY_FOUR, 16_384, "\"")
}

#[test]
fn texts_have_four_megabytes(rt: HostRuntime) -> Result<(), Fail> {
    let seeds = RandomState::new(&rt)?;
    let Ok(members) = long(rt.alloc()) else {
        return Ok(());
    };
    assert_eq!(rt;
        other_len(rt.alloc(), seeds, members.as_str(), &TEXTS),
        None
    );
    Ok(())
}

const THREE: &str =
    "<p data-sly-list='${[[properties.long, properties.long, properties.long]]}'></p>";

const FOUR: &str =
    "<p data-sly-list='${[[properties.long, properties.long, properties.long, properties.long]]}'></p>";

const ONE_AND_MORE: &str =
    "<p data-sly-list='${[properties.long]}' data-sly-include='more.html'></p>";

const TWO_AND_MORE: &str =
    "<p data-sly-list='${[[properties.long, properties.long]]}' data-sly-include='more.html'></p>";

const VARIABLES: [(&str, usize, &str, Option<usize>); 4] = [
    (THREE, 2, "", Some(14)),
    (FOUR, 1, "", None),
    (ONE_AND_MORE, 2, "", Some(28)),
    (TWO_AND_MORE, 1, "", None),
];

#[test]
fn variables_have_four_megabytes(rt: HostRuntime) -> Result<(), Fail> {
    let seeds = RandomState::new(&rt)?;
    let Ok(members) = long(rt.alloc()) else {
        return Ok(());
    };
    assert_eq!(rt;
        other_len(rt.alloc(), seeds, members.as_str(), &VARIABLES),
        None
    );
    Ok(())
}
