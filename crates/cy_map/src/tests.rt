// What the contracts leave open: that a mapper is made with ample memory, and the paths and refusals of tables that were
// worked out by hand.
use super::*;
use cy_bytes::Bytes;
use std::alloc::{AllocError, Global};
use std::test::Fail;

/// Rules with these patterns. The number of the component is the place of the rule, and the even ones may process
/// asynchronously.
fn rules_of(alloc: Global, patterns: &[&[u8]]) -> Result<Vec<Rule>, AllocError> {
    let mut rules = Vec::new(alloc);
    let mut part = 0u32;
    for pattern in patterns {
        rules.push(Rule {
            pattern: Bytes::of(Vec::from_slice(alloc, *pattern)?),
            part,
            can_async: part % 2 == 0,
        })?;
        part = part.saturating_add(1);
    }
    Ok(rules)
}

fn mapper_of(alloc: Global, patterns: &[&[u8]]) -> Result<Mapper, MapFault> {
    let rules = rules_of(alloc, patterns)?;
    if rules.len() > MAX_RULES {
        return Err(MapFault::NoMemory);
    }
    Mapper::new(alloc, &rules)
}

#[test]
fn paths_find_their_rules(rt: HostRuntime) -> Result<(), Fail> {
    let patterns: [&[u8]; 8] = [
        b"/a", b"/x/*", b"/x/y/*", b"*.do", b"/", b"/v//*", b"/x.do/*", b"/q/r.do",
    ];
    let mapper = mapper_of(rt.alloc(), &patterns)?;
    let rows: [(&[u8], u32); 22] = [
        (b"/a", 0),
        (b"/x", 1),
        (b"/x/", 1),
        (b"/x/q.do", 1),
        (b"/x/y", 2),
        (b"/x/y/z", 2),
        (b"/x/yz", 1),
        (b"/xy", 4),
        (b"/q.do", 3),
        (b"/q.s/r.do", 3),
        (b"/q.do/r", 4),
        (b"/q.do.", 4),
        (b"/q.a.do", 3),
        (b"/do", 4),
        (b"/v/", 5),
        (b"/v//", 5),
        (b"/v", 4),
        (b"/x.do", 6),
        (b"/q/r.do", 7),
        (b"/b", 4),
        (b"*", 4),
        (b"", 4),
    ];
    for (path, part) in rows {
        let expected = Found {
            part,
            can_async: part % 2 == 0,
        };
        assert_eq!(rt; mapper.find(path), Some(expected), "{path:?}");
    }
    Ok(())
}

#[test]
fn a_path_that_no_rule_serves_finds_none(rt: HostRuntime) -> Result<(), Fail> {
    let mapper = mapper_of(rt.alloc(), &[b"/a", b"/x/*", b"*.do"])?;
    let paths: [&[u8]; 8] = [b"/", b"/b", b"/a/", b"/xy", b"/do", b"*", b"", b"x/y"];
    for path in paths {
        assert_eq!(rt; mapper.find(path), None, "{path:?}");
    }
    assert_eq!(rt; mapper.find(b"/x/*.d"), mapper.find(b"/x"));
    let below_all = mapper_of(rt.alloc(), &[b"/*"])?;
    assert!(rt; below_all.find(b"/").is_some());
    assert!(rt; below_all.find(b"/x/y").is_some());
    assert_eq!(rt; below_all.find(b"*"), None);
    assert_eq!(rt; below_all.find(b""), None);
    assert_eq!(rt; mapper_of(rt.alloc(), &[])?.find(b"/"), None);
    Ok(())
}

#[test]
fn bad_patterns_and_repeated_rules_are_refused(rt: HostRuntime) -> Result<(), Fail> {
    let bad = |i| Some(MapFault::BadPattern { i });
    let twice = |i, j| Some(MapFault::RuleTwice { i, j });
    let rows: [(&[&[u8]], Option<MapFault>); 24] = [
        (&[b"/a", b"/b", b"/a"], twice(0, 2)),
        (&[b"/a", b"/b", b"/b", b"/a"], twice(1, 2)),
        (&[b"/a", b"/b", b"/a", b"/a"], twice(0, 2)),
        (&[b"/a", b"/a", b"x"], bad(2)),
        (&[b"x"], bad(0)),
        (&[b"/", b"", b"x"], bad(1)),
        (&[b"//*"], bad(0)),
        (&[b"*"], bad(0)),
        (&[b"*."], bad(0)),
        (&[b"*.a.b"], bad(0)),
        (&[b"*.a/b"], bad(0)),
        (&[b"*.*"], bad(0)),
        (&[b"/*.do"], bad(0)),
        (&[b"/a*"], bad(0)),
        (&[b"/*/*"], bad(0)),
        (&[b"x/*"], bad(0)),
        (&[b"/x/*/"], bad(0)),
        (&[b"a*.b"], bad(0)),
        (
            &[b"/", b"/*", b"/a", b"/a/", b"/a/*", b"*.a", b"//", b"/.a"],
            None,
        ),
        (&[b"/x//*", b"///*", b"/x/y/*"], None),
        (&[b"*.a", b"*.b", b"*.a"], twice(0, 2)),
        (&[b"/*", b"/*"], twice(0, 1)),
        (&[b"/", b"/x", b"/"], twice(0, 2)),
        (&[], None),
    ];
    for (row, (patterns, expected)) in rows.iter().enumerate() {
        let fault = mapper_of(rt.alloc(), *patterns).err();
        assert_eq!(rt; fault, *expected, "row {row}");
    }
    Ok(())
}

#[test]
fn patterns_are_told_from_other_texts(rt: HostRuntime) {
    let patterns: [&[u8]; 5] = [b"/", b"/a", b"/*", b"/x//*", b"*.e"];
    for (row, text) in patterns.iter().enumerate() {
        assert!(rt; is_pattern(text), "pattern {row}");
    }
    let others: [&[u8]; 7] = [b"", b"a", b"*", b"//*", b"/a*", b"*.", b"*.a.b"];
    for (row, text) in others.iter().enumerate() {
        assert!(rt; !is_pattern(text), "other {row}");
    }
}

#[test]
fn faults_are_printed(rt: HostRuntime) -> Result<(), Fail> {
    let bad = MapFault::BadPattern { i: 3 };
    let twice = MapFault::RuleTwice { i: 1, j: 2 };
    let no_memory = MapFault::NoMemory;
    let text = format!(in rt.alloc(); "{bad}; {twice}; {no_memory}")?;
    assert_eq!(rt;
        text.as_str(),
        "bad pattern in rule 3; the pattern of rule 1 again in rule 2; out of memory"
    );
    Ok(())
}

#[test]
fn laws_are_called() {
    exact_rule_is_found();
    longest_prefix_is_found();
}
