// What the contracts leave open: that scripts are read with ample memory, and which texts are scripts, by tables that were
// worked out by hand.
use super::*;
use cy_event::{Act, Event, Limits, Step};
use cy_map::Rule;
use std::alloc::{AllocError, Global};
use std::test::Fail;

/// The first line of a script, and this text behind it.
fn behind_first_line(alloc: Global, text: &[u8]) -> Result<Vec<u8>, AllocError> {
    let mut script = Vec::from_slice(alloc, b"coyote-script 1\n")?;
    script.extend_from_slice(text)?;
    Ok(script)
}

/// Whether the text is refused behind the first line of a script.
fn is_refused(alloc: Global, text: &[u8]) -> Result<bool, AllocError> {
    let script = behind_first_line(alloc, text)?;
    Ok(matches!(
        read_script(alloc, script.as_slice()),
        Err(ScriptFault::Refused)
    ))
}

/// A script of which two lines, one for each of two connections, write so many bytes.
fn writing(alloc: Global, first: usize, second: usize) -> Result<Vec<u8>, AllocError> {
    let mut text = behind_first_line(alloc, b"act 1 write \"")?;
    for _ in 0..first {
        text.extend_from_slice(b"a")?;
    }
    text.extend_from_slice(b"\"\nact 2 write \"")?;
    for _ in 0..second {
        text.extend_from_slice(b"b")?;
    }
    text.extend_from_slice(b"\"\n")?;
    Ok(text)
}

/// A script with so many rules.
fn with_rules(alloc: Global, count: u32) -> Result<Vec<u8>, Fail> {
    let mut text = behind_first_line(alloc, b"")?;
    for part in 0..count {
        let rule = format!(in alloc; "rule /{part} 0 sync\n")?;
        text.extend_from_slice(rule.as_bytes())?;
    }
    Ok(text)
}

/// A script that admits so many connections, with the numbers from 1 on.
fn with_connections(alloc: Global, count: u32) -> Result<Vec<u8>, Fail> {
    let mut text = behind_first_line(alloc, b"")?;
    for number in 1..=count {
        let admission = format!(in alloc; "admit {number}\n")?;
        text.extend_from_slice(admission.as_bytes())?;
    }
    Ok(text)
}

#[test]
fn lines_of_the_form_are_read(rt: HostRuntime) -> Result<(), Fail> {
    let table: [&[u8]; 20] = [
        // lines that say nothing
        b"",
        b"\n\n#\n# in 1 \"\n#admit 1\n",
        b"#",
        // the least and the greatest values, of which the later replace the former
        b"set maxConnections 1\nset maxConnections 8192\n",
        b"set maxHttpHeaderSize 256\nset maxHttpHeaderSize 8192\n",
        b"set maxHeaderCount 1\nset maxHeaderCount 100\n",
        b"set maxKeepAliveRequests 1\nset maxKeepAliveRequests 2147483647\nset maxKeepAliveRequests -1\n",
        b"set connectionTimeout 1\nset connectionTimeout 86400000\n",
        b"set asyncTimeout 0\nset asyncTimeout 86400000\n",
        b"set maxSwallowSize 0\nset maxSwallowSize 2147483647\n",
        b"set maxTrailerSize 2\nset maxTrailerSize 8192\n",
        // rules, among settings too
        b"rule / 0 async\nrule /* 255 sync\nrule /x/* 0 async\nrule *.e 3 sync\nrule /x 0 sync\n",
        b"rule / 0 async\nset maxHeaderCount 5\n\n# a\nrule /a 1 sync\n",
        // steps in any order, missing or repeated
        b"run 1\nadmit 1\nrun 1\n\nend 1\n# a\nend 1\nreturn 1\n",
        b"in 1 \"\"\nin 1 \" # \\\"\\\\\\x00\\xFf\"\n",
        b"out 1 0\nout 1 18446744073709551615\n",
        b"act 1 write \"\"\nact 1 write \"a\"\n",
        // the last line feed may lack
        b"admit 1",
        b"set maxHeaderCount 5\nadmit 1\nin 1 \"a\"",
        b"admit 1\n#",
    ];
    for (row, text) in table.iter().enumerate() {
        let script = behind_first_line(rt.alloc(), text)?;
        assert!(rt;
            read_script(rt.alloc(), script.as_slice()).is_ok(),
            "row {row}"
        );
    }
    assert!(rt; read_script(rt.alloc(), b"coyote-script 1").is_ok());
    Ok(())
}

#[test]
fn a_first_line_of_another_form_is_refused(rt: HostRuntime) -> Result<(), Fail> {
    let table: [&[u8]; 10] = [
        b"",
        b"\n",
        b"\ncoyote-script 1\n",
        b"# a\ncoyote-script 1\n",
        b"coyote-script 2\n",
        b"coyote-script 01\n",
        b"coyote-script 1 \n",
        b"coyote-script 1\r\n",
        b" coyote-script 1\n",
        b"Coyote-script 1\n",
    ];
    for (row, text) in table.iter().enumerate() {
        let refused = matches!(read_script(rt.alloc(), text), Err(ScriptFault::Refused));
        assert!(rt; refused, "row {row}");
    }
    Ok(())
}

#[test]
fn settings_and_rules_of_another_form_are_refused(rt: HostRuntime) -> Result<(), Fail> {
    let table: [&[u8]; 46] = [
        // values past the least and the greatest
        b"set maxConnections 0",
        b"set maxConnections 8193",
        b"set maxHttpHeaderSize 255",
        b"set maxHttpHeaderSize 8193",
        b"set maxHeaderCount 0",
        b"set maxHeaderCount 101",
        b"set maxKeepAliveRequests 0",
        b"set maxKeepAliveRequests 2147483648",
        b"set connectionTimeout 0",
        b"set connectionTimeout 86400001",
        b"set asyncTimeout 86400001",
        b"set maxSwallowSize 2147483648",
        b"set maxTrailerSize 1",
        b"set maxTrailerSize 8193",
        // numbers that are none
        b"set maxKeepAliveRequests -2",
        b"set maxKeepAliveRequests -1 ",
        b"set maxConnections -1",
        b"set maxConnections 07",
        b"set maxConnections +7",
        b"set maxConnections ",
        b"set maxConnections 18446744073709551616",
        // names of other settings, and of none
        b"set port 8080",
        b"set minSpareThreads 4",
        b"set maxThreads 16",
        b"set keepAliveTimeout 5",
        b"set maxconnections 7",
        b"set  7",
        // too few and too many fields
        b"set",
        b"set maxConnections",
        b"set maxConnections 7 7",
        b"set maxConnections 7 ",
        b"set  maxConnections 7",
        // rules
        b"rule / 0",
        b"rule / 0 ",
        b"rule / 0 sync ",
        b"rule / 0 Sync",
        b"rule / 256 sync",
        b"rule / x sync",
        b"rule / 00 sync",
        b"rule  0 sync",
        b"rule a 0 sync",
        b"rule //* 0 sync",
        b"rule *. 0 sync",
        // a pattern that stands before
        b"rule / 0 async\nrule / 0 async",
        b"rule /a 0 async\nrule / 0 async\nrule /a 1 sync",
        // a word that begins as another
        b"rules / 0 sync",
    ];
    for (row, text) in table.iter().enumerate() {
        assert!(rt; is_refused(rt.alloc(), text)?, "row {row}");
    }
    Ok(())
}

#[test]
fn steps_of_another_form_are_refused(rt: HostRuntime) -> Result<(), Fail> {
    let table: [&[u8]; 40] = [
        // words, and what ends a line
        b" ",
        b" # a",
        b"\r\n",
        b"admit 1\r\n",
        b" admit 1",
        b"Admit 1",
        b"admits 1",
        // too few and too many fields
        b"admit",
        b"admit ",
        b"admit  1",
        b"admit 1 ",
        b"run 1 1",
        b"out 1",
        b"out 1 ",
        b"out 1 1 1",
        b"act",
        b"act 1",
        b"act 1 ",
        b"act 1 write",
        b"act 1 write ",
        b"act 1  write \"\"",
        b"return 1 ",
        // numbers that are none
        b"run 01",
        b"run \"1\"",
        b"run -1",
        b"out 1 -1",
        b"out 1 18446744073709551616",
        // quoted texts
        b"in 1",
        b"in 1 a",
        b"in 1 \"",
        b"in 1 \"a",
        b"in 1  \"a\"",
        b"in 1 \"a\" ",
        b"in 1 \"a\\\"",
        b"in 1 \"a\"b\"",
        b"in 1 \"\\q\"",
        b"act 1 write \"\\x0\"",
        // out of order
        b"admit 1\nset maxConnections 7",
        b"run 1\nset maxKeepAliveRequests -1",
        b"end 1\nrule / 0 sync",
    ];
    for (row, text) in table.iter().enumerate() {
        assert!(rt; is_refused(rt.alloc(), text)?, "row {row}");
    }
    Ok(())
}

#[test]
fn lines_of_a_wider_script_are_refused(rt: HostRuntime) -> Result<(), Fail> {
    let table: [&[u8]; 8] = [
        b"at 1",
        b"shut 1",
        b"infault 1",
        b"outfault 1",
        b"fail 1",
        b"act 1 flush",
        b"act 1 start",
        b"call 1 1 complete",
    ];
    for (row, text) in table.iter().enumerate() {
        assert!(rt; is_refused(rt.alloc(), text)?, "row {row}");
    }
    Ok(())
}

#[test]
fn settings_have_their_values(rt: HostRuntime) -> Result<(), Fail> {
    let text = behind_first_line(
        rt.alloc(),
        b"set maxConnections 7\nset maxHttpHeaderSize 1000\nset maxHeaderCount 9\nset maxKeepAliveRequests 10\nset connectionTimeout 11\nset asyncTimeout 12\nset maxSwallowSize 13\nset maxTrailerSize 14\nset maxConnections 8\n",
    )?;
    let script = read_script(rt.alloc(), text.as_slice())?;
    let wanted = Limits {
        max_connections: 8,
        max_head: 1000,
        max_fields: 9,
        max_keep_alive: 10,
        connection_timeout: 11,
        async_timeout: 12,
        max_swallow: 13,
        max_trailer: 14,
        parts: 0,
    };
    assert_eq!(rt; script.limits, wanted);
    Ok(())
}

#[test]
fn rules_have_their_parts(rt: HostRuntime) -> Result<(), Fail> {
    let text = behind_first_line(
        rt.alloc(),
        b"set maxKeepAliveRequests -1\nrule /x/* 4 sync\nrule / 2 async\n",
    )?;
    let script = read_script(rt.alloc(), text.as_slice())?;
    assert_eq!(rt; script.limits.max_keep_alive, -1);
    assert_eq!(rt; script.limits.parts, 5);
    let rules = script.rules.into_vec();
    match rules.as_slice() {
        [first, second] => {
            assert!(rt; first.pattern.as_slice() == b"/x/*".as_slice());
            assert!(rt; first.part == 4 && !first.can_async);
            assert!(rt; second.pattern.as_slice() == b"/".as_slice());
            assert!(rt; second.part == 2 && second.can_async);
        }
        _ => assert!(rt; false, "two rules"),
    }
    Ok(())
}

/// Which step of connection 1 this is.
fn word(step: &Step) -> &str {
    match step {
        Step::Admit(1) => "admit",
        Step::Run(1) => "run",
        Step::On { conn: 1, event, .. } => match event {
            Event::In => "in",
            Event::End => "end",
            Event::Took(8) => "out 8",
            _ => "another",
        },
        Step::Act { conn: 1, act, .. } => match act {
            Act::Read(9) => "read 9",
            Act::Write(3) => "write 3",
            Act::Return => "return",
            _ => "another",
        },
        _ => "another",
    }
}

/// The bytes that stand beside a step.
fn bytes_beside(step: &Step) -> &[u8] {
    match step {
        Step::On { bytes, .. } | Step::Act { bytes, .. } => bytes.as_slice(),
        _ => b"".as_slice(),
    }
}

#[test]
fn steps_have_their_bytes(rt: HostRuntime) -> Result<(), Fail> {
    let text = behind_first_line(
        rt.alloc(),
        b"admit 1\nin 1 \"a\\n\"\nend 1\nout 1 8\nrun 1\nact 1 read 9\nact 1 write \"bcd\"\nreturn 1\n",
    )?;
    let table = [
        ("admit", b"".as_slice()),
        ("in", b"a\n"),
        ("end", b""),
        ("out 8", b""),
        ("run", b""),
        ("read 9", b""),
        ("write 3", b"bcd"),
        ("return", b""),
    ];
    let script = read_script(rt.alloc(), text.as_slice())?;
    let steps = script.steps.into_vec();
    assert_eq!(rt; steps.len(), table.len());
    for (step, (said, bytes)) in steps.iter().zip(table) {
        assert_eq!(rt; word(step), said);
        assert_eq!(rt; bytes_beside(step), bytes);
    }
    Ok(())
}

#[test]
fn reads_of_another_form_are_refused(rt: HostRuntime) -> Result<(), Fail> {
    let table: [&[u8]; 9] = [
        b"act 1 read",
        b"act 1 read ",
        b"act 1 read 1 ",
        b"act 1 read 1 1",
        b"act 1 read \"a\"",
        b"act 1 read 01",
        b"act 1 read 65537",
        b"act 1 read 4294967297",
        b"act 1 reads 1",
    ];
    for (row, text) in table.iter().enumerate() {
        assert!(rt; is_refused(rt.alloc(), text)?, "row {row}");
    }
    for most in [b"act 1 read 0\n".as_slice(), b"act 1 read 65536\n"] {
        assert!(rt; !is_refused(rt.alloc(), most)?);
    }
    Ok(())
}

#[test]
fn writes_have_at_most_8192_bytes_together(rt: HostRuntime) -> Result<(), Fail> {
    let longest = writing(rt.alloc(), 4000, 4192)?;
    assert!(rt; read_script(rt.alloc(), longest.as_slice()).is_ok());
    let longer = writing(rt.alloc(), 4000, 4193)?;
    let refused = matches!(
        read_script(rt.alloc(), longer.as_slice()),
        Err(ScriptFault::Refused)
    );
    assert!(rt; refused);
    Ok(())
}

#[test]
fn lines_of_any_connections_are_read(rt: HostRuntime) -> Result<(), Fail> {
    let table: [&[u8]; 6] = [
        b"admit 1\nadmit 2\nin 2 \"a\"\nin 1 \"b\"\nrun 1\nend 2\n",
        b"admit 3\nin 3 \"a\"\nadmit 1\nadmit 2\nact 2 write \"a\"\nreturn 3\nout 1 5\n",
        b"admit 18446744073709551615\nrun 18446744073709551615\n",
        b"admit 18446744073709551615\nadmit 1\nend 1\n",
        // steps of numbers that are admitted later, and of those that are never
        b"end 2\nadmit 2\n",
        b"run 7\nadmit 1\nin 7 \"a\"\nend 18446744073709551615\n",
    ];
    for (row, text) in table.iter().enumerate() {
        let script = behind_first_line(rt.alloc(), text)?;
        assert!(rt;
            read_script(rt.alloc(), script.as_slice()).is_ok(),
            "row {row}"
        );
    }
    Ok(())
}

#[test]
fn lines_of_other_numbers_are_refused(rt: HostRuntime) -> Result<(), Fail> {
    let table: [&[u8]; 14] = [
        // no connection has the number 0
        b"admit 0",
        b"in 0 \"a\"",
        b"end 0",
        b"out 0 1",
        b"run 0",
        b"act 0 write \"a\"",
        b"return 0",
        // nor one past the greatest
        b"admit 18446744073709551616",
        b"run 18446744073709551616",
        // a number is admitted once
        b"admit 1\nadmit 1",
        b"admit 1\nrun 1\n\n# a\nadmit 1\n",
        b"admit 1\nadmit 2\nadmit 2",
        b"admit 3\nadmit 1\nend 3\nadmit 2\nadmit 3",
        b"admit 18446744073709551615\nadmit 18446744073709551615",
    ];
    for (row, text) in table.iter().enumerate() {
        assert!(rt; is_refused(rt.alloc(), text)?, "row {row}");
    }
    Ok(())
}

#[test]
fn steps_have_their_connections(rt: HostRuntime) -> Result<(), Fail> {
    let text = behind_first_line(
        rt.alloc(),
        b"admit 2\nadmit 18446744073709551615\nrun 2\nrun 5\n",
    )?;
    let script = read_script(rt.alloc(), text.as_slice())?;
    match script.steps.as_slice() {
        [
            Step::Admit(first),
            Step::Admit(second),
            Step::Run(third),
            Step::Run(fourth),
        ] => {
            assert!(rt; *first == 2 && *second == u64::MAX);
            assert!(rt; *third == 2 && *fourth == 5);
        }
        _ => assert!(rt; false, "the steps of the lines"),
    }
    Ok(())
}

#[test]
fn each_of_many_connections_is_admitted_once(rt: HostRuntime) -> Result<(), Fail> {
    let mut many = with_connections(rt.alloc(), 2000)?;
    assert!(rt; read_script(rt.alloc(), many.as_slice()).is_ok());
    many.extend_from_slice(b"admit 1000\n")?;
    let refused = matches!(
        read_script(rt.alloc(), many.as_slice()),
        Err(ScriptFault::Refused)
    );
    assert!(rt; refused);
    Ok(())
}

#[test]
fn rules_are_at_most_1024(rt: HostRuntime) -> Result<(), Fail> {
    let most = with_rules(rt.alloc(), 1024)?;
    assert!(rt; read_script(rt.alloc(), most.as_slice()).is_ok());
    let more = with_rules(rt.alloc(), 1025)?;
    let refused = matches!(
        read_script(rt.alloc(), more.as_slice()),
        Err(ScriptFault::Refused)
    );
    assert!(rt; refused);
    Ok(())
}

#[test]
fn lists_lend_their_items(rt: HostRuntime) -> Result<(), Fail> {
    let steps = Steps::of(vec![in rt.alloc(); Step::Run(7)]?);
    assert!(rt; matches!(steps.as_slice(), [Step::Run(7)]));
    let rules = Rules::of(Vec::new(rt.alloc()));
    assert!(rt; rules.as_slice().is_empty());
    Ok(())
}

#[test]
fn faults_are_printed(rt: HostRuntime) -> Result<(), Fail> {
    let refused = ScriptFault::Refused;
    let no_memory = ScriptFault::NoMemory;
    let text = format!(in rt.alloc(); "{refused}, {no_memory}")?;
    assert_eq!(rt; text.as_str(), "not a script of the form, out of memory");
    Ok(())
}

/// A law says all in its contract; a call shows that nothing is asked of the caller.
#[test]
fn laws_ask_for_nothing(_rt: HostRuntime) -> Result<(), Fail> {
    reading_is_spelling();
    scripts_are_within_the_form();
    example_is_read();
    Ok(())
}
