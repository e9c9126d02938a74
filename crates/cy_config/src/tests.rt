// What the contracts leave open: that texts are read and written with ample memory.
use super::*;
use cy_settings::{Limit, Setting};
use std::alloc::{AllocError, Global};
use std::test::Fail;

/// Appends a refusal, as `<name> <value>`.
fn tell(told: &mut Vec<u8>, fault: SetFault) -> Result<(), AllocError> {
    match fault {
        SetFault::NotToml => told.extend_from_slice(b"not toml"),
        SetFault::UnknownKey { name } => told.extend_from_slice(name.as_slice()),
        SetFault::BadSetting { name, value } => {
            told.extend_from_slice(name.as_slice())?;
            told.extend_from_slice(b" ")?;
            told.extend_from_slice(value.as_slice())
        }
        SetFault::NoMemory => told.extend_from_slice(b"no memory"),
    }
}

/// The refusal of a text; empty where it is read.
fn refusal(alloc: Global, text: &[u8]) -> Result<Vec<u8>, Fail> {
    let mut told = Vec::new(alloc);
    match read_settings(alloc, text) {
        Ok(_read) => {}
        Err(fault) => tell(&mut told, fault)?,
    }
    Ok(told)
}

#[test]
fn settings_have_their_values(rt: HostRuntime) -> Result<(), Fail> {
    let text: &[u8] =
        b"[connector]\nport = 0\nmaxKeepAliveRequests = -1\nmaxThreads = 9\n[[rule]]\npattern = \"/x/*\"\npart = 4\nasync = true\n";
    let settings = read_settings(rt.alloc(), text)?;
    assert_eq!(rt; settings.port, 0);
    assert_eq!(rt; settings.limits.max_keep_alive, -1);
    assert_eq!(rt; settings.limits.max_connections, 256);
    assert_eq!(rt; settings.limits.parts, 5);
    assert_eq!(rt; (settings.core, settings.max), (4, 9));
    assert_eq!(rt; settings.value(Setting::Port), 0);
    assert_eq!(rt; settings.value(Setting::Limit(Limit::AsyncTimeout)), 30_000);
    match settings.rules.as_slice() {
        [rule] => {
            assert_eq!(rt; rule.pattern.as_slice(), b"/x/*".as_slice());
            assert!(rt; rule.part == 4 && rule.can_async);
        }
        _ => assert!(rt; false, "one rule"),
    }
    Ok(())
}

#[test]
fn the_first_refusal_is_told(rt: HostRuntime) -> Result<(), Fail> {
    let table: [(&[u8], &[u8]); 8] = [
        (b"", b""),
        (b"[connector", b"not toml"),
        (b"z = 1\na = 1\n", b"a"),
        (
            b"[connector]\nport = -1\nmaxConnection = 2\n",
            b"connector.maxConnection",
        ),
        (
            b"connector.maxConnections = 0\n",
            b"connector.maxConnections 0",
        ),
        (
            b"connector.maxThreads = 3\n",
            b"connector.minSpareThreads 4",
        ),
        (b"rule = [1]\n", b"rule list"),
        (
            b"rule = [{pattern = '/', part = 0}, {pattern = '/', part = 0}]\n",
            b"rule.1.pattern twice",
        ),
    ];
    for (row, line) in table.iter().enumerate() {
        let told = refusal(rt.alloc(), line.0)?;
        assert_eq!(rt; told.as_slice(), line.1, "row {row}");
    }
    Ok(())
}

#[test]
fn what_is_printed_is_read_again(rt: HostRuntime) -> Result<(), Fail> {
    let text: &[u8] =
        b"connector.maxConnections = 2\nconnector.port = 1\nrule = [{pattern = '/a \"b', part = 7}, {pattern = '*.\xc3\xa9', part = 0, async = true}]\n";
    let settings = read_settings(rt.alloc(), text)?;
    let printed = print_settings(rt.alloc(), &settings)?;
    let again = read_settings(rt.alloc(), printed.as_slice())?;
    assert_eq!(rt; again.limits, settings.limits);
    assert_eq!(rt; again.port, 8080);
    assert_eq!(rt; (again.core, again.max), (settings.core, settings.max));
    assert_eq!(rt; again.rules.as_slice().len(), 2);
    for (one, other) in again.rules.as_slice().iter().zip(settings.rules.as_slice()) {
        assert_eq!(rt; one.pattern.as_slice(), other.pattern.as_slice());
        assert!(rt; one.part == other.part && one.can_async == other.can_async);
    }
    Ok(())
}

#[test]
fn faults_are_printed(rt: HostRuntime) -> Result<(), Fail> {
    let text = format!(in rt.alloc(); "{}, {}", SetFault::NotToml, SetFault::NoMemory)?;
    assert_eq!(rt; text.as_str(), "not toml, out of memory");
    Ok(())
}

/// A law says all in its contract; a call shows that nothing is asked of the caller.
#[test]
fn laws_ask_for_nothing(_rt: HostRuntime) -> Result<(), Fail> {
    outcome_is_the_first_refusal();
    texts_have_one_outcome();
    keys_are_in_any_order();
    settings_are_written();
    Ok(())
}
