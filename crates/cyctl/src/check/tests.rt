// Texts of settings and what `check` writes for them. What is wanted of each text was made by another program, which reads
// it with Python's `tomllib`; both agree where TOML 1.0 and 1.1 do.
use crate::tool::tool;
use cy_link::{MemSink, MemSource};
use std::alloc::Global;
use std::test::Fail;

/// The names of the settings that are told, in their order.
const NAMES: [&[u8]; 10] = [
    b"maxConnections",
    b"maxHttpHeaderSize",
    b"maxHeaderCount",
    b"maxKeepAliveRequests",
    b"connectionTimeout",
    b"asyncTimeout",
    b"maxSwallowSize",
    b"maxTrailerSize",
    b"minSpareThreads",
    b"maxThreads",
];

/// The text of docs/connector.toml, which docs/settings.py puts here.
const CONNECTOR: &[u8] =
    br#"# The settings of a connector, each at its default. Times are milliseconds, sizes bytes.
# `cyctl check < connector.toml` tells what is read of it.

[connector]

# Connections that are counted at once: 1 to 8192.
maxConnections = 256

# Bytes of a request's head with its empty line: 256 to 8192.
maxHttpHeaderSize = 8192

# Fields of a head: 1 to 100.
maxHeaderCount = 100

# Requests of one connection: 1 to 2147483647, or -1 for no limit.
maxKeepAliveRequests = 100

# How long a connection may wait for its peer: 1 to 86400000.
connectionTimeout = 20000

# How long asynchronous processing may take where the component says nothing: 0 to 86400000; 0 is no limit.
asyncTimeout = 30000

# Bytes of a body that nobody read and that are passed over after its request: 0 to 2147483647.
maxSwallowSize = 2097152

# Bytes of the trailer section of a body in chunks: 2 to 8192.
maxTrailerSize = 8192

# Threads that are kept: 1 to 64, and no more than maxThreads.
minSpareThreads = 4

# Threads that there are at most: 1 to 64.
maxThreads = 16

# The port at which connections are accepted: 0 to 65535; 0 takes a free one.
port = 8080

# The rules, in their order: which component, by its number from 0 to 255, serves the paths of which pattern, and whether
# it may process asynchronously. Without a rule every request is answered 404.
#
# [[rule]]
# pattern = "/"
# part = 0
# async = false
"#;

/// The status of `check` over a text, and what it writes.
fn checked(alloc: Global, text: &[u8]) -> Result<(u8, Vec<u8>), Fail> {
    let words = vec![in alloc; String::from_str(alloc, "check")?]?;
    let mut source = MemSource::new(Vec::from_slice(alloc, text)?, Vec::new(alloc), 4096);
    let mut sink = MemSink::new(Vec::new(alloc), Vec::new(alloc), 4096);
    let status = tool(alloc, &words, &mut source, &mut sink);
    Ok((status, sink.into_vec()))
}

/// The lines of these values, which stand behind one another with a space between, and of these rules.
fn lines(alloc: Global, values: &[u8], rules: &[u8]) -> Result<Vec<u8>, Fail> {
    let mut text = Vec::new(alloc);
    for (name, value) in NAMES.iter().zip(values.split(|byte| *byte == b' ')) {
        text.extend_from_slice(name)?;
        text.extend_from_slice(b" ")?;
        text.extend_from_slice(value)?;
        text.extend_from_slice(b"\n")?;
    }
    text.extend_from_slice(rules)?;
    Ok(text)
}

#[test]
fn texts_are_told_in_full(rt: HostRuntime) -> Result<(), Fail> {
    let table: [(&[u8], &[u8], &[u8]); 45] = [
        (b"", b"256 8192 100 100 20000 30000 2097152 8192 4 16", b""),
        (
            b"# nothing\n",
            b"256 8192 100 100 20000 30000 2097152 8192 4 16",
            b"",
        ),
        (
            b"[connector]\n",
            b"256 8192 100 100 20000 30000 2097152 8192 4 16",
            b"",
        ),
        (
            b"rule = []\n",
            b"256 8192 100 100 20000 30000 2097152 8192 4 16",
            b"",
        ),
        (
            b"connector = {}\nrule = []\n",
            b"256 8192 100 100 20000 30000 2097152 8192 4 16",
            b"",
        ),
        (
            b"[connector]\nmaxConnections = 1\n",
            b"1 8192 100 100 20000 30000 2097152 8192 4 16",
            b"",
        ),
        (
            b"connector.maxConnections = 8192\n",
            b"8192 8192 100 100 20000 30000 2097152 8192 4 16",
            b"",
        ),
        (
            b"[connector]\nmaxHttpHeaderSize = 256\n",
            b"256 256 100 100 20000 30000 2097152 8192 4 16",
            b"",
        ),
        (
            b"connector.maxHttpHeaderSize = 8192\n",
            b"256 8192 100 100 20000 30000 2097152 8192 4 16",
            b"",
        ),
        (
            b"[connector]\nmaxHeaderCount = 1\n",
            b"256 8192 1 100 20000 30000 2097152 8192 4 16",
            b"",
        ),
        (
            b"connector.maxHeaderCount = 100\n",
            b"256 8192 100 100 20000 30000 2097152 8192 4 16",
            b"",
        ),
        (
            b"[connector]\nmaxKeepAliveRequests = 1\n",
            b"256 8192 100 1 20000 30000 2097152 8192 4 16",
            b"",
        ),
        (
            b"connector.maxKeepAliveRequests = 2147483647\n",
            b"256 8192 100 2147483647 20000 30000 2097152 8192 4 16",
            b"",
        ),
        (
            b"[connector]\nconnectionTimeout = 1\n",
            b"256 8192 100 100 1 30000 2097152 8192 4 16",
            b"",
        ),
        (
            b"connector.connectionTimeout = 86400000\n",
            b"256 8192 100 100 86400000 30000 2097152 8192 4 16",
            b"",
        ),
        (
            b"[connector]\nasyncTimeout = 0\n",
            b"256 8192 100 100 20000 0 2097152 8192 4 16",
            b"",
        ),
        (
            b"connector.asyncTimeout = 86400000\n",
            b"256 8192 100 100 20000 86400000 2097152 8192 4 16",
            b"",
        ),
        (
            b"[connector]\nmaxSwallowSize = 0\n",
            b"256 8192 100 100 20000 30000 0 8192 4 16",
            b"",
        ),
        (
            b"connector.maxSwallowSize = 2147483647\n",
            b"256 8192 100 100 20000 30000 2147483647 8192 4 16",
            b"",
        ),
        (
            b"[connector]\nmaxTrailerSize = 2\n",
            b"256 8192 100 100 20000 30000 2097152 2 4 16",
            b"",
        ),
        (
            b"connector.maxTrailerSize = 8192\n",
            b"256 8192 100 100 20000 30000 2097152 8192 4 16",
            b"",
        ),
        (
            b"[connector]\nminSpareThreads = 1\n",
            b"256 8192 100 100 20000 30000 2097152 8192 1 16",
            b"",
        ),
        (
            b"[connector]\nmaxThreads = 64\nminSpareThreads = 64\n",
            b"256 8192 100 100 20000 30000 2097152 8192 64 64",
            b"",
        ),
        (
            b"connector.maxThreads = 1\nconnector.minSpareThreads = 1\n",
            b"256 8192 100 100 20000 30000 2097152 8192 1 1",
            b"",
        ),
        (
            b"connector.maxThreads = 64\n",
            b"256 8192 100 100 20000 30000 2097152 8192 4 64",
            b"",
        ),
        (
            b"[connector]\nport = 0\n",
            b"256 8192 100 100 20000 30000 2097152 8192 4 16",
            b"",
        ),
        (
            b"connector.port = 65535\n",
            b"256 8192 100 100 20000 30000 2097152 8192 4 16",
            b"",
        ),
        (
            b"connector.maxKeepAliveRequests = -1\n",
            b"256 8192 100 -1 20000 30000 2097152 8192 4 16",
            b"",
        ),
        (
            b"connector.maxConnections = 0x10\n",
            b"16 8192 100 100 20000 30000 2097152 8192 4 16",
            b"",
        ),
        (
            b"connector.maxConnections = 0b11\n",
            b"3 8192 100 100 20000 30000 2097152 8192 4 16",
            b"",
        ),
        (
            b"connector.maxConnections = 1_000\n",
            b"1000 8192 100 100 20000 30000 2097152 8192 4 16",
            b"",
        ),
        (
            b"connector.maxConnections = +7\n",
            b"7 8192 100 100 20000 30000 2097152 8192 4 16",
            b"",
        ),
        (
            b"connector.\"port\" = 0\n",
            b"256 8192 100 100 20000 30000 2097152 8192 4 16",
            b"",
        ),
        (
            b"\"connector\".'maxThreads' = 5\n",
            b"256 8192 100 100 20000 30000 2097152 8192 4 5",
            b"",
        ),
        (
            b"[ connector ]\n  'maxHeaderCount' = 7 # seven\n",
            b"256 8192 7 100 20000 30000 2097152 8192 4 16",
            b"",
        ),
        (
            b"connector = { maxThreads = 5, minSpareThreads = 5 }\n",
            b"256 8192 100 100 20000 30000 2097152 8192 5 5",
            b"",
        ),
        (
            b"connector.minSpareThreads = 16\n",
            b"256 8192 100 100 20000 30000 2097152 8192 16 16",
            b"",
        ),
        (
            b"connector.maxThreads = 4\n",
            b"256 8192 100 100 20000 30000 2097152 8192 4 4",
            b"",
        ),
        (
            b"connector = { minSpareThreads = 64, maxThreads = 64 }\n",
            b"256 8192 100 100 20000 30000 2097152 8192 64 64",
            b"",
        ),
        (
            b"[[rule]]\npattern = '/'\npart = 0\n",
            b"256 8192 100 100 20000 30000 2097152 8192 4 16",
            b"rule / 0 sync\n",
        ),
        (
            b"[[rule]]\npart = 255\npattern = \"/x/*\"\nasync = true\n",
            b"256 8192 100 100 20000 30000 2097152 8192 4 16",
            b"rule /x/* 255 async\n",
        ),
        (
            b"[[rule]]\npattern = '*.do'\npart = 1\nasync = false\n",
            b"256 8192 100 100 20000 30000 2097152 8192 4 16",
            b"rule *.do 1 sync\n",
        ),
        (
            b"[[rule]]\npattern = '/a b'\npart = 1\n[[rule]]\npattern = '/\xc3\xa9'\npart = 2\n",
            b"256 8192 100 100 20000 30000 2097152 8192 4 16",
            b"rule /a b 1 sync\nrule /\xc3\xa9 2 sync\n",
        ),
        (
            b"rule = [{pattern = '/*', part = 7}]\n",
            b"256 8192 100 100 20000 30000 2097152 8192 4 16",
            b"rule /* 7 sync\n",
        ),
        (
            b"connector.port = 1\r\n",
            b"256 8192 100 100 20000 30000 2097152 8192 4 16",
            b"",
        ),
    ];
    for (row, line) in table.iter().enumerate() {
        let (status, written) = checked(rt.alloc(), line.0)?;
        assert_eq!(rt; status, 0, "row {row}");
        let wanted = lines(rt.alloc(), line.1, line.2)?;
        assert_eq!(rt; written.as_slice(), wanted.as_slice(), "row {row}");
    }
    Ok(())
}

/// The file that a user copies has every key at its default, and no rule.
#[test]
fn the_file_has_every_default(rt: HostRuntime) -> Result<(), Fail> {
    let (status, written) = checked(rt.alloc(), CONNECTOR)?;
    let wanted = lines(
        rt.alloc(),
        b"256 8192 100 100 20000 30000 2097152 8192 4 16",
        b"",
    )?;
    assert_eq!(rt; status, 0);
    assert_eq!(rt; written.as_slice(), wanted.as_slice());
    Ok(())
}

#[test]
fn settings_of_texts_are_refused(rt: HostRuntime) -> Result<(), Fail> {
    let table: [(&[u8], &[u8]); 53] = [
        (
            b"connector = { maxConnections = 0 }\n",
            b"refused: bad setting connector.maxConnections 0\n",
        ),
        (
            b"[connector]\nmaxConnections = 8193\n",
            b"refused: bad setting connector.maxConnections 8193\n",
        ),
        (
            b"connector = { maxHttpHeaderSize = 255 }\n",
            b"refused: bad setting connector.maxHttpHeaderSize 255\n",
        ),
        (
            b"[connector]\nmaxHttpHeaderSize = 8193\n",
            b"refused: bad setting connector.maxHttpHeaderSize 8193\n",
        ),
        (
            b"connector = { maxHeaderCount = 0 }\n",
            b"refused: bad setting connector.maxHeaderCount 0\n",
        ),
        (
            b"[connector]\nmaxHeaderCount = 101\n",
            b"refused: bad setting connector.maxHeaderCount 101\n",
        ),
        (
            b"connector = { maxKeepAliveRequests = 0 }\n",
            b"refused: bad setting connector.maxKeepAliveRequests 0\n",
        ),
        (
            b"[connector]\nmaxKeepAliveRequests = 2147483648\n",
            b"refused: bad setting connector.maxKeepAliveRequests 2147483648\n",
        ),
        (
            b"connector = { connectionTimeout = 0 }\n",
            b"refused: bad setting connector.connectionTimeout 0\n",
        ),
        (
            b"[connector]\nconnectionTimeout = 86400001\n",
            b"refused: bad setting connector.connectionTimeout 86400001\n",
        ),
        (
            b"connector = { asyncTimeout = -1 }\n",
            b"refused: bad setting connector.asyncTimeout -1\n",
        ),
        (
            b"[connector]\nasyncTimeout = 86400001\n",
            b"refused: bad setting connector.asyncTimeout 86400001\n",
        ),
        (
            b"connector = { maxSwallowSize = -1 }\n",
            b"refused: bad setting connector.maxSwallowSize -1\n",
        ),
        (
            b"[connector]\nmaxSwallowSize = 2147483648\n",
            b"refused: bad setting connector.maxSwallowSize 2147483648\n",
        ),
        (
            b"connector = { maxTrailerSize = 1 }\n",
            b"refused: bad setting connector.maxTrailerSize 1\n",
        ),
        (
            b"[connector]\nmaxTrailerSize = 8193\n",
            b"refused: bad setting connector.maxTrailerSize 8193\n",
        ),
        (
            b"connector = { minSpareThreads = 0 }\n",
            b"refused: bad setting connector.minSpareThreads 0\n",
        ),
        (
            b"[connector]\nminSpareThreads = 65\n",
            b"refused: bad setting connector.minSpareThreads 65\n",
        ),
        (
            b"connector = { maxThreads = 0 }\n",
            b"refused: bad setting connector.maxThreads 0\n",
        ),
        (
            b"[connector]\nmaxThreads = 65\n",
            b"refused: bad setting connector.maxThreads 65\n",
        ),
        (
            b"connector = { port = -1 }\n",
            b"refused: bad setting connector.port -1\n",
        ),
        (
            b"[connector]\nport = 65536\n",
            b"refused: bad setting connector.port 65536\n",
        ),
        (
            b"connector.maxKeepAliveRequests = -2\n",
            b"refused: bad setting connector.maxKeepAliveRequests -2\n",
        ),
        (
            b"connector.maxConnections = -1\n",
            b"refused: bad setting connector.maxConnections -1\n",
        ),
        (
            b"connector.maxConnections = \"2\"\n",
            b"refused: bad setting connector.maxConnections text\n",
        ),
        (
            b"connector.maxConnections = '''2'''\n",
            b"refused: bad setting connector.maxConnections text\n",
        ),
        (
            b"connector.maxConnections = 2.0\n",
            b"refused: bad setting connector.maxConnections float\n",
        ),
        (
            b"connector.maxConnections = inf\n",
            b"refused: bad setting connector.maxConnections float\n",
        ),
        (
            b"connector.maxConnections = true\n",
            b"refused: bad setting connector.maxConnections flag\n",
        ),
        (
            b"connector.maxConnections = 2024-05-06\n",
            b"refused: bad setting connector.maxConnections date\n",
        ),
        (
            b"connector.maxConnections = 07:08:09\n",
            b"refused: bad setting connector.maxConnections date\n",
        ),
        (
            b"connector.maxConnections = 2024-05-06T07:08:09Z\n",
            b"refused: bad setting connector.maxConnections date\n",
        ),
        (
            b"connector.maxConnections = [2]\n",
            b"refused: bad setting connector.maxConnections list\n",
        ),
        (
            b"connector.maxConnections = []\n",
            b"refused: bad setting connector.maxConnections list\n",
        ),
        (
            b"connector.maxConnections = { a = 2 }\n",
            b"refused: bad setting connector.maxConnections table\n",
        ),
        (b"connector = 1\n", b"refused: bad setting connector 1\n"),
        (
            b"connector = 'a'\n",
            b"refused: bad setting connector text\n",
        ),
        (
            b"connector = []\n",
            b"refused: bad setting connector list\n",
        ),
        (
            b"connector = true\n",
            b"refused: bad setting connector flag\n",
        ),
        (
            b"connector = 1979-05-27\n",
            b"refused: bad setting connector date\n",
        ),
        (
            b"connector = 1.5\n",
            b"refused: bad setting connector float\n",
        ),
        (
            b"[[connector]]\nport = 1\n",
            b"refused: bad setting connector list\n",
        ),
        (b"version = 1\n", b"refused: unknown key version\n"),
        (b"z = 1\na = 2\n", b"refused: unknown key a\n"),
        (
            b"[connector]\nmaxConnection = 2\n",
            b"refused: unknown key connector.maxConnection\n",
        ),
        (
            b"[connector]\nport = -1\nmaxconnections = 1\nmaxConnections = 0\n",
            b"refused: bad setting connector.maxConnections 0\n",
        ),
        (
            b"connector.maxThreads = 65\nconnector.asyncTimeout = -1\n",
            b"refused: bad setting connector.asyncTimeout -1\n",
        ),
        (
            b"[connector]\n\"max Threads\" = 1\n",
            b"refused: unknown key connector.max Threads\n",
        ),
        (
            b"[connector]\n\"\" = 1\n",
            b"refused: unknown key connector.\n",
        ),
        (
            b"'connector.port' = 1\n",
            b"refused: unknown key connector.port\n",
        ),
        (
            b"[connector.port]\na = 1\n",
            b"refused: bad setting connector.port table\n",
        ),
        (b"[rule]\n[zebra]\n", b"refused: unknown key zebra\n"),
        (b"Connector = 1\n", b"refused: unknown key Connector\n"),
    ];
    for (row, line) in table.iter().enumerate() {
        let (status, written) = checked(rt.alloc(), line.0)?;
        assert_eq!(rt; status, 3, "row {row}");
        assert_eq!(rt; written.as_slice(), line.1, "row {row}");
    }
    Ok(())
}

#[test]
fn rules_and_forms_of_texts_are_refused(rt: HostRuntime) -> Result<(), Fail> {
    let table: [(&[u8], &[u8]); 52] = [
        (
            b"[connector]\nport.a = 1\n",
            b"refused: bad setting connector.port table\n",
        ),
        (
            b"connector.minSpareThreads = 17\n",
            b"refused: bad setting connector.minSpareThreads 17\n",
        ),
        (
            b"connector.maxThreads = 3\n",
            b"refused: bad setting connector.minSpareThreads 4\n",
        ),
        (
            b"connector = { minSpareThreads = 9, maxThreads = 8 }\n",
            b"refused: bad setting connector.minSpareThreads 9\n",
        ),
        (b"rule = 1\n", b"refused: bad setting rule 1\n"),
        (b"rule = 'a'\n", b"refused: bad setting rule text\n"),
        (b"rule = {}\n", b"refused: bad setting rule table\n"),
        (b"rule = [1]\n", b"refused: bad setting rule list\n"),
        (
            b"rule = [{pattern = '/', part = 0}, 1]\n",
            b"refused: bad setting rule list\n",
        ),
        (
            b"[rule]\npattern = '/'\npart = 0\n",
            b"refused: bad setting rule table\n",
        ),
        (b"rule = [[]]\n", b"refused: bad setting rule list\n"),
        (b"rule = true\n", b"refused: bad setting rule flag\n"),
        (b"rule = 1.5\n", b"refused: bad setting rule float\n"),
        (
            b"[[rule]]\npart = 0\n",
            b"refused: bad setting rule.0.pattern absent\n",
        ),
        (
            b"[[rule]]\npattern = '/'\n",
            b"refused: bad setting rule.0.part absent\n",
        ),
        (
            b"[[rule]]\npattern = 1\npart = 0\n",
            b"refused: bad setting rule.0.pattern 1\n",
        ),
        (
            b"[[rule]]\npattern = '/'\npart = 256\n",
            b"refused: bad setting rule.0.part 256\n",
        ),
        (
            b"[[rule]]\npattern = '/'\npart = -1\n",
            b"refused: bad setting rule.0.part -1\n",
        ),
        (
            b"[[rule]]\npattern = '/'\npart = '0'\n",
            b"refused: bad setting rule.0.part text\n",
        ),
        (
            b"[[rule]]\npattern = '/'\npart = 0.0\n",
            b"refused: bad setting rule.0.part float\n",
        ),
        (
            b"[[rule]]\npattern = '/'\npart = 0\nasync = 1\n",
            b"refused: bad setting rule.0.async 1\n",
        ),
        (
            b"[[rule]]\npattern = '/'\npart = 0\nasync = 'true'\n",
            b"refused: bad setting rule.0.async text\n",
        ),
        (
            b"[[rule]]\npattern = '/'\npart = 0\nasync = []\n",
            b"refused: bad setting rule.0.async list\n",
        ),
        (
            b"[[rule]]\npattern = '/'\npart = 0\nname = 'a'\n",
            b"refused: unknown key rule.0.name\n",
        ),
        (
            b"[[rule]]\nPattern = '/'\nzone = 1\npart = 0\n",
            b"refused: unknown key rule.0.Pattern\n",
        ),
        (
            b"[[rule]]\npattern = ''\npart = 0\n",
            b"refused: bad setting rule.0.pattern pattern\n",
        ),
        (
            b"[[rule]]\npattern = 'a'\npart = 0\n",
            b"refused: bad setting rule.0.pattern pattern\n",
        ),
        (
            b"[[rule]]\npattern = '//*'\npart = 0\n",
            b"refused: bad setting rule.0.pattern pattern\n",
        ),
        (
            b"[[rule]]\npattern = '/*/a'\npart = 0\n",
            b"refused: bad setting rule.0.pattern pattern\n",
        ),
        (
            b"[[rule]]\npattern = '*.a.b'\npart = 0\n",
            b"refused: bad setting rule.0.pattern pattern\n",
        ),
        (
            b"[[rule]]\npattern = '*.'\npart = 0\n",
            b"refused: bad setting rule.0.pattern pattern\n",
        ),
        (
            b"[[rule]]\npattern = '/a'\npart = 0\n[[rule]]\npattern = '/a'\npart = 1\n",
            b"refused: bad setting rule.1.pattern twice\n",
        ),
        (
            b"[[rule]]\npattern = '/a'\npart = 0\n[[rule]]\npattern = '/b'\npart = 0\n[[rule]]\npattern = '/a'\npart = 0\n",
            b"refused: bad setting rule.2.pattern twice\n",
        ),
        (
            b"[[rule]]\npattern = '/a'\npart = 0\n[[rule]]\npattern = '/a'\npart = 300\n",
            b"refused: bad setting rule.1.part 300\n",
        ),
        (
            b"[[rule]]\npattern = '/a'\npart = 0\n[[rule]]\npattern = '/a'\npart = 0\n[[rule]]\npattern = 'b'\npart = 0\n",
            b"refused: bad setting rule.1.pattern twice\n",
        ),
        (
            b"[[rule]]\npattern = 'b'\npart = 0\nasync = 2\n",
            b"refused: bad setting rule.0.async 2\n",
        ),
        (
            b"[[rule]]\npattern = 2\npart = 256\n",
            b"refused: bad setting rule.0.pattern 2\n",
        ),
        (
            b"[[rule]]\npattern = '/a'\npart = 0\n[[rule]]\npattern = 'x'\npart = 0\n[[rule]]\nzz = 1\n",
            b"refused: bad setting rule.1.pattern pattern\n",
        ),
        (
            b"[connector]\nmaxConnections = 0\n[[rule]]\npart = 0\n",
            b"refused: bad setting connector.maxConnections 0\n",
        ),
        (
            b"connector = 1\nrule = 1\nx = 1\n",
            b"refused: unknown key x\n",
        ),
        (b"x\n", b"refused: not toml\n"),
        (b"[connector\n", b"refused: not toml\n"),
        (
            b"connector.port = 1\nconnector.port = 2\n",
            b"refused: not toml\n",
        ),
        (b"[connector]\n[connector]\n", b"refused: not toml\n"),
        (b"connector.port = 01\n", b"refused: not toml\n"),
        (b"connector.port = \n", b"refused: not toml\n"),
        (b"a = 'b\n", b"refused: not toml\n"),
        (b"rule = []\n[[rule]]\n", b"refused: not toml\n"),
        (b"# \xff\n", b"refused: not toml\n"),
        (b"connector.port = 1 # \xc3\n", b"refused: not toml\n"),
        (b"\xfe\xff", b"refused: not toml\n"),
        (b"a = '\xed\xa0\x80'\n", b"refused: not toml\n"),
    ];
    for (row, line) in table.iter().enumerate() {
        let (status, written) = checked(rt.alloc(), line.0)?;
        assert_eq!(rt; status, 3, "row {row}");
        assert_eq!(rt; written.as_slice(), line.1, "row {row}");
    }
    Ok(())
}

/// What TOML 1.1 has beyond 1.0: a line break and a last comma in an inline table, and the escape `\x`; and a byte order
/// mark at the front.
#[test]
fn texts_of_toml_1_1_are_read(rt: HostRuntime) -> Result<(), Fail> {
    let table: [&[u8]; 4] = [
        b"connector = {\n  maxThreads = 5,\n}\n",
        b"connector = { maxThreads = 5, }\n",
        b"connector.\"max\\x54hreads\" = 5\n",
        b"\xef\xbb\xbfconnector.maxThreads = 5\n",
    ];
    let wanted = lines(
        rt.alloc(),
        b"256 8192 100 100 20000 30000 2097152 8192 4 5",
        b"",
    )?;
    for (row, text) in table.iter().enumerate() {
        let (status, written) = checked(rt.alloc(), text)?;
        assert_eq!(rt; status, 0, "row {row}");
        assert_eq!(rt; written.as_slice(), wanted.as_slice(), "row {row}");
    }
    Ok(())
}

/// A source that fails, a sink that fails, and a text that is too large.
#[test]
fn failures_are_told(rt: HostRuntime) -> Result<(), Fail> {
    let words = vec![in rt.alloc(); String::from_str(rt.alloc(), "check")?]?;
    let mut source = MemSource::new(
        Vec::from_slice(rt.alloc(), b"rule = []\n")?,
        vec![in rt.alloc(); 2]?,
        4,
    );
    let mut sink = MemSink::new(Vec::new(rt.alloc()), Vec::new(rt.alloc()), 4096);
    assert_eq!(rt; tool(rt.alloc(), &words, &mut source, &mut sink), 4);
    assert_eq!(rt; sink.into_vec().as_slice(), b"source fault\n".as_slice());

    let mut source = MemSource::new(Vec::new(rt.alloc()), Vec::new(rt.alloc()), 4096);
    let mut sink = MemSink::new(Vec::new(rt.alloc()), vec![in rt.alloc(); 1]?, 8);
    assert_eq!(rt; tool(rt.alloc(), &words, &mut source, &mut sink), 5);
    assert_eq!(rt; sink.into_vec().as_slice(), b"maxConne".as_slice());

    let long = vec![in rt.alloc(); b'#'; 67_108_865]?;
    let mut source = MemSource::new(long, Vec::new(rt.alloc()), 16_384);
    let mut sink = MemSink::new(Vec::new(rt.alloc()), Vec::new(rt.alloc()), 4096);
    assert_eq!(rt; tool(rt.alloc(), &words, &mut source, &mut sink), 7);
    assert_eq!(rt; sink.into_vec().as_slice(), b"too large\n".as_slice());
    Ok(())
}
