//! The limits of a connector, together.
ghost use Rattle.std.specs.Prelude.{◌≡◌};

/// What a connector keeps to, under the names of Tomcat's HTTP connector. Times are milliseconds, sizes bytes.
#[derive(Clone, Copy, Debug, PartialEq, Eq)]
pub struct Limits {
    /// `maxConnections`: connections that are counted at once, 1 to 8,192.
    pub max_connections: u32,
    /// `maxHttpHeaderSize`: bytes of a head with its empty line, 256 to 8,192.
    pub max_head: u32,
    /// `maxHeaderCount`: fields of a head, 1 to 100.
    pub max_fields: u32,
    /// `maxKeepAliveRequests`: requests of one connection, at least 1, or -1 for no limit.
    pub max_keep_alive: i64,
    /// `connectionTimeout`: how long a connection may wait for its peer.
    pub connection_timeout: u64,
    /// `asyncTimeout`: how long asynchronous processing may take where the component says nothing.
    pub async_timeout: u64,
    /// `maxSwallowSize`: bytes of a body that are passed over after its request.
    pub max_swallow: u64,
    /// `maxTrailerSize`: bytes of a chunked body's trailer section, 2 to 8,192.
    pub max_trailer: u32,
    /// One more than the greatest number of a component, or 0 where there is none.
    pub parts: u32,
}

impl Limits {
    ghost use Rattle.cy_settings.specs.Limits.{standard};

    /// The defaults of Tomcat's connector, for so many components.
    pub fn standard(parts: u32) -> Limits
        ensures { result ≡ standard parts }
    {
        Limits {
            max_connections: 256,
            max_head: 8192,
            max_fields: 100,
            max_keep_alive: 100,
            connection_timeout: 20_000,
            async_timeout: 30_000,
            max_swallow: 2_097_152,
            max_trailer: 8192,
            parts,
        }
    }
}
