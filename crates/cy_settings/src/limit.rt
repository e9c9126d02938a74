//! The settings that limit what a connector does, one by one.
ghost use Rattle.std.specs.Prelude.{◌≡◌};
ghost use Rattle.cy_settings.specs.Settings.{AreInRange};
ghost use Rattle.cy_settings.specs.Limits.{can_be_absent, limit_default, limit_greatest, limit_in, limit_least, limit_name, limit_named};

use crate::limits::Limits;

/// A limit, under the name that it has in Tomcat's HTTP connector. Times are milliseconds, sizes bytes.
#[derive(Clone, Copy, Debug, PartialEq, Eq)]
pub enum Limit {
    /// Connections that are counted at once.
    MaxConnections,
    /// Bytes of a head with its empty line.
    MaxHttpHeaderSize,
    /// Fields of a head.
    MaxHeaderCount,
    /// Requests of one connection.
    MaxKeepAliveRequests,
    /// How long a connection may wait for its peer.
    ConnectionTimeout,
    /// How long asynchronous processing may take where the component says nothing.
    AsyncTimeout,
    /// Bytes of a body that are passed over after its request.
    MaxSwallowSize,
    /// Bytes of a chunked body's trailer section.
    MaxTrailerSize,
}

/// All limits.
pub const LIMITS: [Limit; 8] = [
    Limit::MaxConnections,
    Limit::MaxHttpHeaderSize,
    Limit::MaxHeaderCount,
    Limit::MaxKeepAliveRequests,
    Limit::ConnectionTimeout,
    Limit::AsyncTimeout,
    Limit::MaxSwallowSize,
    Limit::MaxTrailerSize,
];

impl Limit {
    pub fn name(self) -> &'static str
        ensures { result.now ≡ limit_name self }
    {
        match self {
            Limit::MaxConnections => "maxConnections",
            Limit::MaxHttpHeaderSize => "maxHttpHeaderSize",
            Limit::MaxHeaderCount => "maxHeaderCount",
            Limit::MaxKeepAliveRequests => "maxKeepAliveRequests",
            Limit::ConnectionTimeout => "connectionTimeout",
            Limit::AsyncTimeout => "asyncTimeout",
            Limit::MaxSwallowSize => "maxSwallowSize",
            Limit::MaxTrailerSize => "maxTrailerSize",
        }
    }

    /// The limit of a name.
    pub fn named(name: &[u8]) -> Option<Limit>
        ensures { result ≡ limit_named name.now }
    {
        LIMITS
            .iter()
            .copied()
            .find(|limit| limit.name().as_bytes() == name)
    }

    /// The value that it has where nobody sets it.
    pub fn standard(self) -> u32
        ensures { result ≡ limit_default self }
    {
        match self {
            Limit::MaxConnections => 256,
            Limit::MaxHttpHeaderSize | Limit::MaxTrailerSize => 8192,
            Limit::MaxHeaderCount | Limit::MaxKeepAliveRequests => 100,
            Limit::ConnectionTimeout => 20_000,
            Limit::AsyncTimeout => 30_000,
            Limit::MaxSwallowSize => 2_097_152,
        }
    }

    /// The least value that it may have.
    pub fn least(self) -> u32
        ensures { result ≡ limit_least self }
    {
        match self {
            Limit::AsyncTimeout | Limit::MaxSwallowSize => 0,
            Limit::MaxTrailerSize => 2,
            Limit::MaxHttpHeaderSize => 256,
            _ => 1,
        }
    }

    /// The greatest value that it may have.
    pub fn greatest(self) -> u32
        ensures { result ≡ limit_greatest self }
    {
        match self {
            Limit::MaxHeaderCount => 100,
            Limit::MaxConnections | Limit::MaxHttpHeaderSize | Limit::MaxTrailerSize => 8192,
            Limit::ConnectionTimeout | Limit::AsyncTimeout => 86_400_000,
            Limit::MaxKeepAliveRequests | Limit::MaxSwallowSize => 2_147_483_647,
        }
    }

    /// Whether it may also be -1, which is no limit.
    pub fn can_be_absent(self) -> bool
        ensures { result ≡ can_be_absent self }
    {
        matches!(self, Limit::MaxKeepAliveRequests)
    }

    /// The value that it has in these limits.
    pub fn of(self, limits: &Limits) -> i64
        requires { AreInRange limits.now }
        ensures { result ≡ limit_in limits.now self }
    {
        match self {
            Limit::MaxConnections => i64::from(limits.max_connections),
            Limit::MaxHttpHeaderSize => i64::from(limits.max_head),
            Limit::MaxHeaderCount => i64::from(limits.max_fields),
            Limit::MaxKeepAliveRequests => limits.max_keep_alive,
            Limit::ConnectionTimeout => limits.connection_timeout as i64,
            Limit::AsyncTimeout => limits.async_timeout as i64,
            Limit::MaxSwallowSize => limits.max_swallow as i64,
            Limit::MaxTrailerSize => i64::from(limits.max_trailer),
        }
    }
}
