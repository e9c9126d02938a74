//! All settings of a connector, one by one.
ghost use Rattle.std.specs.Prelude.{◌≡◌};
ghost use Rattle.cy_settings.specs.Settings.{can_be, can_be_unlimited, default_of, greatest_of, least_of, name_of, setting_named};

use crate::limit::Limit;

/// A setting, under the name that it has in Tomcat's HTTP connector.
#[derive(Clone, Copy, Debug, PartialEq, Eq)]
pub enum Setting {
    Limit(Limit),
    /// Threads that are kept.
    MinSpareThreads,
    /// Threads that there are at most.
    MaxThreads,
    /// The port at which connections are accepted; 0 takes a free one.
    Port,
}

/// All settings, in the order in which they are told.
pub const SETTINGS: [Setting; 11] = [
    Setting::Limit(Limit::MaxConnections),
    Setting::Limit(Limit::MaxHttpHeaderSize),
    Setting::Limit(Limit::MaxHeaderCount),
    Setting::Limit(Limit::MaxKeepAliveRequests),
    Setting::Limit(Limit::ConnectionTimeout),
    Setting::Limit(Limit::AsyncTimeout),
    Setting::Limit(Limit::MaxSwallowSize),
    Setting::Limit(Limit::MaxTrailerSize),
    Setting::MinSpareThreads,
    Setting::MaxThreads,
    Setting::Port,
];

impl Setting {
    pub fn name(self) -> &'static str
        ensures { result.now ≡ name_of self }
    {
        match self {
            Setting::Limit(limit) => limit.name(),
            Setting::MinSpareThreads => "minSpareThreads",
            Setting::MaxThreads => "maxThreads",
            Setting::Port => "port",
        }
    }

    /// The setting of a name.
    pub fn named(name: &[u8]) -> Option<Setting>
        ensures { result ≡ setting_named name.now }
    {
        SETTINGS
            .iter()
            .copied()
            .find(|setting| setting.name().as_bytes() == name)
    }

    /// The value that it has where nobody sets it.
    pub fn standard(self) -> u32
        ensures { result ≡ default_of self }
    {
        match self {
            Setting::Limit(limit) => limit.standard(),
            Setting::MinSpareThreads => 4,
            Setting::MaxThreads => 16,
            Setting::Port => 8080,
        }
    }

    /// The least value that it may have.
    pub fn least(self) -> u32
        ensures { result ≡ least_of self }
    {
        match self {
            Setting::Limit(limit) => limit.least(),
            Setting::MinSpareThreads | Setting::MaxThreads => 1,
            Setting::Port => 0,
        }
    }

    /// The greatest value that it may have.
    pub fn greatest(self) -> u32
        ensures { result ≡ greatest_of self }
    {
        match self {
            Setting::Limit(limit) => limit.greatest(),
            Setting::MinSpareThreads | Setting::MaxThreads => 64,
            Setting::Port => 65_535,
        }
    }

    /// Whether it may also be -1, which is no limit.
    fn can_be_unlimited(self) -> bool
        ensures { result ≡ can_be_unlimited self }
    {
        match self {
            Setting::Limit(limit) => limit.can_be_absent(),
            _ => false,
        }
    }

    /// Whether it may have the value: one in its range, or -1 where that is no limit.
    pub fn can_be(self, value: i64) -> bool
        ensures { result ≡ can_be self value }
    {
        match u64::try_from(value) {
            Ok(number) => {
                u64::from(self.least()) <= number && number <= u64::from(self.greatest())
            }
            Err(_) => value == -1 && self.can_be_unlimited(),
        }
    }
}
