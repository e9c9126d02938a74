//! What a connector is set to.
ghost use Rattle.std.specs.Prelude.{◌≡◌, true};
ghost use Rattle.std.specs.List.{list_all};
ghost use Rattle.cy_settings.specs.Settings.{AreInRange};
ghost use Rattle.cy_settings.specs.Rules.{AreRules, has_part, parts_of};
ghost use Rattle.cy_config.specs.Kept.{AreThreads};

use cy_settings::{Limit, Limits, Rules, Setting};

/// The settings that are told of a connector, in the order in which they are: all but the port.
pub const TOLD: [Setting; 10] = [
    Setting::Limit(Limit::MaxConnections),
    Setting::Limit(Limit::MaxHttpHeaderSize),
    Setting::Limit(Limit::MaxHeaderCount),
    Setting::Limit(Limit::MaxKeepAliveRequests),
    Setting::Limit(Limit::ConnectionTimeout),
    Setting::Limit(Limit::AsyncTimeout),
    Setting::Limit(Limit::MaxSwallowSize),
    Setting::Limit(Limit::MaxTrailerSize),
    Setting::MinSpareThreads,
    Setting::MaxThreads,
];

/// The settings of a connector. Each has a value in its range.
#[derive(Debug, Drop)]
pub struct Settings {
    pub limits: Limits,
    /// `port`: where connections are accepted; 0 takes a free port.
    pub port: u16,
    /// `minSpareThreads`: threads that are kept, 1 to 64.
    pub core: u32,
    /// `maxThreads`: threads that there are at most, 1 to 64.
    pub max: u32,
    pub rules: Rules,
    pub ghost in_range: { AreInRange limits },
    pub ghost threads: { AreThreads core max },
    pub ghost taken: { AreRules rules },
    pub ghost known_parts: { list_all has_part rules ≡ true },
    pub ghost parts: { limits.parts ≡ parts_of rules },
}

impl Settings {
    ghost use Rattle.cy_config.specs.Printing.{value_in};
    ghost use Rattle.cy_config.specs.Texts.{shown};

    /// The value of a setting.
    pub fn value(&self, setting: Setting) -> i64
        ensures { result ≡ value_in (shown self.now) setting }
    {
        match setting {
            Setting::Limit(limit) => limit.of(&self.limits),
            Setting::MinSpareThreads => i64::from(self.core),
            Setting::MaxThreads => i64::from(self.max),
            Setting::Port => i64::from(self.port),
        }
    }
}
