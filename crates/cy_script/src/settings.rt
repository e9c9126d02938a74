//! The settings that a script may change.

ghost use Rattle.std.specs.Prelude.{◌≡◌, ◌≤◌};
ghost use Rattle.cy_script.specs.Settings.{with_setting};
ghost use Rattle.cy_settings.specs.Limits.{limit_greatest};

use cy_event::Limits;
use cy_settings::Limit;

/// Limits in which a setting has another value.
pub(crate) fn with_setting(setting: Limit, value: u64, mut limits: Limits) -> Limits
    requires { value ≤ limit_greatest setting }
    ensures { result ≡ with_setting setting value limits }
{
    match setting {
        Limit::MaxConnections => limits.max_connections = value as u32,
        Limit::MaxHttpHeaderSize => limits.max_head = value as u32,
        Limit::MaxHeaderCount => limits.max_fields = value as u32,
        Limit::MaxKeepAliveRequests => limits.max_keep_alive = value as i64,
        Limit::ConnectionTimeout => limits.connection_timeout = value,
        Limit::AsyncTimeout => limits.async_timeout = value,
        Limit::MaxSwallowSize => limits.max_swallow = value,
        Limit::MaxTrailerSize => limits.max_trailer = value as u32,
    }
    limits
}
