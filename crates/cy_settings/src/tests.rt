// What the contracts leave open: that names, defaults and ranges are the ones of the table.
use super::*;
use cy_bytes::Bytes;
use cy_map::Rule;
use std::test::Fail;

#[test]
fn settings_have_their_names_defaults_and_ranges(rt: HostRuntime) -> Result<(), Fail> {
    let table: [(&str, u32, u32, u32); 11] = [
        ("maxConnections", 256, 1, 8192),
        ("maxHttpHeaderSize", 8192, 256, 8192),
        ("maxHeaderCount", 100, 1, 100),
        ("maxKeepAliveRequests", 100, 1, 2_147_483_647),
        ("connectionTimeout", 20_000, 1, 86_400_000),
        ("asyncTimeout", 30_000, 0, 86_400_000),
        ("maxSwallowSize", 2_097_152, 0, 2_147_483_647),
        ("maxTrailerSize", 8192, 2, 8192),
        ("minSpareThreads", 4, 1, 64),
        ("maxThreads", 16, 1, 64),
        ("port", 8080, 0, 65_535),
    ];
    for (row, setting) in table.iter().zip(SETTINGS.iter()) {
        assert_eq!(rt; setting.name(), row.0);
        assert_eq!(rt; Setting::named(row.0.as_bytes()), Some(*setting));
        assert_eq!(rt; setting.standard(), row.1, "{}", row.0);
        assert_eq!(rt; setting.least(), row.2, "{}", row.0);
        assert_eq!(rt; setting.greatest(), row.3, "{}", row.0);
    }
    Ok(())
}

#[test]
fn no_limit_is_a_value_of_one_setting(rt: HostRuntime) -> Result<(), Fail> {
    for setting in SETTINGS {
        let is_unlimited = setting == Setting::Limit(Limit::MaxKeepAliveRequests);
        assert_eq!(rt; setting.can_be(-1), is_unlimited);
        assert!(rt; !setting.can_be(-2));
        assert!(rt; setting.can_be(i64::from(setting.greatest())));
        assert!(rt; !setting.can_be(i64::from(setting.greatest()) + 1));
    }
    Ok(())
}

#[test]
fn limits_have_their_values(rt: HostRuntime) -> Result<(), Fail> {
    let limits = Limits::standard(3);
    for limit in LIMITS {
        assert_eq!(rt; limit.of(&limits), i64::from(limit.standard()));
        assert_eq!(rt; Limit::named(limit.name().as_bytes()), Some(limit));
    }
    assert_eq!(rt; limits.parts, 3);
    assert_eq!(rt; Setting::named(b"maxConnection"), None);
    Ok(())
}

#[test]
fn rules_are_listed(rt: HostRuntime) -> Result<(), Fail> {
    let rule = Rule {
        pattern: Bytes::of(Vec::from_slice(rt.alloc(), b"/a")?),
        part: 7,
        can_async: false,
    };
    let rules = Rules::of(vec![in rt.alloc(); rule]?);
    assert_eq!(rt; rules.as_slice().len(), 1);
    assert!(rt; has_pattern(rules.as_slice(), b"/a"));
    assert!(rt; !has_pattern(rules.as_slice(), b"/"));
    assert_eq!(rt; rules.into_vec().len(), 1);
    assert_eq!(rt; parts_of(&[]), 0);
    settings_are_the_table();
    values_are_in_range();
    parts_are_counted();
    Ok(())
}
