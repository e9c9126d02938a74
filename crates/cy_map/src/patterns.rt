//! The forms of a pattern, and the parts of a path that they are matched with.
ghost use Rattle.std.specs.Prelude.{◌≡◌, ◌≤◌, length, option_map, nat_lt};
ghost use Rattle.cy_map.specs.Patterns.{is_default, exact_path, is_base, prefix_base, is_name, extension_name, is_pattern, last_segment, extension_of, ends_base};

use memchr::memrchr;

/// Whether a text is one of the four forms of a pattern.
pub fn is_pattern(text: &[u8]) -> bool
    ensures { result ≡ is_pattern text.now }
{
    is_default(text)
        || exact_path(text).is_some()
        || prefix_base(text).is_some()
        || extension_name(text).is_some()
}

/// `/` alone.
pub fn is_default(pattern: &[u8]) -> bool
    ensures { result ≡ is_default pattern.now }
{
    pattern == b"/".as_slice()
}

/// An exact path: it begins with `/`, isn't the default, and has no `*`.
pub fn exact_path(pattern: &[u8]) -> Option<&[u8]>
    ensures { option_map (λ path. path.now) result ≡ exact_path pattern.now }
{
    if pattern.starts_with(b"/") && pattern.len() > 1 && !pattern.contains(&b'*') {
        Some(pattern)
    } else {
        None
    }
}

/// What stands before the last two bytes of a prefix: `/x` of `/x/*`, and nothing of `/*`.
pub fn prefix_base(pattern: &[u8]) -> Option<&[u8]>
    ensures { option_map (λ base. base.now) result ≡ prefix_base pattern.now }
{
    if !pattern.ends_with(b"/*") {
        return None;
    }
    let base = &pattern[..pattern.len() - 2];
    if is_base(base) { Some(base) } else { None }
}

fn is_base(text: &[u8]) -> bool
    ensures { result ≡ is_base text.now }
{
    match text {
        [] => true,
        [first, rest @ ..] => *first == b'/' && !rest.is_empty() && !rest.contains(&b'*'),
    }
}

/// The name of an extension: `e` of `*.e`.
pub fn extension_name(pattern: &[u8]) -> Option<&[u8]>
    ensures { option_map (λ name. name.now) result ≡ extension_name pattern.now }
{
    if !pattern.starts_with(b"*.") {
        return None;
    }
    let name = &pattern[2..];
    if is_name(name) { Some(name) } else { None }
}

fn is_name(text: &[u8]) -> bool
    ensures { result ≡ is_name text.now }
{
    !text.is_empty() && !text.contains(&b'/') && !text.contains(&b'.') && !text.contains(&b'*')
}

/// What stands behind the last dot of the last segment of a path, where that has one.
pub fn extension_of(path: &[u8]) -> Option<&[u8]>
    ensures { option_map (λ name. name.now) result ≡ extension_of path.now }
{
    let segment = last_segment(path);
    match memrchr(b'.', segment) {
        Some(dot) => Some(&segment[dot + 1..]),
        None => None,
    }
}

fn last_segment(path: &[u8]) -> &[u8]
    ensures { result.now ≡ last_segment path.now }
{
    match memrchr(b'/', path) {
        Some(slash) => &path[slash + 1..],
        None => path,
    }
}

/// Whether a base of a prefix ends at this place of a path that begins with it: a slash stands there, or it is the end
/// of a path that isn't empty.
pub fn ends_base(path: &[u8], end: usize) -> bool
    requires { end ≤ length path.now }
    ensures { result ≡ ends_base path.now end }
{
    match path.get(end) {
        Some(byte) => *byte == b'/',
        None => end > 0,
    }
}
