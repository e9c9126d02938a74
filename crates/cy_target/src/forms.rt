//! The forms of a target (RFC 9112, section 3.2).

ghost use Rattle.std.specs.Prelude.{◌≡◌, ◌<◌, ◌≤◌, length, option_map, option_and_then, IfSome};
ghost use Rattle.std.specs.Bool.{OnTrue};
ghost use Rattle.std.specs.List.{list_all, position};
ghost use Rattle.cy_event.specs.Targets.{after_authority, begins_with, behind_slash, ends_authority, is_asterisk, may_follow, origin_form, raw_parts};
ghost use Rattle.cy_target.specs.Reading.{behind_scheme, without_slash};

use cy_event::cut;

/// Path and query of a target as they were sent, the first slash left out.
#[derive(Clone, Copy)]
pub struct RawTarget<'a> {
    pub path: &'a [u8],
    pub query: Option<&'a [u8]>,
}

/// Whether the request is for the whole server: `OPTIONS *`.
pub fn is_asterisk(method: &[u8], target: &[u8]) -> bool
    ensures { result ≡ is_asterisk method.now target.now }
{
    method == b"OPTIONS".as_slice() && target == b"*".as_slice()
}

/// Path and query, where the target is in origin form or in absolute form.
pub fn raw_parts(target: &[u8]) -> Option<RawTarget<'_>>
    ensures parts { option_map (λ r. (r.path.now, option_map (λ q. q.now) r.query)) result
        ≡ option_and_then raw_parts (behind_slash (origin_form target.now)) }
    ensures path_fits { IfSome result (λ r. length r.path.now < length target.now) }
    ensures query_fits { IfSome result (λ r.
        IfSome r.query (λ q. length q.now < length target.now)) }
{
    let raw = behind_slash(target)?;
    if !has_allowed_bytes_only(raw) {
        return None;
    }
    Some(match cut(raw, b'?') {
        Some((path, query)) => RawTarget {
            path,
            query: Some(query),
        },
        None => RawTarget {
            path: raw,
            query: None,
        },
    })
}

/// Whether neither `#` nor `\` stands in it.
fn has_allowed_bytes_only(raw: &[u8]) -> bool
    ensures { result ≡ list_all may_follow raw.now }
{
    raw.iter().all(|byte| *byte != b'#' && *byte != b'\\')
}

/// What stands behind the first slash, where the target is in origin form or in absolute form.
fn behind_slash(target: &[u8]) -> Option<&[u8]>
    ensures value { option_map (λ r. r.now) result ≡ behind_slash (origin_form target.now) }
    ensures shorter { IfSome result (λ r. length r.now < length target.now) }
{
    match (behind_scheme(target), target) {
        (Some(rest), _) => Some(without_slash(after_authority(rest))),
        (None, [b'/', raw @ ..]) => Some(raw),
        (None, _) => None,
    }
}

/// What stands behind the scheme, where the target is in absolute form.
fn behind_scheme(target: &[u8]) -> Option<&[u8]>
    ensures value { option_map (λ r. r.now) result ≡ behind_scheme target.now }
    ensures shorter { IfSome result (λ r. length r.now < length target.now) }
{
    if begins_with(target, b"http://") {
        Some(&target[b"http://".len()..])
    } else if begins_with(target, b"https://") {
        Some(&target[b"https://".len()..])
    } else {
        None
    }
}

/// Whether the word stands first, in any case.
fn begins_with(target: &[u8], word: &[u8]) -> bool
    ensures value { result ≡ begins_with word.now target.now }
    ensures within { OnTrue result (length word.now ≤ length target.now) }
{
    target.len() >= word.len() && target[..word.len()].eq_ignore_ascii_case(word)
}

/// What stands from the end of the authority on.
fn after_authority(rest: &[u8]) -> &[u8]
    ensures value { result.now ≡ after_authority rest.now }
    ensures within { length result.now ≤ length rest.now }
{
    match end_of_authority(rest) {
        Some(end) => &rest[end..],
        None => &[],
    }
}

/// Where the authority ends before a path or a query.
fn end_of_authority(rest: &[u8]) -> Option<usize>
    ensures place { result ≡ position ends_authority rest.now }
    ensures within { IfSome result (λ end. end < length rest.now) }
{
    rest.iter().position(|byte| *byte == b'/' || *byte == b'?')
}

/// What stands behind the slash of a path, or behind the slash that an empty path lacks.
fn without_slash(rest: &[u8]) -> &[u8]
    ensures value { result.now ≡ without_slash rest.now }
    ensures within { length result.now ≤ length rest.now }
{
    match rest {
        [b'/', raw @ ..] => raw,
        _ => rest,
    }
}
