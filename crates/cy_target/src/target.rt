//! A head's path and query.

ghost use Rattle.std.specs.Prelude.{◌≡◌, is_ok, is_some};
ghost use Rattle.cy_event.specs.Targets.{target_of};
ghost use Rattle.cy_target.specs.Kept.{with_target};

use crate::bad_target::BadTarget;
use crate::forms::{is_asterisk, raw_parts};
use crate::segments::write_path;
use cy_event::{RequestHead, extend_in_room};

/// Reads the target of a head: sets its path and its query, and leaves all else. It takes no memory.
///
/// `OPTIONS *` has the path `*`. Any other target is in origin form, or in absolute form of the scheme `http` or
/// `https`, whose authority is not looked at. The query is what follows the first `?`, as it was sent. In the path the
/// parameters of each segment, from a `;` on, are left out first; then escapes are decoded; then empty segments but
/// the last and dot segments are resolved.
///
/// # Errors
///
/// `BadTarget` where the target is in no such form or has a `#` or a `\` behind its authority; where in the path a `%` is followed by other
/// bytes than two hexadecimal digits, or by those of `/`, `\` or NUL; and where a `..` leads above the root. Path and
/// query are empty then.
pub fn read_target(head: &mut RequestHead) -> Result<(), BadTarget>
    ensures read { is_ok result ≡ is_some (target_of head.old.head.method head.old.head.target) }
    ensures head { head.new ≡ with_target (target_of head.old.head.method head.old.head.target) head.old }
{
    head.path_bytes.clear();
    head.query_bytes.clear();
    head.has_query = false;
    if is_asterisk(head.method_bytes.as_slice(), head.target_bytes.as_slice()) {
        head.path_bytes.push_reserved(b'*');
        return Ok(());
    }
    let Some(raw) = raw_parts(head.target_bytes.as_slice()) else {
        return Err(BadTarget);
    };
    match write_path(raw.path, &mut head.path_bytes) {
        Err(bad) => {
            head.path_bytes.clear();
            Err(bad)
        }
        Ok(()) => {
            if let Some(query) = raw.query {
                extend_in_room(&mut head.query_bytes, query);
                head.has_query = true;
            }
            Ok(())
        }
    }
}
