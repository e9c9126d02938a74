//! The names of HTTP.

ghost use Rattle.std.specs.Prelude.{◌≡◌};
ghost use Rattle.std.specs.List.{list_all};
ghost use Rattle.cy_bytes.specs.Tokens.{is_token, is_token_byte};

/// Whether the bytes are a token (RFC 9110, section 5.6.2): one or more letters, digits and
/// ``!#$%&'*+-.^_`|~``.
pub fn is_token(bytes: &[u8]) -> bool
    ensures { result ≡ is_token bytes.now }
{
    !bytes.is_empty() && has_token_bytes_only(bytes)
}

#[tactic(auto, unfolding(crate::specs::Tokens::is_token_byte))]
fn has_token_bytes_only(bytes: &[u8]) -> bool
    ensures { result ≡ list_all is_token_byte bytes.now }
{
    bytes.iter().all(|byte| byte.is_ascii_alphanumeric() || b"!#$%&'*+-.^_`|~".contains(byte))
}

#[cfg(test)]
mod tests {
    use super::*;

    #[test]
    fn tokens(rt: HostRuntime) {
        for token in ["a", "GET", "X-9", "!#$%&'*+-.^_`|~", "Content-Length"] {
            assert!(rt; is_token(token.as_bytes()), "{token}");
        }
        for other in [
            "", " ", "a b", "a:", "a/b", "\"a\"", "(a)", "a,b", "\u{7f}", "é", "a\0", "\ta",
        ] {
            assert!(rt; !is_token(other.as_bytes()), "{other}");
        }
    }
}
