//! Lines of bytes.

ghost use Rattle.std.specs.Prelude.{◌≡◌, ◌++◌, ◌∷◌, IfSome, IfNone};
ghost use Rattle.drg_derivation.specs.Places.{HasNoEnd};

/// The bytes before the first line end, and those after it.
pub fn split_line(bytes: &[u8]) -> Option<(&[u8], &[u8])>
    ensures whole { IfSome result (λ x. bytes.now ≡ x.0.now ++ 10 ∷ x.1.now) }
    ensures line { IfSome result (λ x. HasNoEnd x.0.now) }
    ensures none { IfNone result (HasNoEnd bytes.now) }
{
    let len = bytes.iter().position(|byte| *byte == b'\n')?;
    Some((&bytes[..len], &bytes[len + 1..]))
}
