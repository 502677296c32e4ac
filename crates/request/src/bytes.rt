//! Searches in bytes.
ghost use Rattle.std.specs.Prelude.{◌≡◌, ◌∷◌, ◌++◌, MatchOption};
ghost use Rattle.request.specs.Meaning.{Free};

/// What stands before the first byte `mark`, and what stands behind it.
pub(crate) fn split_once(bytes: &[u8], mark: u8) -> Option<(&[u8], &[u8])>
    ensures { MatchOption result (Free mark bytes.now) (λ p. Free mark p.0.now × (bytes.now ≡ p.0.now ++ mark ∷ p.1.now)) }
{
    let n = bytes.iter().position(|b| *b == mark)?;
    Some((&bytes[..n], &bytes[n + 1..]))
}
