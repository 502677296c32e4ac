//! The words of a line.
ghost use Rattle.std.specs.Prelude.{◌≡◌, ℕ, suc, ◌<◌, false, ◌∷◌, length, Ok, Err, MatchResult};
ghost use Rattle.request.specs.Words.{five_of, five_words, just_words, pieces_left, split_spaces};
ghost use Rattle.request.specs.declared.fault.LineFault.TheVariants.{Spacing};

use crate::bytes::split_once;
use crate::fault::LineFault;

/// The five words of a line.
#[derive(Clone, Copy)]
pub(crate) struct Words<'a> {
    pub(crate) act: &'a [u8],
    pub(crate) session: &'a [u8],
    pub(crate) from: &'a [u8],
    pub(crate) to: &'a [u8],
    pub(crate) limit: &'a [u8],
}

/// The first word of what is left of a line, and what is left behind its space; `None` where the line is at its end.
fn next_word(left: Option<&[u8]>) -> Result<(&[u8], Option<&[u8]>), LineFault>
    ensures { MatchResult result (λ p. (0 < length p.0.now) × (pieces_left left.entry ≡ p.0.now ∷ pieces_left p.1)) (λ f. (f ≡ Spacing) × ((n : ℕ) → just_words (suc n) (pieces_left left.entry) ≡ false)) }
{
    let bytes = left.ok_or(LineFault::Spacing)?;
    let (word, left) = match split_once(bytes, b' ') {
        Some((word, rest)) => (word, Some(rest)),
        None => (bytes, None),
    };
    if word.is_empty() {
        return Err(LineFault::Spacing);
    }
    Ok((word, left))
}

/// The five words of a line, with one space between.
pub(crate) fn split_words(line: &[u8]) -> Result<Words<'_>, LineFault>
    ensures { MatchResult result (λ w. five_words (split_spaces line.now) ≡ Ok (five_of w)) (λ f. five_words (split_spaces line.now) ≡ Err f) }
{
    let (act, left) = next_word(Some(line))?;
    let (session, left) = next_word(left)?;
    let (from, left) = next_word(left)?;
    let (to, left) = next_word(left)?;
    let (limit, left) = next_word(left)?;
    match left {
        None => Ok(Words {
            act,
            session,
            from,
            to,
            limit,
        }),
        Some(_) => Err(LineFault::Spacing),
    }
}
