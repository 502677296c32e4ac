//! Do two plants, of whatever make, let the same be heard?
ghost use Rattle.std.specs.Prelude.{◌≡◌, ℕ, ◌<◌, true, false};
ghost use Rattle.commission.specs.Job.{Same};

use plant::Plant;

fn agree_on<A: Plant, B: Plant>(first: &A, second: &B, w: u8) -> bool
    ensures yes { result ≡ true → (b : ℕ) → b < (A.state first.now).groups → (A.state first.now).hears w b ≡ (B.state second.now).hears w b }
    ensures no { result ≡ false → ((b : ℕ) → (A.state first.now).hears w b ≡ (B.state second.now).hears w b) → ⊥ }
{
    (0..first.groups()).all(|b| first.heard(w, b) == second.heard(w, b))
}

/// True exactly where both have the same counts and the same is heard everywhere.
pub(crate) fn agree<A: Plant, B: Plant>(first: &A, second: &B) -> bool
    ensures yes { result ≡ true → Same (A.state first.now) (B.state second.now) }
    ensures no { result ≡ false → Same (A.state first.now) (B.state second.now) → ⊥ }
{
    first.waves() == second.waves()
        && first.groups() == second.groups()
        && (0..first.waves()).all(|w| agree_on(first, second, w))
}
