//! A plant of mirrors, which it keeps itself: one for each wavelength and source group.
ghost use Rattle.std.specs.Prelude.{◌≡◌, ℕ, ◌≤◌, Ok};
ghost use Rattle.plant.specs.Making.{granted, hub_verdict};
ghost use Rattle.plant.specs.Mirrors.{Sound, mirror_switch};
ghost use Rattle.plant.specs.Proper.{hub_proper};
ghost use Rattle.plant.specs.Switch.{dark_switch};

use crate::lightpath::Lightpath;
use crate::make::{Counts, Make, ask_counts};
use crate::refusal::MakingRefusal;

// By wavelength and source group, the destination group at which the mirror points.
#[derive(Drop)]
pub struct MirrorHub {
    mirrors: [[Option<u8>; 32]; 32],
    waves: u8,
    groups: u8,
    ghost sound: { Sound waves groups mirrors },
}

impl MirrorHub {
    /// Can a hub of these counts be made?
    pub fn check(waves: u8, groups: u8) -> Result<(), MakingRefusal>
        ensures { result ≡ hub_verdict waves groups }
    {
        ask_counts(waves, groups)
    }

    /// A dark hub; one of refused counts has no wavelengths and no groups.
    pub fn new(waves: u8, groups: u8) -> MirrorHub
        ensures { mirror_switch result.waves result.groups result.mirrors ≡ dark_switch (granted (hub_verdict waves groups) waves) (granted (hub_verdict waves groups) groups) }
    {
        match MirrorHub::check(waves, groups) {
            Ok(()) => MirrorHub::dark(waves, groups),
            Err(_) => MirrorHub::dark(0, 0),
        }
    }

    fn dark(waves: u8, groups: u8) -> MirrorHub
        requires few { (waves ≤ 32) × (groups ≤ 32) }
        requires both { (waves ≡ 0 → groups ≡ 0) × (groups ≡ 0 → waves ≡ 0) }
        ensures { mirror_switch result.waves result.groups result.mirrors ≡ dark_switch waves groups }
    {
        MirrorHub {
            mirrors: [[None; 32]; 32],
            waves,
            groups,
        }
    }
}

impl Make for MirrorHub {
    ghost state = { λ h. mirror_switch h.waves h.groups h.mirrors };

    ghost proper = { λ h. hub_proper h.waves h.groups h.mirrors h.sound };

    ghost Kept = { ℕ };

    ghost kept = { λ _. 0 };

    fn counts(&self) -> Counts {
        Counts {
            waves: self.waves,
            groups: self.groups,
        }
    }

    // The source whose mirror points at b.
    fn source_at(&self, w: u8, b: u8) -> Option<u8> {
        if w >= self.waves || b >= self.groups {
            return None;
        }
        let row = &self.mirrors[w as usize];
        (0..self.groups).find(|a| row[*a as usize].is_some_and(|target| target == b))
    }

    // Where the mirror of a points.
    fn target_of(&self, w: u8, a: u8) -> Option<u8> {
        if w >= self.waves || a >= self.groups {
            return None;
        }
        self.mirrors[w as usize][a as usize]
    }

    // Points the mirror of the source at the destination.
    fn set(&mut self, path: Lightpath) {
        self.mirrors[path.wavelength as usize][path.source as usize] = Some(path.destination);
    }

    // Turns the mirror of the source away.
    fn clear(&mut self, path: Lightpath) {
        self.mirrors[path.wavelength as usize][path.source as usize] = None;
    }
}
