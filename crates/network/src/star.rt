//! A star: each site is a group of its own, with one up-fibre and one down-fibre.
ghost use Rattle.std.specs.Prelude.{◌≡◌, true};
ghost use Rattle.network.specs.Network.{star, star_network, sound_star};
ghost use Rattle.network.specs.Stars.{star_bounded, star_outside, star_grouped, star_separate, star_meeting};

use crate::check::{STAR_SITES, check_star};
use crate::layout::Layout;
use crate::path::{two_sites, up_or_down};
use arrayvec::ArrayVec;

#[derive(Drop)]
pub struct Star {
    ports: ArrayVec<u8, STAR_SITES>,
    ghost sound: { sound_star ports.items ≡ true },
}

impl Star {
    /// The star whose site `i` has `ports[i]` ports; the empty one where the check refuses the list.
    pub fn new(ports: &[u8]) -> Star
        ensures { star result.ports.items ≡ star_network ports.now }
    {
        match check_star(ports) {
            // a list that passed fits
            Ok(()) => Star {
                ports: ArrayVec::try_from(ports).unwrap_or_default(),
            },
            Err(_) => Star {
                ports: ArrayVec::new(),
            },
        }
    }
}

impl Layout for Star {
    ghost network = { λ s. star s.ports.items };

    ghost bounded = { λ x. star_bounded x.ports.items x.sound };

    ghost outside = { λ x. star_outside x.ports.items };

    ghost grouped = { λ x. star_grouped x.ports.items };

    ghost separate = { λ x. star_separate x.ports.items };

    ghost meeting = { λ x. star_meeting x.ports.items };

    fn sites(&self) -> u8 {
        self.ports.len() as u8
    }

    fn groups(&self) -> u8 {
        self.sites()
    }

    fn fibres(&self) -> u16 {
        2 * u16::from(self.sites())
    }

    fn ports(&self, site: u8) -> u8 {
        self.ports.get(usize::from(site)).copied().unwrap_or(0)
    }

    fn group(&self, site: u8) -> u8 {
        site.min(self.sites())
    }

    fn lights(&self, source: u8, destination: u8, fibre: u16) -> bool {
        two_sites(self.sites(), source, destination) && up_or_down(0, source, destination, fibre)
    }
}
