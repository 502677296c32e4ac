//! A splitter: sites in branches, each branch a group, whose sites share one trunk of an up-fibre and a down-fibre.
ghost use Rattle.std.specs.Prelude.{◌≡◌, ◌≤◌, true, length, slice_index_or};
ghost use Rattle.network.specs.Network.{ports_of, entries_of, splitter, splitter_network, sound_splitter};
ghost use Rattle.network.specs.Splitters.{splitter_bounded, splitter_outside, splitter_grouped, splitter_separate, splitter_meeting};
ghost use Rattle.network.specs.Verdicts.{splitter_branched};

use crate::check::{SPLITTER_SITES, check_splitter};
use crate::layout::Layout;
use crate::path::{two_sites, up_or_down};
use arrayvec::ArrayVec;

#[derive(Clone, Copy, Default)]
struct Site {
    ports: u8,
    branch: u8,
}

#[derive(Drop)]
pub struct Splitter {
    sites: ArrayVec<Site, SPLITTER_SITES>,
    branches: u8,
    ghost sound: { sound_splitter (ports_of sites.items) (entries_of sites.items) branches ≡ true },
}

/// Site `i` has `ports[i]` ports and lies in branch `entries[i]`.
fn sites_of(ports: &[u8], entries: &[u8]) -> ArrayVec<Site, SPLITTER_SITES>
    requires { (length entries.now ≡ length ports.now) × (length ports.now ≤ 128) }
    ensures ports { ports_of result.items ≡ ports.now }
    ensures entries { entries_of result.items ≡ entries.now }
{
    let mut sites = ArrayVec::new();
    for (count, entry) in ports.iter().zip(entries) {
        sites.push(Site {
            ports: *count,
            branch: *entry,
        });
    }
    sites
}

impl Splitter {
    /// The splitter whose site `i` has `ports[i]` ports and lies in branch `entries[i]`; the empty one where the check
    /// refuses the lists.
    pub fn new(ports: &[u8], entries: &[u8], branches: u8) -> Splitter
        ensures { splitter (ports_of result.sites.items) (entries_of result.sites.items) result.branches ≡ splitter_network ports.now entries.now branches }
    {
        match check_splitter(ports, entries, branches) {
            Ok(()) => Splitter {
                sites: sites_of(ports, entries),
                branches,
            },
            Err(_) => Splitter {
                sites: ArrayVec::new(),
                branches: 0,
            },
        }
    }

    /// The number of branches for a number that is no site.
    fn branch_of(&self, site: u8) -> u8
        ensures { result ≡ slice_index_or (entries_of self.now.sites.items) site self.now.branches }
    {
        self.sites
            .get(usize::from(site))
            .map_or(self.branches, |kept| kept.branch)
    }
}

impl Layout for Splitter {
    ghost network = { λ s. splitter (ports_of s.sites.items) (entries_of s.sites.items) s.branches };

    ghost bounded = { λ x. splitter_bounded (ports_of x.sites.items) (entries_of x.sites.items) x.branches (splitter_branched (ports_of x.sites.items) (entries_of x.sites.items) x.branches x.sound) };

    ghost outside = { λ x. splitter_outside (ports_of x.sites.items) (entries_of x.sites.items) x.branches (splitter_branched (ports_of x.sites.items) (entries_of x.sites.items) x.branches x.sound) };

    ghost grouped = { λ x. splitter_grouped (ports_of x.sites.items) (entries_of x.sites.items) x.branches (splitter_branched (ports_of x.sites.items) (entries_of x.sites.items) x.branches x.sound) };

    ghost separate = { λ x. splitter_separate (ports_of x.sites.items) (entries_of x.sites.items) x.branches };

    ghost meeting = { λ x. splitter_meeting (ports_of x.sites.items) (entries_of x.sites.items) x.branches };

    fn sites(&self) -> u8 {
        self.sites.len() as u8
    }

    fn groups(&self) -> u8 {
        self.branches
    }

    fn fibres(&self) -> u16 {
        2 * u16::from(self.sites()) + 2 * u16::from(self.branches)
    }

    fn ports(&self, site: u8) -> u8 {
        self.sites
            .get(usize::from(site))
            .map_or(0, |kept| kept.ports)
    }

    fn group(&self, site: u8) -> u8 {
        self.branch_of(site)
    }

    fn lights(&self, source: u8, destination: u8, fibre: u16) -> bool {
        let trunks = 2 * u16::from(self.sites());
        two_sites(self.sites(), source, destination)
            && (up_or_down(0, source, destination, fibre)
                || up_or_down(trunks, self.group(source), self.group(destination), fibre))
    }
}
