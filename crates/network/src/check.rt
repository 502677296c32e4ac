//! The check of the lists that a layout is made of: the first question that fails answers.
ghost use Rattle.std.specs.Prelude.{◌≡◌, nat_lt};
ghost use Rattle.std.specs.List.{list_all};
ghost use Rattle.network.specs.Checks.{sites_verdict, all_ported, star_verdict, splitter_verdict};

use crate::refusal::LayoutRefusal;

/// The most sites of a star.
pub const STAR_SITES: usize = 32;

/// The most sites of a splitter.
pub const SPLITTER_SITES: usize = 128;

/// The most ports of a site.
pub const PORTS: u8 = 32;

/// The most branches of a splitter.
pub const BRANCHES: usize = 32;

pub fn check_star(ports: &[u8]) -> Result<(), LayoutRefusal>
    ensures { result ≡ star_verdict ports.now }
{
    check_sites(STAR_SITES, ports)
}

/// `entries` has the branch of each site.
pub fn check_splitter(ports: &[u8], entries: &[u8], branches: u8) -> Result<(), LayoutRefusal>
    ensures { result ≡ splitter_verdict ports.now entries.now branches }
{
    check_sites(SPLITTER_SITES, ports)?;
    if entries.len() != ports.len() {
        return Err(LayoutRefusal::BranchEntries);
    }
    if !(1..=BRANCHES).contains(&usize::from(branches)) {
        return Err(LayoutRefusal::BranchCount);
    }
    if !all_below(branches, entries) {
        return Err(LayoutRefusal::BranchNumber);
    }
    Ok(())
}

/// What every layout is asked first: are there 2 to `most` sites, with 1 to 32 ports each?
fn check_sites(most: usize, ports: &[u8]) -> Result<(), LayoutRefusal>
    ensures { result ≡ sites_verdict most ports.now (Ok tt) }
{
    if !(2..=most).contains(&ports.len()) {
        return Err(LayoutRefusal::SiteCount);
    }
    if !all_ported(ports) {
        return Err(LayoutRefusal::PortCount);
    }
    Ok(())
}

fn all_ported(ports: &[u8]) -> bool
    ensures { result ≡ all_ported ports.now }
{
    ports.iter().all(|count| (1..=PORTS).contains(count))
}

fn all_below(branches: u8, entries: &[u8]) -> bool
    ensures { result ≡ list_all (λ e. nat_lt e branches) entries.now }
{
    entries.iter().all(|entry| *entry < branches)
}
