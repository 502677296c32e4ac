//! The checks at their edges, both layouts on small lists, and a caller for every layout that leans on the laws.
ghost use Rattle.std.specs.Prelude.{◌≡◌, ℕ, true, ◌⊎◌};
ghost use Rattle.network.specs.Network.{Ends};

use crate::check::{check_splitter, check_star};
use crate::layout::Layout;
use crate::refusal::LayoutRefusal;
use crate::splitter::Splitter;
use crate::star::Star;

fn answer(verdict: Result<(), LayoutRefusal>) -> u8 {
    match verdict {
        Ok(()) => 0,
        Err(refusal) => refusal.number(),
    }
}

/// Of all fibres, the session lights just these.
fn lights_just<L: Layout>(layout: &L, source: u8, destination: u8, fibres: &[u16]) -> bool {
    (0..layout.fibres()).all(|fibre| layout.lights(source, destination, fibre)
        == fibres.contains(&fibre))
}

/// Two sessions that light one fibre share a group at one end, and two from one site light some fibre in common.
fn both_light<L: Layout>(
    layout: &L,
    source: u8,
    destination: u8,
    source2: u8,
    destination2: u8,
    fibre: u16,
) -> bool
    ensures shared { result ≡ true → ((L.network layout.now).group source ≡ (L.network layout.now).group source2) ⊎ ((L.network layout.now).group destination ≡ (L.network layout.now).group destination2) }
    ensures meets { Ends (L.network layout.now).sites source destination → Ends (L.network layout.now).sites source destination2 → (f : ℕ) × ((L.network layout.now).lights source destination f ≡ true) × ((L.network layout.now).lights source destination2 f ≡ true) }
{
    layout.lights(source, destination, fibre) && layout.lights(source2, destination2, fibre)
}

#[test]
fn star_is_checked(rt: HostRuntime) {
    assert_eq!(rt; answer(check_star(&[32, 1])), 0);
    assert_eq!(rt; answer(check_star(&[1; 32])), 0);
    assert_eq!(rt; answer(check_star(&[1])), 51);
    assert_eq!(rt; answer(check_star(&[0; 33])), 51);
    assert_eq!(rt; answer(check_star(&[1, 33])), 52);
    assert_eq!(rt; answer(check_star(&[0, 1])), 52);
}

#[test]
fn splitter_is_checked(rt: HostRuntime) {
    assert_eq!(rt; answer(check_splitter(&[1; 128], &[31; 128], 32)), 0);
    assert_eq!(rt; answer(check_splitter(&[0; 129], &[0; 129], 1)), 51);
    assert_eq!(rt; answer(check_splitter(&[1, 33], &[0], 1)), 52);
    assert_eq!(rt; answer(check_splitter(&[1, 1], &[0], 0)), 53);
    assert_eq!(rt; answer(check_splitter(&[1, 1], &[0, 0], 0)), 54);
    assert_eq!(rt; answer(check_splitter(&[1, 1], &[33, 0], 33)), 54);
    assert_eq!(rt; answer(check_splitter(&[1, 1], &[0, 2], 2)), 55);
}

#[test]
fn refused_lists_make_nothing(rt: HostRuntime) {
    let star = Star::new(&[1]);
    assert!(rt; star.sites() == 0 && star.groups() == 0 && star.fibres() == 0);
    let splitter = Splitter::new(&[1, 1], &[0, 2], 2);
    assert!(rt; splitter.sites() == 0 && splitter.groups() == 0 && splitter.fibres() == 0);
}

#[test]
fn star_tells(rt: HostRuntime) {
    let star = Star::new(&[4, 5, 6]);
    assert!(rt; star.sites() == 3 && star.groups() == 3 && star.fibres() == 6);
    assert!(rt; star.ports(2) == 6 && star.group(2) == 2);
    assert!(rt; star.ports(3) == 0 && star.group(3) == 3);
    assert!(rt; lights_just(&star, 2, 0, &[4, 1]));
    assert!(rt;
        lights_just(&star, 1, 1, &[])
            && lights_just(&star, 3, 0, &[])
            && lights_just(&star, 0, 3, &[])
    );
    assert!(rt; !star.lights(2, 0, 6) && !both_light(&star, 0, 1, 1, 0, 0));
}

#[test]
fn splitter_tells(rt: HostRuntime) {
    let splitter = Splitter::new(&[4, 5, 6], &[1, 0, 1], 2);
    assert!(rt; splitter.sites() == 3 && splitter.groups() == 2 && splitter.fibres() == 10);
    assert!(rt; splitter.ports(1) == 5 && splitter.group(1) == 0 && splitter.group(2) == 1);
    assert!(rt; splitter.ports(3) == 0 && splitter.group(3) == 2);
    assert!(rt; lights_just(&splitter, 1, 2, &[2, 5, 6, 9]));
    assert!(rt; lights_just(&splitter, 2, 0, &[4, 1, 8, 9]));
    assert!(rt; both_light(&splitter, 2, 0, 0, 1, 8));
}
