//! Both makes of plant on examples and edges.
ghost use Rattle.std.specs.Prelude.{◌≡◌};

use plant::Plant;
use plant::change_over::{Retuning, change_over};
use plant::fabric::RegisterFabric;
use plant::hub::MirrorHub;
use plant::lightpath::Lightpath;
use plant::refusal::{MakingRefusal, PlantRefusal};
use plant::slip::{put_out, relight, retire, take_down};
use std::process::Abort;
use std::test::Fail;

// A lightpath by its wavelength, source and destination.
fn path(wavelength: u8, source: u8, destination: u8) -> Lightpath
    ensures { result ≡ record { wavelength = wavelength; source = source; destination = destination } }
{
    Lightpath {
        wavelength,
        source,
        destination,
    }
}

// A plant of 2 wavelengths and 4 groups answers in the order of the questions.
fn answers<P: Plant>(rt: &impl Abort, plant: &mut P) {
    assert_eq!(rt; (plant.waves(), plant.groups()), (2, 4));
    assert_eq!(rt; plant.light(path(2, 9, 9)), Err(PlantRefusal::NoWavelength));
    assert_eq!(rt; plant.light(path(1, 4, 0)), Err(PlantRefusal::NoGroup));
    assert_eq!(rt; plant.light(path(1, 3, 0)), Ok(()));
    assert_eq!(rt;
        plant.light(path(1, 3, 0)),
        Err(PlantRefusal::SourceLit),
        "the same pair again"
    );
    assert_eq!(rt;
        plant.light(path(1, 2, 0)),
        Err(PlantRefusal::DestinationLit)
    );
    assert_eq!(rt;
        (plant.heard(1, 0), plant.steered(1, 3)),
        (Some(3), Some(0))
    );
    assert_eq!(rt; (plant.heard(2, 0), plant.steered(1, 4)), (None, None));
    assert_eq!(rt; plant.darken(path(1, 2, 0)), Err(PlantRefusal::NotHeard));
    assert_eq!(rt; plant.darken(path(1, 3, 0)), Ok(()));
    assert_eq!(rt; plant.heard(1, 0), None);
}

// A chain of two changes over, and a lightpath is taken down for good.
fn moves<P: Plant>(rt: &impl Abort, plant: &mut P) -> Result<(), Fail> {
    plant.light(path(1, 0, 2))?;
    plant.light(path(0, 3, 2))?;
    let chain = [
        Retuning {
            path: path(1, 0, 2),
            onto: 0,
        },
        Retuning {
            path: path(0, 3, 2),
            onto: 1,
        },
    ];
    assert_eq!(rt; change_over(plant, &chain), Ok(()));
    assert_eq!(rt; change_over(plant, &chain), Err(PlantRefusal::NotHeard));
    assert_eq!(rt; (plant.heard(0, 2), plant.heard(1, 2)), (Some(0), Some(3)));
    let slip = take_down(plant, path(1, 3, 2))?;
    assert_eq!(rt; retire(slip), path(1, 3, 2));
    let slip = take_down(plant, path(0, 0, 2))?;
    assert_eq!(rt; relight(plant, slip, 1), Ok(()));
    assert_eq!(rt; (plant.heard(0, 2), plant.heard(1, 2)), (None, Some(0)));
    Ok(())
}

#[test]
fn hub(rt: HostRuntime) -> Result<(), Fail> {
    let mut hub = MirrorHub::new(2, 4);
    answers(&rt, &mut hub);
    moves(&rt, &mut hub)
}

#[test]
fn fabric_keeps_the_rest(rt: HostRuntime) -> Result<(), Fail> {
    let mut registers = [9; 10];
    let mut fabric = RegisterFabric::new(&mut registers, 2, 4);
    answers(&rt, &mut fabric);
    moves(&rt, &mut fabric)?;
    assert_eq!(rt; registers, [0, 0, 0, 0, 0, 0, 1, 0, 9, 9]);
    Ok(())
}

#[test]
fn making(rt: HostRuntime) {
    assert_eq!(rt; MirrorHub::check(32, 32), Ok(()));
    assert_eq!(rt; MirrorHub::check(33, 1), Err(MakingRefusal::Counts));
    assert_eq!(rt; MirrorHub::check(1, 0), Err(MakingRefusal::Counts));
    let refused = MirrorHub::new(0, 4);
    assert_eq!(rt; (refused.waves(), refused.groups()), (0, 0));
    let mut registers = [7; 7];
    assert_eq!(rt;
        RegisterFabric::check(2, 33, &registers),
        Err(MakingRefusal::Counts)
    );
    assert_eq!(rt;
        RegisterFabric::check(2, 4, &registers),
        Err(MakingRefusal::Registers)
    );
    let mut short = RegisterFabric::new(&mut registers, 2, 4);
    assert_eq!(rt; (short.waves(), short.groups()), (0, 0));
    assert_eq!(rt; short.light(path(0, 0, 1)), Err(PlantRefusal::NoWavelength));
    assert_eq!(rt; registers, [7; 7], "nothing is written");
}

#[test]
fn numbers(rt: HostRuntime) {
    assert_eq!(rt; PlantRefusal::NoWavelength.number(), 31);
    assert_eq!(rt; PlantRefusal::NotHeard.number(), 35);
    assert_eq!(rt; MakingRefusal::Counts.number(), 37);
    assert_eq!(rt; MakingRefusal::Registers.number(), 38);
}
