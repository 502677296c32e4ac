//! Why a plant refuses an order, and why one is not made.
ghost use Rattle.std.specs.Prelude.{◌≡◌};
ghost use Rattle.plant.specs.Refusals.{making_number, plant_number};

/// Why a plant refuses to light or to darken.
#[derive(Clone, Copy, PartialEq, Eq, Debug)]
pub enum PlantRefusal {
    NoWavelength,
    NoGroup,
    SourceLit,
    DestinationLit,
    NotHeard,
}

impl PlantRefusal {
    pub fn number(self) -> u8
        ensures { result ≡ plant_number self }
    {
        match self {
            PlantRefusal::NoWavelength => 31,
            PlantRefusal::NoGroup => 32,
            PlantRefusal::SourceLit => 33,
            PlantRefusal::DestinationLit => 34,
            PlantRefusal::NotHeard => 35,
        }
    }
}

/// Why a plant cannot be made: the counts, or too few register bytes.
#[derive(Clone, Copy, PartialEq, Eq, Debug)]
pub enum MakingRefusal {
    Counts,
    Registers,
}

impl MakingRefusal {
    pub fn number(self) -> u8
        ensures { result ≡ making_number self }
    {
        match self {
            MakingRefusal::Counts => 37,
            MakingRefusal::Registers => 38,
        }
    }
}
