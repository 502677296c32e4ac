//! What an accepted call answers.

#[derive(Clone, Copy, PartialEq, Eq, Debug)]
pub enum Answer {
    Admitted {
        wavelength: u8,
        moves: u8,
    },
    Quoted {
        wavelength: u8,
        moves: u8,
    },
    /// The wavelength given up.
    Released {
        wavelength: u8,
    },
    Found {
        wavelength: u8,
        source: u8,
        destination: u8,
    },
    /// How many rows were written.
    Listed {
        rows: usize,
    },
}
