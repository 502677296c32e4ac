//! A plant over register bytes that are lent to it: the byte at w × groups + b is the source group that b hears on w plus one, or 0.
ghost use Rattle.std.specs.Prelude.{◌≡◌, ℕ, ◌+◌, ◌*◌, ◌<◌, List, length, drop, Ok};
ghost use Rattle.plant.specs.Making.{fabric_verdict};
ghost use Rattle.plant.specs.Fabrics.{fabric_of};
ghost use Rattle.plant.specs.Proper.{fabric_proper};
ghost use Rattle.plant.specs.Registers.{served, zeroed};
ghost use Rattle.plant.specs.Switch.{dark_switch};

use crate::lightpath::Lightpath;
use crate::make::{Counts, Make, ask_counts};
use crate::refusal::MakingRefusal;

// It has no invariant of its own, so that another struct can hold it by value: whether the registers serve is asked at each call.
#[derive(Drop)]
pub struct RegisterFabric<'a> {
    registers: &'a mut [u8],
    waves: u8,
    groups: u8,
}

// Where the byte of b on w stands.
fn place(counts: Counts, w: u8, b: u8) -> usize
    requires { (w < counts.waves) × (b < counts.groups) }
    ensures at { result ≡ w * counts.groups + b }
    ensures within { result < counts.waves * counts.groups }
{
    w as usize * counts.groups as usize + b as usize
}

impl<'a> RegisterFabric<'a> {
    /// Can a fabric of these counts be made over these registers?
    pub fn check(waves: u8, groups: u8, registers: &[u8]) -> Result<(), MakingRefusal>
        ensures { result ≡ fabric_verdict waves groups (length registers.now) }
    {
        ask_counts(waves, groups)?;
        if waves as usize * groups as usize > registers.len() {
            return Err(MakingRefusal::Registers);
        }
        Ok(())
    }

    /// A dark fabric: the first waves × groups bytes become 0, and the rest is kept.
    /// Where the check refuses, it has no wavelengths and no groups, and nothing is written.
    pub fn new(registers: &'a mut [u8], waves: u8, groups: u8) -> RegisterFabric<'a>
        ensures lent { result.registers.ghost_name ≡ registers.entry.ghost_name }
        ensures counts { (result.waves ≡ served waves groups registers.old waves) × (result.groups ≡ served waves groups registers.old groups) }
        ensures bytes { result.registers.now ≡ zeroed (served waves groups registers.old (waves * groups)) registers.old }
        ensures dark { fabric_of result ≡ dark_switch (served waves groups registers.old waves) (served waves groups registers.old groups) }
    {
        match RegisterFabric::check(waves, groups, registers) {
            Ok(()) => RegisterFabric::dark(registers, waves, groups),
            Err(_) => RegisterFabric {
                registers,
                waves: 0,
                groups: 0,
            },
        }
    }

    fn dark(registers: &'a mut [u8], waves: u8, groups: u8) -> RegisterFabric<'a>
        requires { fabric_verdict waves groups (length registers.old) ≡ Ok tt }
        ensures lent { result.registers.ghost_name ≡ registers.entry.ghost_name }
        ensures counts { (result.waves ≡ waves) × (result.groups ≡ groups) }
        ensures bytes { result.registers.now ≡ zeroed (waves * groups) registers.old }
        ensures dark { fabric_of result ≡ dark_switch waves groups }
    {
        registers[..waves as usize * groups as usize].fill(0);
        RegisterFabric {
            registers,
            waves,
            groups,
        }
    }
}

impl Make for RegisterFabric<'_> {
    ghost state = { fabric_of };

    ghost proper = { λ f. fabric_proper f.waves f.groups f.registers.now };

    ghost Kept = { ℕ × ℕ × ℕ × List ℕ };

    ghost kept = { λ f. (f.registers.ghost_name, f.waves, f.groups, drop (f.waves * f.groups) f.registers.now) };

    // Both are 0 where the registers do not serve.
    fn counts(&self) -> Counts {
        match RegisterFabric::check(self.waves, self.groups, self.registers) {
            Ok(()) => Counts {
                waves: self.waves,
                groups: self.groups,
            },
            Err(_) => Counts {
                waves: 0,
                groups: 0,
            },
        }
    }

    // The source that the register of b names.
    fn source_at(&self, w: u8, b: u8) -> Option<u8> {
        let counts = self.counts();
        if w >= counts.waves || b >= counts.groups {
            return None;
        }
        match self.registers[place(counts, w, b)] {
            0 => None,
            byte => Some(byte - 1),
        }
    }

    // The lowest group whose register names a.
    fn target_of(&self, w: u8, a: u8) -> Option<u8> {
        let counts = self.counts();
        if w >= counts.waves || a >= counts.groups {
            return None;
        }
        (0..counts.groups).find(|b| self.source_at(w, *b) == Some(a))
    }

    // The register of the destination names the source.
    fn set(&mut self, path: Lightpath) {
        let at = place(self.counts(), path.wavelength, path.destination);
        self.registers[at] = path.source + 1;
    }

    // The register of the destination names none.
    fn clear(&mut self, path: Lightpath) {
        let at = place(self.counts(), path.wavelength, path.destination);
        self.registers[at] = 0;
    }
}
