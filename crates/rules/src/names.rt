// The names of a sheet.
ghost use Rattle.fixed.specs.Held.{held};
ghost use Rattle.rules.specs.Letters.{AreFit};

use fixed::FixedList;

pub mod look;
pub mod opening;

// Up to eight letters.
#[derive(Clone, Copy)]
pub struct Name {
    letters: FixedList<u8, 8>,
}

// Up to eight names, fit for a sheet.
#[derive(Clone, Copy)]
pub struct Names {
    list: FixedList<Name, 8>,
    ghost fit: { AreFit (held list) },
}
