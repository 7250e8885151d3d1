ghost use Rattle.std.specs.Prelude.{◌≡◌, ◌≤◌, true};
ghost use Rattle.kinds.specs.Limits.{between, coldest, hottest, last_gear};

// The range group of the gearbox.
#[derive(Clone, Copy, Debug, PartialEq, Eq)]
pub enum Range {
    Low = 0,
    High = 1,
}

// What the unit reads off the gearbox before it asks for a pressure; the oil's temperature in degrees Celsius.
#[derive(Clone, Copy, Debug, PartialEq, Eq)]
pub struct Situation {
    pub(crate) range: Range,
    pub(crate) gear: u8,
    pub(crate) temperature: i16,
    ghost geared: { (1 ≤ gear) × (gear ≤ last_gear) },
    ghost warm: { between coldest hottest temperature ≡ true },
}
