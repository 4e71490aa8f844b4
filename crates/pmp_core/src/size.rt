//! The number of entries of a unit.

ghost use Rattle.std.specs.Prelude.{◌≡◌};
ghost use Rattle.pmp_core.specs.Hart.{count_of};

/// The greatest number of entries of a unit.
pub const MAX_ENTRIES: usize = 64;

/// The number of entries of a unit, which never changes once it is made (Volume II, 3.7.1).
#[derive(Clone, Copy, Debug, PartialEq, Eq)]
pub enum Size {
    Sixteen,
    SixtyFour,
}

impl Size {
    /// Returns the number of entries.
    pub fn entries(self) -> u8
        ensures { result ≡ count_of self }
    {
        match self {
            Size::Sixteen => 16,
            Size::SixtyFour => 64,
        }
    }
}
