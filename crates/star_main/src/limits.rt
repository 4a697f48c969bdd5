//! The numbers that each option takes.

/// The numbers that an option takes, and the one that stands where the option is left out.
#[derive(Clone, Copy, Debug)]
pub(crate) struct OptionNumbers {
    /// The least that it takes.
    pub least: u32,
    /// The greatest that it takes.
    pub greatest: u32,
    /// What stands where it is left out.
    pub default: u32,
}

/// The most digits of a number, leading zeros included: 7.
pub(crate) const MAX_DIGITS: usize = 7;

/// `--workers`: 0 to 16, and 0 where it is left out.
pub(crate) const WORKERS: OptionNumbers = OptionNumbers {
    least: 0,
    greatest: 16,
    default: 0,
};

/// `--slots`: 1 to 64, and 64 where it is left out.
pub(crate) const SLOTS: OptionNumbers = OptionNumbers {
    least: 1,
    greatest: 64,
    default: 64,
};

/// `--batch`: 1 to 1024, and 256 where it is left out.
pub(crate) const BATCH: OptionNumbers = OptionNumbers {
    least: 1,
    greatest: 1024,
    default: 256,
};

/// `--seed`: 0 to 9999999, and 7 where it is left out.
pub(crate) const SEED: OptionNumbers = OptionNumbers {
    least: 0,
    greatest: 9999999,
    default: 7,
};

/// `--rows`: 0 to 1000000, and 100000 where it is left out.
pub(crate) const ROWS: OptionNumbers = OptionNumbers {
    least: 0,
    greatest: 1000000,
    default: 100000,
};

/// `--port`: 1 to 65535, and 5433 where it is left out.
pub(crate) const PORT: OptionNumbers = OptionNumbers {
    least: 1,
    greatest: 65535,
    default: 5433,
};

/// `--accept`: 0 to 9999999, and 0 where it is left out.
pub(crate) const ACCEPT: OptionNumbers = OptionNumbers {
    least: 0,
    greatest: 9999999,
    default: 0,
};
