// Where a start takes the tables from.

/// Why a start does not take the tables from the region.
#[derive(Clone, Copy, Debug, PartialEq, Eq)]
pub enum WhyDisk {
    /// The region is shorter than a head.
    NoHead,
    /// The flag has this value, which is not 1.
    Closed(u8),
    /// The image has this version, which a start does not read.
    OtherVersion(u32),
    /// The bytes are no image.
    NoImage,
}

/// Where a start takes the tables from.
#[derive(Clone, Copy, Debug, PartialEq, Eq)]
pub enum Way {
    /// The region has an image.
    Memory,
    /// The log, for this reason.
    Disk(WhyDisk),
}
