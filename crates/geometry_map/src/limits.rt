/// The sectors from 0 up that hold the records of the map.
pub const MAP_SECTORS: u32 = 16;

/// The least and the greatest number of sectors of a drive.
pub const SECTORS_MIN: u32 = 48;

pub const SECTORS_MAX: u32 = 4096;

pub const CYLINDERS_MAX: u16 = 1024;

pub const HEADS_MAX: u8 = 16;

/// The greatest number of sectors of a track.
pub const TRACK_SECTORS_MAX: u8 = 64;

/// The greatest number of entries of the primary list.
pub const PRIMARY_MAX: usize = 128;

/// The greatest number of pairs of the grown list.
pub const PAIRS_MAX: usize = 128;
