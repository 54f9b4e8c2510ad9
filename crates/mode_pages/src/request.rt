/// What a MODE SENSE asks for, by the fields of its command block (SPC-4, MODE SENSE (6) and (10) commands).
#[derive(Clone, Copy, Debug, PartialEq, Eq)]
pub struct ModeRequest {
    /// The ten-byte form, with the longer header.
    pub ten: bool,
    /// Disable block descriptors.
    pub dbd: bool,
    /// Page control: 0 present, 1 changeable, 2 default, 3 saved values.
    pub control: u8,
    pub page: u8,
    pub subpage: u8,
    /// Allocation length.
    pub allocation: u16,
}
