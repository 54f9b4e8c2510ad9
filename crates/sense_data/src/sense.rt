ghost use Rattle.std.specs.Prelude.{◌≡◌, ◌≢◌, Some, IfSome, IfNone};
ghost use Rattle.sense_data.specs.declared.sense.Sense.{Sense};
ghost use Rattle.sense_data.specs.Sense.{sense_bytes, IsSense, sense_of, fields_of};

/// Bytes of fixed format sense data without additional sense bytes.
pub const SENSE_LENGTH: usize = 18;

// Response codes: current sense data, without and with the valid bit of the INFORMATION field.
const CURRENT: u8 = 0x70;

const CURRENT_VALID: u8 = 0xF0;

// How many bytes follow byte 7.
const ADDITIONAL_LENGTH: u8 = 10;

/// Current sense data (SPC-4, fixed format sense data).
#[derive(Clone, Copy, Debug, Default, PartialEq, Eq)]
pub struct Sense {
    /// The sense key; byte 2 as a whole, so that one below 16 leaves the bits beside it 0.
    pub key: u8,
    /// INFORMATION, where it is valid: a block's address.
    pub information: Option<u32>,
    /// COMMAND-SPECIFIC INFORMATION.
    pub specific: u32,
    /// The additional sense code.
    pub asc: u8,
    /// The additional sense code qualifier.
    pub ascq: u8,
}

impl Sense {
    /// A sense key with an additional sense code and its qualifier alone.
    pub const fn new(key: u8, asc: u8, ascq: u8) -> Self
        ensures { result ≡ sense_of key asc ascq }
    {
        Sense {
            key,
            information: None,
            specific: 0,
            asc,
            ascq,
        }
    }

    /// The sense data of these bytes, where they are those of some; `bytes` gives them back.
    pub fn read(bytes: &[u8; SENSE_LENGTH]) -> Option<Self>
        ensures some { IfSome result (λ s. sense_bytes s ≡ bytes.now) }
        ensures only { (s : Sense) → IsSense s → sense_bytes s ≡ bytes.now → result ≡ Some s }
        ensures none { IfNone result ((s : Sense) → sense_bytes s ≢ bytes.now) }
    {
        let sense = fields_of(bytes);
        if sense.bytes() == *bytes {
            Some(sense)
        } else {
            None
        }
    }

    /// The bytes; `read` takes them back.
    pub fn bytes(&self) -> [u8; SENSE_LENGTH]
        ensures { result ≡ sense_bytes self.now }
    {
        let response = if self.information.is_some() {
            CURRENT_VALID
        } else {
            CURRENT
        };
        let [i0, i1, i2, i3] = self.information.unwrap_or(0).to_be_bytes();
        let [s0, s1, s2, s3] = self.specific.to_be_bytes();
        [
            response,
            0,
            self.key,
            i0,
            i1,
            i2,
            i3,
            ADDITIONAL_LENGTH,
            s0,
            s1,
            s2,
            s3,
            self.asc,
            self.ascq,
            0,
            0,
            0,
            0,
        ]
    }
}

// The fields that stand in these bytes, whatever stands beside them.
fn fields_of(bytes: &[u8; SENSE_LENGTH]) -> Sense
    ensures { result ≡ fields_of bytes.now }
{
    let [
        response,
        _,
        key,
        i0,
        i1,
        i2,
        i3,
        _,
        s0,
        s1,
        s2,
        s3,
        asc,
        ascq,
        ..
    ] = *bytes;
    let information = u32::from_be_bytes([i0, i1, i2, i3]);
    Sense {
        key,
        information: if response == CURRENT_VALID {
            Some(information)
        } else {
            None
        },
        specific: u32::from_be_bytes([s0, s1, s2, s3]),
        asc,
        ascq,
    }
}
