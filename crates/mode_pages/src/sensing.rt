ghost use Rattle.std.specs.Prelude.{◌≡◌, ◌+◌, ◌≤◌, ◌++◌, length, IfOk, IfErr, Ok, Err, IfSome};
ghost use Rattle.std.specs.List.{flat_map};
ghost use Rattle.std.specs.Option.{option_copied};
ghost use Rattle.mode_pages.specs.Pages.{changeable};
ghost use Rattle.mode_pages.specs.ModeSense.{pages_asked, page_shown, block_descriptor, header, with_header, sensed};

use crate::page::{PAGE_LENGTH_MAX, Page};
use crate::{ModeRequest, Settings};
use arrayvec::ArrayVec;
use sense_data::Sense;
use sense_data::codes::{INVALID_FIELD_IN_CDB, SAVING_PARAMETERS_NOT_SUPPORTED};

/// The most bytes of mode parameters.
pub const MODE_DATA_MAX: usize = 64;

// The most bytes of a block descriptor and all pages.
const BODY_MAX: usize = 56;

// How long a block descriptor is.
const DESCRIPTOR_LENGTH: u8 = 8;

// Device-specific parameter: DPO and FUA are supported (SBC-3, mode parameter header).
const DPOFUA: u8 = 0x10;

/// The mode parameters that MODE SENSE gives, of a drive with these settings and this many blocks.
pub fn sense(
    settings: &Settings,
    capacity: u64,
    request: &ModeRequest,
) -> Result<ArrayVec<u8, MODE_DATA_MAX>, Sense>
    requires { request.now.control ≤ 3 }
    ensures data { IfOk result (λ bytes. sensed settings.now capacity request.now ≡ Ok bytes.items) }
    ensures refused { IfErr result (λ refusal. sensed settings.now capacity request.now ≡ Err refusal) }
{
    let pages = pages_asked(request.page, request.subpage).ok_or(INVALID_FIELD_IN_CDB)?;
    if request.control == 3 {
        return Err(SAVING_PARAMETERS_NOT_SUPPORTED);
    }
    let mut body = if request.dbd {
        ArrayVec::new()
    } else {
        block_descriptor(capacity)
    };
    add_pages(&mut body, request.control, settings, pages);
    let mut data = with_header(request.ten, request.dbd, body.as_slice());
    data.truncate(request.allocation as usize);
    Ok(data)
}

// The pages that a page code and a subpage code ask for.
fn pages_asked(code: u8, subpage: u8) -> Option<&'static [Page]>
    ensures pages { option_copied result ≡ pages_asked code subpage }
    ensures fits { IfSome result (λ pages. length (flat_map changeable pages.now) ≤ 48) }
{
    match (code, subpage) {
        (0x01, 0x00) => Some(&[Page::ErrorRecovery]),
        (0x08, 0x00) => Some(&[Page::Caching]),
        (0x1C, 0x01) => Some(&[Page::BackgroundControl]),
        (0x3F, 0x00) => Some(&[Page::ErrorRecovery, Page::Caching]),
        (0x3F, 0xFF) => Some(&[Page::ErrorRecovery, Page::Caching, Page::BackgroundControl]),
        _ => None,
    }
}

// A page by the page control.
fn page_shown(control: u8, settings: &Settings, page: Page) -> ArrayVec<u8, PAGE_LENGTH_MAX>
    ensures { result.items ≡ page_shown control settings.now page }
{
    match control {
        0 => page.bytes(settings),
        1 => page.changeable_bytes(),
        _ => page.bytes(&Settings::default_values()),
    }
}

// Adds pages behind a block descriptor.
fn add_pages(body: &mut ArrayVec<u8, BODY_MAX>, control: u8, settings: &Settings, pages: &[Page])
    requires { length body.old.items + length (flat_map (page_shown control settings.now) pages.now) ≤ 56 }
    ensures { body.new.items ≡ body.old.items ++ flat_map (page_shown control settings.now) pages.now }
{
    for page in pages {
        body.try_extend_from_slice(page_shown(control, settings, *page).as_slice())
            .unwrap();
    }
}

// The block descriptor of a drive with this many blocks.
fn block_descriptor(capacity: u64) -> ArrayVec<u8, BODY_MAX>
    ensures { result.items ≡ block_descriptor capacity }
{
    let [n0, n1, n2, n3] = (capacity.min(u32::MAX as u64) as u32).to_be_bytes();
    let mut descriptor = ArrayVec::new();
    descriptor
        .try_extend_from_slice(&[n0, n1, n2, n3, 0x00, 0x00, 0x02, 0x00])
        .unwrap();
    descriptor
}

// The header with what stands behind it.
fn with_header(ten: bool, dbd: bool, body: &[u8]) -> ArrayVec<u8, MODE_DATA_MAX>
    requires { length body.now ≤ 56 }
    ensures { result.items ≡ with_header ten dbd body.now }
{
    let descriptor = if dbd { 0 } else { DESCRIPTOR_LENGTH };
    let mut data = header(ten, descriptor, body.len() as u8);
    data.try_extend_from_slice(body).unwrap();
    data
}

// The header, before `after` bytes.
fn header(ten: bool, descriptor: u8, after: u8) -> ArrayVec<u8, MODE_DATA_MAX>
    requires { after ≤ 56 }
    ensures { result.items ≡ header ten descriptor after }
{
    let mut header = ArrayVec::new();
    if ten {
        let [high, low] = (6 + after as u16).to_be_bytes();
        header
            .try_extend_from_slice(&[high, low, 0x00, DPOFUA, 0x00, 0x00, 0x00, descriptor])
            .unwrap();
    } else {
        header
            .try_extend_from_slice(&[3 + after, 0x00, DPOFUA, descriptor])
            .unwrap();
    }
    header
}
