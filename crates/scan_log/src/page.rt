ghost use Rattle.std.specs.Prelude.{◌≡◌, IfOk, take, ◌∷◌};
ghost use Rattle.std.specs.Int.{w16, to_be_bytes};
ghost use Rattle.scan_log.specs.Pages.{log_page, page_codes};

use disk_base::{Bytes, NoMemory};
use std::alloc::Global;

/// Page codes (SPC-4, log page codes; SBC-3, Background Scan Results log page).
pub const SUPPORTED_LOG_PAGES: u8 = 0x00;

pub const BACKGROUND_SCAN_RESULTS: u8 = 0x15;

/// Bytes of a log page before its parameters.
pub const HEADING_LENGTH: usize = 4;

/// The control byte of each parameter: a list parameter in binary (SPC-4, parameter control byte for binary list log
/// parameters).
pub const CONTROL: u8 = 0x03;

/// The Supported Log Pages page.
pub fn supported_pages(alloc: Global) -> Result<Vec<u8>, NoMemory>
    ensures { IfOk result (λ page. page.items ≡ log_page 0x00 page_codes) }
{
    let page = [
        SUPPORTED_LOG_PAGES,
        0,
        0,
        2,
        SUPPORTED_LOG_PAGES,
        BACKGROUND_SCAN_RESULTS,
    ];
    Ok(Vec::from_slice(alloc, &page)?)
}

/// The head of the Background Scan Results page with so many bytes of parameters.
pub fn heading(parameters_length: u16) -> [u8; HEADING_LENGTH]
    ensures { result ≡ 0x15 ∷ 0x00 ∷ to_be_bytes w16 parameters_length }
{
    let [high, low] = parameters_length.to_be_bytes();
    [BACKGROUND_SCAN_RESULTS, 0, high, low]
}

/// A page's data, cut by the allocation length (SPC-4, allocation length).
pub fn cut(page: Vec<u8>, allocation: usize) -> Bytes
    ensures { result ≡ take allocation page.items }
{
    let mut kept = page;
    kept.truncate(allocation);
    Bytes::from_vec(kept)
}
