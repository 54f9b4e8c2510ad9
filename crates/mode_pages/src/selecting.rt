ghost use Rattle.std.specs.Prelude.{◌≡◌, ◌≤◌, ◌<◌, ◌++◌, length, take, drop, IfOk, IfErr, Ok, Err};
ghost use Rattle.mode_pages.specs.Pages.{changeable};
ghost use Rattle.mode_pages.specs.ModeSelect.{selected, pages_part, behind_descriptor, descriptor_length, header_length, describes, pages_taken, front_page, page_length, page_taken, page_named, head_length, differ_within, differ_only_in, retries_allowed, may_be_taken, with_page};

use crate::Settings;
use crate::flags::is_set;
use crate::page::{ARRE, AWRE, EN_BMS, PER, Page, RCD, WCE};
use sense_data::Sense;
use sense_data::codes::{INVALID_FIELD_IN_PARAMETER_LIST, PARAMETER_LIST_LENGTH_ERROR};

// The most retries that can be set.
const RETRY_MAX: u8 = 20;

// The only block length.
const BLOCK_LENGTH: u32 = 512;

// The bit of a page's first byte that tells the format with a subpage.
const SUBPAGE_FORMAT: u8 = 0x40;

// The bits of a page's first byte without the one that tells whether it can be saved.
const PAGE_CODE: u8 = 0x7F;

/// The settings after a MODE SELECT with this parameter list, of a drive with these settings and this many blocks. After
/// a refusal they are as before.
pub fn select(
    settings: &Settings,
    capacity: u64,
    ten: bool,
    bytes: &[u8],
) -> Result<Settings, Sense>
    ensures taken { IfOk result (λ taken. selected settings.now capacity ten bytes.now ≡ Ok taken) }
    ensures refused { IfErr result (λ refusal. selected settings.now capacity ten bytes.now ≡ Err refusal) }
{
    if bytes.is_empty() {
        return Ok(*settings);
    }
    let pages = pages_part(capacity, ten, bytes)?;
    with_pages(settings, pages)
}

// The pages of a parameter list, behind its header and block descriptor.
fn pages_part(capacity: u64, ten: bool, list: &[u8]) -> Result<&[u8], Sense>
    ensures part { IfOk result (λ pages. pages_part capacity ten list.now ≡ Ok pages.now) }
    ensures refused { IfErr result (λ refusal. pages_part capacity ten list.now ≡ Err refusal) }
{
    let header = if ten { 8 } else { 4 };
    if list.len() < header {
        return Err(PARAMETER_LIST_LENGTH_ERROR);
    }
    let descriptor = if ten {
        u16::from_be_bytes([list[6], list[7]])
    } else {
        u16::from(list[3])
    };
    match descriptor {
        0 => Ok(&list[header..]),
        8 => behind_descriptor(capacity, &list[header..]),
        _ => Err(INVALID_FIELD_IN_PARAMETER_LIST),
    }
}

// What stands behind the block descriptor at the front of a list.
fn behind_descriptor(capacity: u64, list: &[u8]) -> Result<&[u8], Sense>
    ensures part { IfOk result (λ pages. behind_descriptor capacity list.now ≡ Ok pages.now) }
    ensures refused { IfErr result (λ refusal. behind_descriptor capacity list.now ≡ Err refusal) }
{
    let [n0, n1, n2, n3, _, l0, l1, l2, pages @ ..] = list else {
        return Err(PARAMETER_LIST_LENGTH_ERROR);
    };
    let count = u32::from_be_bytes([*n0, *n1, *n2, *n3]);
    let block_length = u32::from_be_bytes([0, *l0, *l1, *l2]);
    let all = count == 0 || count == u32::MAX || u64::from(count) == capacity;
    if all && block_length == BLOCK_LENGTH {
        Ok(pages)
    } else {
        Err(INVALID_FIELD_IN_PARAMETER_LIST)
    }
}

// The settings after the pages of a list.
fn with_pages(settings: &Settings, mut list: &[u8]) -> Result<Settings, Sense>
    ensures taken { IfOk result (λ taken. pages_taken 0 settings.now list.entry.now ≡ Ok taken) }
    ensures refused { IfErr result (λ refusal. pages_taken 0 settings.now list.entry.now ≡ Err refusal) }
{
    let mut taken = *settings;
    while !list.is_empty() {
        let (page, rest) = split_front_page(list)?;
        taken = with_page(&taken, page)?;
        list = rest;
    }
    Ok(taken)
}

// The page at the front of a list, which has to be there in full, and what stands behind it.
fn split_front_page(list: &[u8]) -> Result<(&[u8], &[u8]), Sense>
    ensures page { IfOk result (λ parts. front_page list.now ≡ Ok parts.0.now) }
    ensures head { IfOk result (λ parts. 2 ≤ length parts.0.now) }
    ensures rest { IfOk result (λ parts. parts.1.now ≡ drop (page_length list.now) list.now) }
    ensures shorter { IfOk result (λ parts. length parts.1.now < length list.now) }
    ensures refused { IfErr result (λ refusal. front_page list.now ≡ Err refusal) }
{
    let length = match list {
        [first, _, high, low, ..] if is_set(*first, SUBPAGE_FORMAT) => {
            4 + usize::from(u16::from_be_bytes([*high, *low]))
        }
        [first, length, ..] if !is_set(*first, SUBPAGE_FORMAT) => 2 + usize::from(*length),
        _ => return Err(PARAMETER_LIST_LENGTH_ERROR),
    };
    if list.len() < length {
        return Err(PARAMETER_LIST_LENGTH_ERROR);
    }
    Ok(list.split_at(length))
}

// The settings after a page.
fn with_page(settings: &Settings, given: &[u8]) -> Result<Settings, Sense>
    requires { 2 ≤ length given.now }
    ensures taken { IfOk result (λ taken. page_taken settings.now given.now ≡ Ok taken) }
    ensures refused { IfErr result (λ refusal. page_taken settings.now given.now ≡ Err refusal) }
{
    let page = page_named(given[0], given[1]).ok_or(INVALID_FIELD_IN_PARAMETER_LIST)?;
    if !may_be_taken(settings, page, given) {
        return Err(INVALID_FIELD_IN_PARAMETER_LIST);
    }
    Ok(settings_of(settings, page, given))
}

// Which page has these first two bytes.
fn page_named(first: u8, second: u8) -> Option<Page>
    ensures { result ≡ page_named first second }
{
    match (first & PAGE_CODE, second) {
        (0x01, _) => Some(Page::ErrorRecovery),
        (0x08, _) => Some(Page::Caching),
        (0x5C, 0x01) => Some(Page::BackgroundControl),
        _ => None,
    }
}

// Whether a page that is there in full may be taken.
fn may_be_taken(settings: &Settings, page: Page, given: &[u8]) -> bool
    ensures { result ≡ may_be_taken settings.now page given.now }
{
    let mask = page.changeable();
    if given.len() != mask.len() {
        return false;
    }
    let head = head_length(given);
    let present = page.bytes(settings);
    differ_only_in(&mask[head..], &present.as_slice()[head..], &given[head..])
        && retries_allowed(page, given)
}

// The length of a page's head.
fn head_length(given: &[u8]) -> usize
    requires { 0 < length given.now }
    ensures { result ≡ head_length given.now }
{
    if is_set(given[0], SUBPAGE_FORMAT) {
        4
    } else {
        2
    }
}

// Whether two pages differ in changeable bits alone.
fn differ_only_in(mask: &[u8], present: &[u8], given: &[u8]) -> bool
    ensures { result ≡ differ_only_in mask.now present.now given.now }
{
    let mut bytes = mask.iter().zip(present.iter().zip(given));
    bytes.all(|(mask, (present, given))| differ_within(*mask, *present, *given))
}

// The same of two bytes: the bits that differ are among the changeable ones.
fn differ_within(mask: u8, present: u8, given: u8) -> bool
    ensures { result ≡ differ_within mask present given }
{
    mask | (present ^ given) == mask
}

// At most so many retries.
fn retries_allowed(page: Page, given: &[u8]) -> bool
    requires { 4 ≤ length given.now }
    ensures { result ≡ retries_allowed page given.now }
{
    match page {
        Page::ErrorRecovery => given[3] <= RETRY_MAX,
        Page::Caching | Page::BackgroundControl => true,
    }
}

// The settings that a page gives.
fn settings_of(settings: &Settings, page: Page, given: &[u8]) -> Settings
    requires { 5 ≤ length given.now }
    ensures { result ≡ with_page page settings.now given.now }
{
    match page {
        Page::ErrorRecovery => Settings {
            awre: is_set(given[2], AWRE),
            arre: is_set(given[2], ARRE),
            per: is_set(given[2], PER),
            retry: given[3],
            ..*settings
        },
        Page::Caching => Settings {
            wce: is_set(given[2], WCE),
            rcd: is_set(given[2], RCD),
            ..*settings
        },
        Page::BackgroundControl => Settings {
            bms: is_set(given[4], EN_BMS),
            ..*settings
        },
    }
}
