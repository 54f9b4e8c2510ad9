ghost use Rattle.std.specs.Prelude.{◌≡◌, ◌+◌, ◌<◌, ◌≤◌, length, take, drop, map, [], ◌∷◌, ◌++◌, Err, IfOk, OnOk, IfSome, IfNone, MatchResult};
ghost use Rattle.scan_log.specs.Findings.{newest_64, NewestOfAll};
ghost use Rattle.scan_log.specs.Pages.{log_page, parameters_from, finding_content, scan_results, log_data};

use crate::finding::FINDING_PARAMETER_LENGTH;
use crate::page::{
    BACKGROUND_SCAN_RESULTS, HEADING_LENGTH, SUPPORTED_LOG_PAGES, cut, heading, supported_pages,
};
use crate::{Finding, PageFault, ScanState};
use circular_buffer::HeapCircularBuffer;
use disk_base::{Bytes, NoMemory};
use sense_data::codes::INVALID_FIELD_IN_CDB;
use std::alloc::Global;
use std::marker::Model;

/// The most findings that the log keeps.
pub const FINDINGS_MAX: usize = 64;

/// The last findings of the background scan, the oldest first.
#[derive(Debug, Drop)]
pub struct ScanLog {
    findings: HeapCircularBuffer<Finding>,
}

impl Model for ScanLog {
    ghost use Rattle.std.specs.Prelude.{◌≡◌, List};
    ghost use Rattle.scan_log.specs.declared.finding.Finding.{Finding};
    ghost use Rattle.scan_log.specs.Findings.{AllFit};

    ghost Value = { List Finding };

    ghost view = { λ log. log.findings.items };

    ghost invariant = { λ log. (log.findings.capacity ≡ 64) × AllFit log.findings.items };
}

impl ScanLog {
    /// The empty log, with room for all that it will keep.
    pub fn new(alloc: Global) -> Result<Self, NoMemory>
        ensures { IfOk result (λ log. log ≡ []) }
    {
        let findings = HeapCircularBuffer::with_capacity(alloc, FINDINGS_MAX)?;
        Ok(ScanLog { findings })
    }

    /// Adds a finding; the oldest one goes where the log is full.
    pub fn add(&mut self, f: Finding)
        requires status { f.status < 16 }
        requires key { f.key < 16 }
        ensures { self.new ≡ newest_64 (self.old ++ f ∷ []) }
    {
        let _ = self.findings.push_back(f);
    }

    /// The data of a LOG SENSE by its PAGE CODE, SUBPAGE CODE and PARAMETER POINTER fields. Page 00h lists the pages,
    /// page 15h has the state of the scan as parameter 0000h and the findings behind it; other pages and subpages are
    /// refused, and so is a pointer above the last parameter.
    pub fn page(
        &self,
        alloc: Global,
        state: &ScanState,
        page: u8,
        subpage: u8,
        pointer: u16,
        allocation: u16,
    ) -> Result<Bytes, PageFault>
        requires { state.now.cursor < state.now.capacity }
        // Where there is such a page, only want of memory keeps it back.
        ensures data { IfSome (log_data state.now self.now page subpage pointer) (λ bytes.
            MatchResult result (λ given. given ≡ take allocation bytes) (λ fault. fault ≡ PageFault.NoMemory)) }
        ensures refused { IfNone (log_data state.now self.now page subpage pointer)
            (result ≡ Err (PageFault.Bad INVALID_FIELD_IN_CDB)) }
    {
        let most = allocation as usize;
        if page == SUPPORTED_LOG_PAGES && subpage == 0 && pointer == 0 {
            Ok(cut(supported_pages(alloc)?, most))
        } else if page == BACKGROUND_SCAN_RESULTS
            && subpage == 0
            && pointer as usize <= self.findings.len()
        {
            Ok(cut(self.scan_results(alloc, state, pointer)?, most))
        } else {
            Err(PageFault::Bad(INVALID_FIELD_IN_CDB))
        }
    }

    // The Background Scan Results page with the parameters from a pointer on.
    fn scan_results(
        &self,
        alloc: Global,
        state: &ScanState,
        pointer: u16,
    ) -> Result<Vec<u8>, NoMemory>
        requires cursor { state.now.cursor < state.now.capacity }
        requires pointer { pointer ≤ length self.now }
        ensures { IfOk result (λ page. page.items ≡ scan_results state.now self.now pointer) }
    {
        if pointer == 0 {
            self.results_behind(alloc, &state.parameter(), 0)
        } else {
            self.results_behind(alloc, &[], pointer as usize - 1)
        }
    }

    // The page with these parameters in front, and then the findings from this place on.
    fn results_behind(&self, alloc: Global, front: &[u8], first: usize) -> Result<Vec<u8>, NoMemory>
        requires front { length front.now ≤ 16 }
        requires first { first ≤ length self.now }
        ensures { IfOk result (λ page. page.items ≡ log_page 0x15
            (front.now ++ parameters_from (first + 1) (map finding_content (drop first self.now)))) }
    {
        let length = front.len() + (self.findings.len() - first) * FINDING_PARAMETER_LENGTH;
        let mut page = Vec::with_capacity(alloc, HEADING_LENGTH + length)?;
        page.extend_from_slice(&heading(length as u16))?;
        page.extend_from_slice(front)?;
        self.add_findings(first, &mut page)?;
        Ok(page)
    }

    // Adds the parameters of the findings from this place on.
    fn add_findings(&self, first: usize, page: &mut Vec<u8>) -> Result<(), NoMemory>
        requires { first ≤ length self.now }
        ensures { OnOk result (page.new.items ≡ page.old.items
            ++ parameters_from (first + 1) (map finding_content (drop first self.now))) }
    {
        for place in first..self.findings.len() {
            let finding = self.findings.get(place).unwrap();
            page.extend_from_slice(&finding.parameter(place as u16 + 1))?;
        }
        Ok(())
    }
}

/// However many findings were added, the log is the last 64 of all of them: one more behind the last 64 leaves the same
/// as one more behind all.
pub fn log_is_the_newest_of_all()
    ensures { NewestOfAll }
{}
