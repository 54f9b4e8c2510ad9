ghost use Rattle.std.specs.Prelude.{◌≡◌, ◌≢◌, ◌↔◌, ◌++◌, ◌*◌, ◌^◌, ◌<◌, [], map, if◌then◌else◌, IfOk, OnOk, IsTrue};
ghost use Rattle.std.specs.List.{flat_map};
ghost use Rattle.defect_lists.specs.DefectData.{defect_data, asked_sectors, header, descriptor, ascending};

use disk_base::{Bytes, NoMemory, Psn};
use geometry_map::Map;
use std::alloc::{AllocError, Global};

/// The number of the physical sector format: cylinder, head and sector.
pub const PHYSICAL_SECTOR_FORMAT: u8 = 5;

/// Which defects are asked for, in which format of address, and how many bytes may be given.
#[derive(Clone, Copy, Debug, PartialEq, Eq)]
pub struct DefectRequest {
    pub primary: bool,
    pub grown: bool,
    pub format: u8,
    pub allocation: u16,
}

/// The data to give, always in the physical sector format, and whether another one was asked for.
#[derive(Debug, Drop)]
pub struct DefectReply {
    pub bytes: Bytes,
    pub other_format: bool,
}

/// The reply to a request for defects.
pub fn defect_reply(
    alloc: Global,
    map: &Map,
    request: &DefectRequest,
) -> Result<DefectReply, NoMemory>
    ensures bytes { IfOk result (λ reply. reply.bytes ≡ defect_data map.now request.now) }
    ensures format { IfOk result (λ reply. IsTrue reply.other_format ↔ (request.now.format ≢ PHYSICAL_SECTOR_FORMAT)) }
{
    map.lists_are_valid();
    let sectors = sectors(alloc, map, request)?;
    let mut bytes = Vec::new(alloc);
    bytes.extend_from_slice(&heading(request, sectors.len()))?;
    add_addresses(&mut bytes, map, &sectors)?;
    bytes.truncate(usize::from(request.allocation));
    Ok(DefectReply {
        bytes: Bytes::from_vec(bytes),
        other_format: request.format != PHYSICAL_SECTOR_FORMAT,
    })
}

// The sectors asked for, ascending.
fn sectors(alloc: Global, map: &Map, request: &DefectRequest) -> Result<Vec<u32>, AllocError>
    ensures { IfOk result (λ sectors. sectors.items ≡ ascending (asked_sectors map.now request.now)) }
{
    let mut sectors = primary_sectors(alloc, map, request.primary)?;
    sectors.extend_from_slice(&grown_sectors(alloc, map, request.grown)?)?;
    sectors.sort_unstable();
    Ok(sectors)
}

fn primary_sectors(alloc: Global, defects: &Map, asked: bool) -> Result<Vec<u32>, AllocError>
    ensures { IfOk result (λ sectors. sectors.items ≡ (if asked then map (λ p. p.0) defects.now.primary else [])) }
{
    if !asked {
        return Ok(Vec::new(alloc));
    }
    defects.primary().iter().map(|p| p.0).collect(alloc)
}

fn grown_sectors(alloc: Global, defects: &Map, asked: bool) -> Result<Vec<u32>, AllocError>
    ensures { IfOk result (λ sectors. sectors.items ≡ (if asked then map (λ pair. pair.old.0) defects.now.grown else [])) }
{
    if !asked {
        return Ok(Vec::new(alloc));
    }
    defects.grown().iter().map(|pair| pair.old.0).collect(alloc)
}

fn heading(request: &DefectRequest, count: usize) -> [u8; 4]
    requires { 8 * count < 2 ^ 16 }
    ensures { result ≡ header request.now count }
{
    let lists = u8::from(request.primary) << 4 | u8::from(request.grown) << 3;
    let [high, low] = (8 * count as u16).to_be_bytes();
    [0, lists | PHYSICAL_SECTOR_FORMAT, high, low]
}

fn add_addresses(bytes: &mut Vec<u8>, map: &Map, sectors: &[u32]) -> Result<(), AllocError>
    ensures { OnOk result (bytes.new.items ≡ bytes.old.items ++ flat_map (descriptor map.now.size) sectors.now) }
{
    for p in sectors {
        bytes.extend_from_slice(&address(map, *p))?;
    }
    Ok(())
}

// A sector's address in the physical sector format.
fn address(map: &Map, p: u32) -> [u8; 8]
    ensures { result ≡ descriptor map.now.size p }
{
    let (cylinder, head, sector) = map.cylinder_head_sector(Psn(p));
    let [_, c2, c1, c0] = cylinder.to_be_bytes();
    let [s3, s2, s1, s0] = sector.to_be_bytes();
    [c2, c1, c0, head, s3, s2, s1, s0]
}
