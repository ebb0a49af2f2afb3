// The directory of a region.
ghost use Rattle.std.specs.Prelude.{◌≡◌, ◌↔◌, ℕ, List, length, take, drop, codes, None, IsTrue, IfOk, IfSome, IsSome, Err};
ghost use Rattle.std.specs.Int.{w64, from_le_bytes};
ghost use Rattle.berth_face.specs.Causes.{Rose};
ghost use Rattle.region_head.specs.declared.head.Head.TheVariants.{Version};
ghost use Rattle.region_head.specs.Head.{head_of};
ghost use Rattle.region_reading.specs.declared.fault.AdoptFault.TheVariants as fault;
ghost use Rattle.region_reading.specs.Reading.{IsRead, IsThere, LooksAt, StandsAt, TellsPlace, Untouched};

use crate::fault::AdoptFault;
use crate::looked::Looked;
use crate::region::read_piece;
use berth_face::Berth;
use region_layout::Directory;
use std::alloc::{AllocError, Global};

fn has_letters(front: &[u8; 16]) -> bool
    ensures { IsTrue result ↔ take 3 (drop 1 front.now) ≡ codes "SCB" }
{
    &front[1..4] == b"SCB".as_slice()
}

/// The place of the directory, as the head tells it.
fn directory_place(front: &[u8; 16]) -> u64
    ensures { result ≡ from_le_bytes w64 (take 8 (drop 8 front.now)) }
{
    match front[8..].split_first_chunk::<8>() {
        Some((place, _)) => u64::from_le_bytes(*place),
        None => unreachable!(),
    }
}

/// The place of the directory that a head with the letters tells. None without the letters, or if the place is within
/// the head.
fn told_place(front: &[u8; 16]) -> Option<u64>
    ensures some { IfSome result (TellsPlace front.now) }
    ensures none { (place : ℕ) → TellsPlace front.now place → IsSome result }
{
    let place = directory_place(front);
    if place < 16 {
        return None;
    }
    if has_letters(front) {
        Some(place)
    } else {
        None
    }
}

/// Reads the bytes from a place to the region's end, and tells the region's length.
#[tactic(auto, using(crate::proofs::Reading::untouched_on))]
fn read_behind<B: Berth>(
    alloc: Global,
    place: u64,
    berth: &mut B,
) -> Result<(Vec<u8>, u64), AdoptFault>
    ensures told { IsTrue (B.meaning berth.old).tells
        → IfOk result (λ read. (read.0.items ≡ drop place (B.meaning berth.old).held.region)
        × (read.1 ≡ length (B.meaning berth.old).held.region)) }
    ensures untouched { Untouched (B.meaning berth.old) (B.meaning berth.new) }
    ensures cause { result ≡ Err fault.RegionFault
        → Rose (B.meaning berth.old).region_faults (B.meaning berth.new).region_faults }
{
    let len = berth.region_len()?;
    let bytes = read_piece(alloc, place, len.saturating_sub(place), berth)?;
    Ok((bytes, len))
}

/// Reads the bytes as a directory that stands at this place.
fn directory_in(alloc: Global, bytes: &[u8], place: u64) -> Result<Option<Directory>, AllocError>
    ensures there { IfOk result (IsThere place bytes.now) }
    ensures read { IfOk result (λ found. IfSome found (IsRead place)) }
{
    Directory::read(alloc, bytes, place)
}

/// Reads the directory that stands at a place and ends where the region does. None if there is none.
pub fn look_at<B: Berth>(
    alloc: Global,
    place: u64,
    berth: &mut B,
) -> Result<Option<Looked>, AdoptFault>
    ensures told { IsTrue (B.meaning berth.old).tells → IfOk result (StandsAt place (B.meaning berth.old).held.region) }
    ensures read { IfOk result (λ found. IfSome found (λ l. IsRead l.place l.directory)) }
    ensures untouched { Untouched (B.meaning berth.old) (B.meaning berth.new) }
    ensures cause { result ≡ Err fault.RegionFault
        → Rose (B.meaning berth.old).region_faults (B.meaning berth.new).region_faults }
{
    let (bytes, image_len) = read_behind(alloc, place, berth)?;
    match directory_in(alloc, &bytes, place)? {
        Some(directory) => Ok(Some(Looked {
            directory,
            place,
            image_len,
        })),
        None => Ok(None),
    }
}

/// Reads the directory of a region whose first 16 bytes were these. Its flag may have been closed since they were read.
/// None if the region has no directory.
pub fn look<B: Berth>(
    alloc: Global,
    front: &[u8; 16],
    berth: &mut B,
) -> Result<Option<Looked>, AdoptFault>
    ensures told { (region : List ℕ) (version : ℕ) → IsTrue (B.meaning berth.old).tells
        → drop 1 (B.meaning berth.old).held.region ≡ drop 1 region → head_of region ≡ Version version
        → front.now ≡ take 16 region → IfOk result (LooksAt version region) }
    ensures read { IfOk result (λ found. IfSome found (λ l. IsRead l.place l.directory)) }
    ensures untouched { Untouched (B.meaning berth.old) (B.meaning berth.new) }
    ensures cause { result ≡ Err fault.RegionFault
        → Rose (B.meaning berth.old).region_faults (B.meaning berth.new).region_faults }
{
    match told_place(front) {
        Some(place) => look_at(alloc, place, berth),
        None => Ok(None),
    }
}
