ghost use Rattle.std.specs.Prelude.{◌≡◌, ◌<◌, ◌≤◌, length, IfOk, OnOk, OnErr, Some, ℕ, List};
ghost use Rattle.version_map.specs.History.{version_after, Continues};
ghost use Rattle.version_map.specs.Map.{map_sectors, map_pages, history_seen, history_published, IsReaderOf, IsPublisherOf};
ghost use Rattle.shared_nand.specs.Reads.{ReadsVersion};
ghost use Rattle.shared_nand.specs.Shown.{HasPublished};
ghost use Rattle.shared_nand_uses.specs.Beside.{ReadsWithin};

use shared_nand::{Layer, Owner, OwnerFailure, ReadFault, SharedNand, read};
use std::thread::{Threads, join};
use version_map::{Reader, VersionMap};

fn write_as<L: Layer>(
    map: &VersionMap,
    mut owner: Owner<L>,
    sector: u32,
    bytes: &[u8],
) -> (Owner<L>, Result<(), OwnerFailure<L::Failure>>)
    requires publisher { IsPublisherOf map.now owner.publisher }
    requires sector { sector < map_sectors map.now }
    requires pages { L.pages owner.layer ≤ map_pages map.now }
    requires page { length bytes.now ≡ L.page_bytes owner.layer }
    ensures published { OnOk result.1 (HasPublished (L.bytes_of result.0.layer)
        (history_published owner.publisher) (history_published result.0.publisher) sector (Some bytes.now)) }
    ensures nothing { OnErr result.1 (history_published result.0.publisher ≡ history_published owner.publisher) }
    ensures tells { (token : L.Token) (n : ℕ) (b : List ℕ)
        → L.tells owner.layer token n b → L.tells result.0.layer token n b }
    ensures publisher { IsPublisherOf map.now result.0.publisher }
{
    let done = owner.write(map, sector, bytes);
    (owner, done)
}

fn read_as<N: SharedNand>(
    map: &VersionMap,
    nand: &N,
    mut reader: Reader,
    sector: u32,
    tries: u32,
    mut out: Vec<u8>,
) -> (Reader, Vec<u8>, Result<Option<N::Token>, ReadFault>)
    requires reader { IsReaderOf map.now reader }
    requires sector { sector < map_sectors map.now }
    requires page { length out.items ≡ N.page_bytes nand.now }
    ensures later { Continues (history_seen result.0) (history_seen reader) }
    ensures reads { IfOk result.2 (λ found. ReadsVersion (N.tells nand.now)
        (version_after (history_seen result.0) sector) found result.1.items) }
    ensures reader { IsReaderOf map.now result.0 }
{
    let found = read(map, nand, &mut reader, sector, tries, &mut out);
    (reader, out, found)
}

/// One thread writes a sector while another one reads. What was read is what its sector held after a beginning of all that was written, which goes on
/// from what the reader had seen.
pub fn read_beside<
    N: SharedNand<Token: Send> + Sync,
    L: Layer<Token = N::Token, Failure: Send> + Drop + Send,
    R: Threads + Sync,
>(
    rt: &R,
    map: &VersionMap,
    nand: &N,
    owner: Owner<L>,
    reader: Reader,
    written: u32,
    bytes: &[u8],
    sector: u32,
    tries: u32,
    out: Vec<u8>,
) -> (
    Owner<L>,
    Result<(), OwnerFailure<L::Failure>>,
    Vec<u8>,
    Result<Option<N::Token>, ReadFault>,
)
    requires same { (token : N.Token) (n : ℕ) (b : List ℕ)
        → N.tells nand.now token n b → L.tells owner.layer token n b }
    requires publisher { IsPublisherOf map.now owner.publisher }
    requires reader { IsReaderOf map.now reader }
    requires written { written < map_sectors map.now }
    requires pages { L.pages owner.layer ≤ map_pages map.now }
    requires sector { sector < map_sectors map.now }
    requires page { length bytes.now ≡ L.page_bytes owner.layer }
    requires out { length out.items ≡ N.page_bytes nand.now }
    ensures published { OnOk result.1 (HasPublished (L.bytes_of result.0.layer)
        (history_published owner.publisher) (history_published result.0.publisher) written (Some bytes.now)) }
    ensures nothing { OnErr result.1 (history_published result.0.publisher ≡ history_published owner.publisher) }
    ensures reads { IfOk result.3 (λ found. ReadsWithin (L.bytes_of result.0.layer)
        (history_published result.0.publisher) (history_seen reader) sector found result.2.items) }
{
    let ((mut owner, done), (reader, out, found)) = join(
        rt,
        move || -> (Owner<L>, Result<(), OwnerFailure<L::Failure>>)
            requires { IsPublisherOf map.now owner.publisher × (written < map_sectors map.now)
                × (L.pages owner.layer ≤ map_pages map.now) × (length bytes.now ≡ L.page_bytes owner.layer) }
            ensures { OnOk result.1 (HasPublished (L.bytes_of result.0.layer)
                (history_published owner.publisher) (history_published result.0.publisher) written (Some bytes.entry.now))
                × OnErr result.1 (history_published result.0.publisher ≡ history_published owner.publisher)
                × ((token : N.Token) (n : ℕ) (b : List ℕ)
                → L.tells owner.layer token n b → L.tells result.0.layer token n b)
                × IsPublisherOf map.entry.now result.0.publisher }
        { write_as(map, owner, written, bytes) },
        move || -> (Reader, Vec<u8>, Result<Option<N::Token>, ReadFault>)
            requires { IsReaderOf map.now reader × (sector < map_sectors map.now)
                × (length out.items ≡ N.page_bytes nand.now) }
            ensures { IfOk result.2 (λ found. ReadsVersion (N.tells nand.entry.now)
                (version_after (history_seen result.0) sector) found result.1.items)
                × Continues (history_seen result.0) (history_seen reader)
                × IsReaderOf map.entry.now result.0 }
        { read_as(map, nand, reader, sector, tries, out) },
    );
    if let Ok(token) = &found {
        owner.check_read(map, reader, sector, token, &out);
    }
    (owner, done, out, found)
}
