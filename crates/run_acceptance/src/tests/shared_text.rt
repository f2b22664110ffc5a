//! What a run by workers writes.
use super::run::small;
use flash_table::Gate;
use runs::run_shared;
use std::alloc::Global;
use std::process::Abort;
use std::sync::Wait;
use std::test::Fail;
use std::thread::Threads;
use std::time::Clock;
use trace::Watched;

// A broom drains one block by each survey, so each of its claims is made by a drain with a survey of its own.
const DRAINS: u32 = 1;

/// What a run writes, with these gates.
pub(crate) fn text_of<R: Threads + Wait + Clock + Sync + Abort + AllocGlobal, G: Gate + Send>(
    rt: &R,
    blocks: u32,
    hosts: u32,
    brooms: u32,
    trace: &[u8],
    patience: u32,
    gates: &mut [G],
) -> Result<Vec<u8>, Fail> {
    let geometry = small(blocks, hosts, brooms)?;
    assert!(rt; geometry.hosts() > 0);
    assert!(rt; gates.len() == geometry.hosts() as usize + geometry.brooms() as usize);
    let alloc: Global = rt.alloc();
    let mut reader = Watched::new(trace);
    let mut writer = Watched::new(Vec::new(alloc));
    run_shared(
        rt,
        alloc,
        &mut reader,
        &mut writer,
        &geometry,
        patience,
        DRAINS,
        gates,
    )?;
    Ok(writer.into_inner())
}
