//! The numbers of a flash device, and what every layer over it speaks of: the array of sectors with
//! its history, addresses of pages, and the answers of reads and writes.
#![tactic(auto)]

mod answer;
mod geometry;
mod limits;
mod page_addr;
mod victim;
mod words;

pub use answer::{Got, Was};
pub use geometry::{DeviceNumbers, Geometry};
pub use limits::{
    GeometryFault, LONE_WORKERS, MAX_BLOCKS, MAX_BROOMS, MAX_ENDURANCE, MAX_HOSTS, MAX_LUNS,
    MAX_PAGES, MAX_SECTORS, MAX_TABLE_WORDS, MAX_WORDS, MIN_BLOCKS, WORD_BYTES,
};
pub use page_addr::PageAddr;
pub use victim::greedy;
pub use words::{
    ERASED, MapWord, NEXT_PHASE, PAGE_WRITTEN, Phase, PinWord, READER, TAKEN, UNMAPPED,
    every_page_fits, every_state_fits, freed, kept, page_word_at, pin_at, put_word, table_size,
    word_at,
};
