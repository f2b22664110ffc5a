use geometry::{MapWord, NEXT_PHASE, PAGE_WRITTEN, Phase, PinWord, TAKEN, freed, kept};
use std::test::Fail;

#[test]
fn a_map_word_names_generation_block_and_page(rt: HostRuntime) -> Result<(), Fail> {
    let page = MapWord {
        generation: 1,
        block: 2,
        page: 3,
    };
    assert!(rt; page.pack() == 0x8000_0001_0002_0003);
    assert!(rt; MapWord::unpack(0x8000_0001_0002_0003) == Some(page));
    let first = MapWord {
        generation: 0,
        block: 0,
        page: 0,
    };
    assert!(rt; first.pack() == 0x8000_0000_0000_0000);
    assert!(rt; MapWord::unpack(0) == None);
    assert!(rt; MapWord::unpack(0x7fff_ffff_ffff_ffff) == None);
    Ok(())
}

// The words of block 0, on a volume with two pages in a block, from its first write until it is free again; and that of a block with two readers.
// Behind each word are the readers, the phase, the pages written and the generation.
const PIN_WORDS: [(u64, u32, Phase, u32, u32); 9] = [
    (0x0, 0, Phase::Free, 0, 0),
    (0x1_1000, 0, Phase::Open, 1, 0),
    (0x2_3000, 0, Phase::Closed, 2, 0),
    (0x2_3001, 1, Phase::Closed, 2, 0),
    (0x2_7001, 1, Phase::Drained, 2, 0),
    (0x2_7000, 0, Phase::Drained, 2, 0),
    (0x2_9000, 0, Phase::Erasing, 2, 0),
    (0x1_0000_0000, 0, Phase::Free, 0, 1),
    (0x5_0002_3002, 2, Phase::Closed, 2, 5),
];

// Words that no block has: with a later phase than free and no taken bit, with a phase that doesn't exist, and of a free block with a page.
const NO_PIN_WORDS: [u64; 3] = [0x2000, 0xd000, 0x1_0000];

#[test]
fn pin_words_have_readers_phase_pages_and_generation(rt: HostRuntime) -> Result<(), Fail> {
    for (word, readers, phase, written, generation) in PIN_WORDS {
        let pin = PinWord {
            readers,
            phase,
            written,
            generation,
        };
        let is_same = PinWord::unpack(word) == Some(pin) && pin.pack() == word;
        assert!(rt; is_same, "{pin:?}");
    }
    for word in NO_PIN_WORDS {
        assert!(rt; PinWord::unpack(word) == None, "{word:?}");
    }
    Ok(())
}

#[test]
fn owners_add_these_numbers(rt: HostRuntime) -> Result<(), Fail> {
    assert!(rt; [TAKEN, NEXT_PHASE, PAGE_WRITTEN] == [0x1000, 0x2000, 0x1_0000]);
    assert!(rt; [freed(2), kept(2)] == [0xfffd_7000, 0xfffd_8000]);
    Ok(())
}

#[test]
fn packed_words_print_their_parts(rt: HostRuntime) -> Result<(), Fail> {
    let page = MapWord {
        generation: 1,
        block: 2,
        page: 3,
    };
    let shown = format!(in rt.alloc(); "{page}")?;
    assert!(rt; shown.as_str() == "block 2 page 3 generation 1");
    let pin = PinWord {
        readers: 2,
        phase: Phase::Closed,
        written: 2,
        generation: 5,
    };
    let shown = format!(in rt.alloc(); "{pin}")?;
    assert!(rt; shown.as_str() == "closed, 2 written, generation 5, 2 readers");
    Ok(())
}
