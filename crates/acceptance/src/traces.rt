use geometry::Geometry;
use std::alloc::Global;
use std::io;
use std::io::{Read, Write};
use std::test::Fail;
use trace::{Command, Commands, Op, TraceFault, TraceFaultKind, Watched, load, parse};

// 3 blocks of 2 pages of 8 bytes, 3 sectors, one thread.
fn small() -> Result<Geometry, Fail> {
    Ok(Geometry::new(1, 3, 2, 1, 3, 10, 0, 0)?)
}

fn commands(alloc: Global, text: &[u8]) -> Result<Commands, Fail> {
    Ok(parse(alloc, text, &small()?)?)
}

fn first_fault(alloc: Global, text: &[u8]) -> Result<Option<TraceFault>, Fail> {
    Ok(parse(alloc, text, &small()?).err())
}

fn at(line: u64, kind: TraceFaultKind) -> Option<TraceFault> {
    Some(TraceFault { line, kind })
}

// Whether each of these texts, which are divided by bars, has this first fault, or none.
fn all_have(alloc: Global, geometry: &Geometry, texts: &str, fault: Option<TraceFault>) -> bool {
    for text in texts.split('|') {
        if parse(alloc, text.as_bytes(), geometry).err() != fault {
            return false;
        }
    }
    true
}

// Invalid records. Fields: three, five, an open quote in the fifth field, a quoted comma, a quoted line end, commas after two
// quotes, and a quote that isn't closed.
const FIELDS: &str =
    "0,read,2|0,read,2,,|0,read,2,,\"|\"0,read\",0,|\"0,read,0,\n0,read,0,\n|\"\",,,,,,|\"0,read,0,";
// Workers: too large, not a number, after a space, with eight digits.
const WORKER: &str = "500,read,0,|x,read,0,| 0,read,0,|00000000,read,0,";
// Ops: in upper case, with a quote within.
const OP: &str = "0,READ,0,|0,re\"ad,0,";
// Sectors: with a sign, too large.
const SECTOR: &str = "0,read,-1,|0,read,3,";
// Data: an odd number of digits, a character that isn't a hexadecimal digit, 15 digits.
const HEX: &str = "0,write,0,4|0,write,0,4g|0,write,0,010203040506070";
// 18 digits.
const TOO_LONG: &str = "0,write,0,010203040506070809";
// Data of a read and of a trim, a worker and a sector of a meet.
const UNUSED: &str = "0,read,0,41|0,trim,0,41|1,meet,0,|0,meet,1,";

#[test]
fn each_faulty_record_has_its_fault(rt: HostRuntime) -> Result<(), Fail> {
    use TraceFaultKind as kind;
    let geometry = small()?;
    for (records, fault) in [
        (FIELDS, kind::Fields),
        (WORKER, kind::Worker),
        (OP, kind::Op),
        (SECTOR, kind::Sector),
        (HEX, kind::Hex),
        (TOO_LONG, kind::TooLong),
        (UNUSED, kind::Unused),
    ] {
        let all = all_have(rt.alloc(), &geometry, records, at(1, fault));
        assert!(rt; all, "{fault:?}");
    }
    Ok(())
}

// A record of worker 7, and its op, sector and page.
macro_rules! accepted {
    ($($name:literal: $text:literal => $op:ident $sector:literal, $page:expr;)*) => {
        [$(($name, $text, Op::$op, $sector, $page)),*]
    };
}

const ACCEPTED: [(&str, &str, Op, u32, Option<[u8; 8]>); 9] = accepted! {
    "leading zeros and a quoted op": "007,\"read\",002," => Read 2, None;
    "both cases of digits": "7,write,0,aBcD" => Write 0, Some([0xab, 0xcd, 0, 0, 0, 0, 0, 0]);
    "a write of nothing": "7,write,1," => Write 1, Some([0; 8]);
    "16 digits": "7,write,1,0102030405060708" => Write 1, Some([1, 2, 3, 4, 5, 6, 7, 8]);
    "a write of an empty sector": "7,new,2,41" => New 2, Some([0x41, 0, 0, 0, 0, 0, 0, 0]);
    "a trim": "7,trim,0," => Trim 0, None;
    "numbers of seven digits": "0000007,trim,0000002," => Trim 2, None;
    "digits behind their quotes": "\"7\",\"write\",\"0\",\"41\"42" => Write 0, Some([0x41, 0x42, 0, 0, 0, 0, 0, 0]);
    "a quote that the text's end closes": "7,write,0,\"41" => Write 0, Some([0x41, 0, 0, 0, 0, 0, 0, 0]);
};

// Whether a command has this page of eight bytes, or none.
fn has_page(command: &Command<'_>, page: Option<[u8; 8]>) -> bool {
    match page {
        None => command.page.is_empty() && command.page.len() == 0,
        Some(bytes) => !command.page.is_empty() && page_of(command) == Some(bytes),
    }
}

// A command's page, if it has eight bytes.
fn page_of(command: &Command<'_>) -> Option<[u8; 8]> {
    if command.page.len() != 8 {
        return None;
    }
    let mut bytes = [0xff; 8];
    command.page.copy_into(&mut bytes);
    Some(bytes)
}

// Whether a trace is one command of worker 7.
fn is_one(commands: &Commands, op: Op, sector: u32, page: Option<[u8; 8]>) -> bool {
    if commands.len() != 1 {
        return false;
    }
    let command = commands.command(0);
    (command.worker, command.op, command.sector) == (7, op, sector) && has_page(&command, page)
}

#[test]
fn accepted_records_are_commands(rt: HostRuntime) -> Result<(), Fail> {
    for (name, text, op, sector, page) in ACCEPTED {
        let commands = commands(rt.alloc(), text.as_bytes())?;
        assert!(rt; is_one(&commands, op, sector, page), "{name:?}");
    }
    Ok(())
}

// Texts without a record: no byte, and only empty lines.
const NONE: &str = "|\n\r\n\n";
// Texts of one record: without a line end, and with a byte order mark.
const ONE: &str = "0,read,0,|\u{feff}0,read,0,\n";
// Texts of two records: LF, CRLF, CR alone, empty lines between, a mark before a quote, and a quoted line end, which ends no record.
const TWO: &str =
    "0,read,0,\n0,read,1,\n|0,read,0,\r\n0,read,1,\r\n|0,read,0,\r0,read,1,\r|\n0,read,0,\n\n\n0,read,1,\
    |\u{feff}\"0\",read,0,\n0,read,1,\n|0,write,0,\"\"\n0,trim,0,\"\"\n";

#[test]
fn records_end_as_csv_says(rt: HostRuntime) -> Result<(), Fail> {
    for (texts, count) in [(NONE, 0), (ONE, 1), (TWO, 2)] {
        for text in texts.split('|') {
            let commands = commands(rt.alloc(), text.as_bytes())?;
            assert!(rt; commands.len() == count, "{text:?}");
        }
    }
    Ok(())
}

// Texts by the fault of their second record: a sector after an empty line, which isn't a record, and after a plain one; fields before
// another fault and after a quoted record; a worker after a mark behind a plain record and behind a quoted one.
const SECOND_SECTOR: &str = "0,read,0,\n\n0,read,9,\n|0,read,0,\n0,\"read\",3,\n";

const SECOND_FIELDS: &str = "0,read,0,\n0,read,1\n0,READ,0,\n|0,\"read\",0,\n0,read,0,,\n";

const SECOND_WORKER: &str = "0,read,0,\n\u{feff}0,read,0,\n|0,\"read\",0,\n\u{feff}0,read,0,\n";
// The first of two faults of a record, and a doubled quote.
const FIRST_OP: &str = "0,READ,9,4|0,\"re\"\"ad\",0,\n";

#[test]
fn the_first_faulty_record_is_named_by_its_line(rt: HostRuntime) -> Result<(), Fail> {
    use TraceFaultKind as kind;
    let geometry = small()?;
    for (texts, line, fault) in [
        (SECOND_SECTOR, 2, kind::Sector),
        (SECOND_FIELDS, 2, kind::Fields),
        (SECOND_WORKER, 2, kind::Worker),
        (FIRST_OP, 1, kind::Op),
    ] {
        let all = all_have(rt.alloc(), &geometry, texts, at(line, fault));
        assert!(rt; all, "{fault:?}");
    }
    Ok(())
}

#[test]
fn each_beginning_of_a_line_has_its_answer(rt: HostRuntime) -> Result<(), Fail> {
    use TraceFaultKind as kind;
    let line = b"0,write,0,41\n";
    for k in 0..=13 {
        let answer = match k {
            0 | 10 | 12 | 13 => None,
            11 => at(1, kind::Hex),
            _ => at(1, kind::Fields),
        };
        assert!(rt; first_fault(rt.alloc(), &line[..k])? == answer, "{k:?}");
    }
    Ok(())
}

#[test]
fn bytes_that_are_not_text_have_their_faults(rt: HostRuntime) -> Result<(), Fail> {
    use TraceFaultKind as kind;
    for (text, fault) in [
        (b"\xff,read,0,".as_slice(), kind::Worker),
        (b"0,\xff,0,".as_slice(), kind::Op),
        (b"0,read,\xff,".as_slice(), kind::Sector),
        (b"0,write,0,\xff\xff".as_slice(), kind::Hex),
        (b"0,read,0,\xff\xff".as_slice(), kind::Unused),
    ] {
        assert!(rt; first_fault(rt.alloc(), text)? == at(1, fault), "{fault:?}");
    }
    Ok(())
}

// A text, and this many bytes more.
fn padded(alloc: Global, front: &str, byte: u8, count: u32) -> Result<Vec<u8>, Fail> {
    let mut text = Vec::from_slice(alloc, front.as_bytes())?;
    text.resize(front.len() + count as usize, byte)?;
    Ok(text)
}

#[test]
fn long_texts_have_their_faults(rt: HostRuntime) -> Result<(), Fail> {
    use TraceFaultKind as kind;
    let wanted = [
        ("0,write,0,", b'0', 100_000, at(1, kind::TooLong)),
        ("0,write,0,", b'0', 100_001, at(1, kind::Hex)),
        ("", b',', 10_000_000, at(1, kind::Fields)),
        ("\"\"", b',', 10_000_000, at(1, kind::Fields)),
        ("0,\"read\",0,\n", b',', 10_000_000, at(2, kind::Fields)),
    ];
    for (front, byte, count, fault) in wanted {
        let text = padded(rt.alloc(), front, byte, count)?;
        let found = first_fault(rt.alloc(), text.as_slice())?;
        assert!(rt; found == fault, "{front:?}");
    }
    Ok(())
}

// On the largest device: numbers that are accepted, and workers and sectors that aren't.
const WITHIN: &str = "499,read,0,|0000499,read,0,|0,read,1048575,";

const NO_WORKER: &str = "500,read,0,|00000499,read,0,";

const NO_SECTOR: &str = "0,read,1048576,|0,read,01048575,";

#[test]
fn numbers_end_at_their_limits(rt: HostRuntime) -> Result<(), Fail> {
    use TraceFaultKind as kind;
    let largest = Geometry::new(1, 4096, 1024, 1, 1_048_576, 10, 0, 0)?;
    let two_hosts = Geometry::new(1, 5, 2, 1, 2, 10, 2, 1)?;
    for (geometry, texts, fault) in [
        (&largest, WITHIN, None),
        (&largest, NO_WORKER, at(1, kind::Worker)),
        (&largest, NO_SECTOR, at(1, kind::Sector)),
        (&two_hosts, "1,read,0,", None),
        (&two_hosts, "2,read,0,", at(1, kind::Worker)),
    ] {
        assert!(rt; all_have(rt.alloc(), geometry, texts, fault), "{texts:?}");
    }
    Ok(())
}

#[test]
fn commands_come_in_order(rt: HostRuntime) -> Result<(), Fail> {
    let commands = commands(rt.alloc(), b"0,write,2,41\n0,meet,0,\n0,read,1,\n")?;
    assert!(rt; !commands.is_empty());
    let mut names = Vec::new(rt.alloc());
    for command in commands.iter() {
        names.extend_from_slice(command.op.name().as_bytes())?;
    }
    assert!(rt; names.as_slice() == b"writemeetread".as_slice());
    Ok(())
}

// Returns a text in pieces of this many bytes, and fails at a place if it has one.
#[derive(Drop)]
struct Pieces<'a> {
    rest: &'a [u8],
    size: usize,
    fails_at: Option<usize>,
}

impl Read for Pieces<'_> {
    fn read(&mut self, buf: &mut [u8]) -> io::Result<usize> {
        if self.fails_at == Some(self.rest.len()) {
            return Err(io::Error::from(io::ErrorKind::Interrupted));
        }
        let count = self.rest.len().min(self.size).min(buf.len());
        let (front, rest) = self.rest.split_at(count);
        buf[..count].copy_from_slice(front);
        self.rest = rest;
        Ok(count)
    }
}

// Line ends that never stop.
#[derive(Drop)]
struct Endless;

impl Read for Endless {
    fn read(&mut self, buf: &mut [u8]) -> io::Result<usize> {
        buf.fill(b'\n');
        Ok(buf.len())
    }
}

// Whether a text is loaded in pieces of a size, as it is and to its end, without a failure.
fn loads(alloc: Global, text: &[u8], size: usize) -> Result<bool, Fail> {
    let mut reader = Watched::new(Pieces {
        rest: text,
        size,
        fails_at: None,
    });
    let is_same = load(alloc, &mut reader)?.as_slice() == text;
    Ok(is_same && reader.failures() == 0 && reader.into_inner().rest.is_empty())
}

#[test]
fn a_trace_is_read_to_its_end(rt: HostRuntime) -> Result<(), Fail> {
    for size in [1, 5, 100] {
        assert!(rt;
            loads(rt.alloc(), b"0,write,0,41\n0,read,0,\n", size)?,
            "{size:?}"
        );
    }
    Ok(())
}

// This many writes of a page, and then one of its first byte.
fn long_trace(alloc: Global, line: &[u8], lines: usize) -> Result<Vec<u8>, Fail> {
    let mut text = Vec::new(alloc);
    for _ in 0..lines {
        text.extend_from_slice(line)?;
    }
    text.extend_from_slice(b"0,write,1,09")?;
    Ok(text)
}

// Whether the commands are 100,000, and the last two of them a whole page and one of one byte.
fn ends_well(commands: &Commands) -> bool {
    commands.len() == 100_000
        && page_of(&commands.command(99_998)) == Some(*b"\x01\x02\x03\x04\x05\x06\x07\x08")
        && page_of(&commands.command(99_999)) == Some(*b"\x09\0\0\0\0\0\0\0")
}

#[test]
fn a_trace_of_100000_lines_is_loaded_and_parsed(rt: HostRuntime) -> Result<(), Fail> {
    let plain = b"499,write,2,0102030405060708\n".as_slice();
    let quoted = b"499,\"write\",2,0102030405060708\n".as_slice();
    for (line, size) in [(plain, 1), (quoted, 20_000)] {
        let text = long_trace(rt.alloc(), line, 99_999)?;
        assert!(rt; text.len() > 1 << 20 && loads(rt.alloc(), text.as_slice(), size)?);
        assert!(rt; ends_well(&commands(rt.alloc(), text.as_slice())?));
    }
    Ok(())
}

#[test]
fn a_fault_in_line_100001_is_reported(rt: HostRuntime) -> Result<(), Fail> {
    let mut text = long_trace(rt.alloc(), b"0,read,0,\n", 99_999)?;
    text.extend_from_slice(b"\n0,read,3,")?;
    assert!(rt; first_fault(rt.alloc(), text.as_slice())? == at(100_001, TraceFaultKind::Sector));
    Ok(())
}

#[test]
fn a_load_ends_if_its_reader_fails_or_never_ends(rt: HostRuntime) {
    let mut failing = Watched::new(Pieces {
        rest: b"0,write,0,41\n",
        size: 3,
        fails_at: Some(4),
    });
    let mut endless = Watched::new(Endless);
    let found = (
        load(rt.alloc(), &mut failing).err(),
        load(rt.alloc(), &mut endless).err(),
    );
    assert!(rt; found == (at(0, TraceFaultKind::Read), at(0, TraceFaultKind::Big)));
    assert!(rt; (failing.failures(), endless.failures()) == (1, 0));
}

// Accepts this many bytes, and then none; its flush fails.
#[derive(Drop)]
struct Full {
    room: usize,
}

impl Write for Full {
    fn write(&mut self, buf: &[u8]) -> io::Result<usize> {
        let count = self.room.min(buf.len());
        self.room -= count;
        Ok(count)
    }

    fn flush(&mut self) -> io::Result<()> {
        Err(io::Error::from(io::ErrorKind::BrokenPipe))
    }
}

#[test]
fn a_write_that_takes_nothing_is_a_failure(rt: HostRuntime) -> Result<(), Fail> {
    let mut writer = Watched::new(Full { room: 3 });
    let taken = (
        writer.write(b"")?,
        writer.write(b"four")?,
        writer.failures(),
    );
    let full = (writer.write(b"r")?, writer.failures());
    let flushed = (writer.flush().is_err(), writer.failures());
    assert!(rt; taken == (0, 3, 0) && full == (0, 1) && flushed == (true, 2));
    Ok(())
}

// Reads and writes all that it is asked for, and counts its flushes.
#[derive(Drop)]
struct Steady {
    flushes: u64,
}

impl Read for Steady {
    fn read(&mut self, buf: &mut [u8]) -> io::Result<usize> {
        buf.fill(7);
        Ok(buf.len())
    }
}

impl Write for Steady {
    fn write(&mut self, buf: &[u8]) -> io::Result<usize> {
        Ok(buf.len())
    }

    fn flush(&mut self) -> io::Result<()> {
        self.flushes = self.flushes.wrapping_add(1);
        Ok(())
    }
}

// Whether these bytes are read, written and flushed at once.
fn takes_all(watched: &mut Watched<Steady>, bytes: &mut [u8]) -> bool {
    watched.read(bytes).ok() == Some(bytes.len())
        && bytes.iter().all(|byte| *byte == 7)
        && watched.write(bytes).ok() == Some(bytes.len())
        && watched.flush().is_ok()
}

#[test]
fn a_stream_that_never_fails_has_no_failure(rt: HostRuntime) -> Result<(), Fail> {
    let mut watched = Watched::new(Steady { flushes: 0 });
    let mut bytes = Vec::new(rt.alloc());
    for size in [1, 2, 511, 4_096, 65_536, 80_000] {
        bytes.resize(size, 0)?;
        assert!(rt; takes_all(&mut watched, &mut bytes), "{size:?}");
    }
    let counts = (watched.failures(), watched.inner().flushes);
    assert!(rt; (counts, watched.into_inner().flushes) == ((0, 6), 6));
    Ok(())
}
