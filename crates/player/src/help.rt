/// The version of the program.
pub const VERSION: &str = "0.1.0";

/// What `--help` prints after the options.
pub const HELP: &str = "\
Trace, from standard input: a command in each line, `worker,op,sector,data`, without a header and without spaces:
  0,write,2,48656c6c6f    writes Hello to sector 2: two hexadecimal digits a byte, the rest of the page is zeros
  0,new,2,48              writes the sector if it is empty
  0,read,2,
  0,trim,2,               empties the sector
  0,meet,0,               waits until all workers are here; a run by one thread doesn't wait
Answers, to standard output: `line,op,sector,answer` for each command, and a last line with the pages programmed for
writes, the pages copied and the erases, as in `end,5,1,1`; by workers it is `end`. For example:
  printf '0,write,2,48\\n0,read,2,\\n' | flashplay --words 1
  1,write,2,empty
  2,read,2,4800000000000000
  end,1,0,0

Device: by one thread the sectors are below (blocks - 1) * pages, by workers at most (blocks - workers - 2 * brooms) * pages
with blocks above workers + 2 * brooms. Sectors, blocks and the words of all pages with one more for each page are at most
16777216.

Status: 0 everything was written; 1 input, output or a file failed; 2 the arguments are refused or describe no device; 3 the
trace has a fault, and nothing was played; 4 memory ran out, or a thread could not be started; 5 everything was written, but
writes were refused and --all-written was given.

Faults, on standard error, with what to do:
  line N: Fields    not four fields: add or remove commas; if this is no trace, convert it, and decompress it first
  line N: Worker    no number, or not below --workers (below 500 by one thread): give more --workers; remove a header row
  line N: Op        none of read, write, new, trim, meet: write it in lower case, without a space after the comma
  line N: Sector    no number, or not below --sectors: give more --sectors
  line N: Hex       an odd number of digits, or another character: write two digits of 0-9, a-f or A-F for each byte
  line N: TooLong   more bytes than a page has: give more --words, or write less data
  line N: Unused    a read, trim or meet with data, or a meet of another worker or sector than 0: leave it out
  line 0: Read      standard input could not be read: redirect a file to it, as in `< trace.csv`
  line 0: Big       more than 268435456 bytes: split the trace
  geometry: NAME    Luns, Blocks, Pages, Words, Sectors, Endurance: give a number in the option's range, and a multiple of
                    the LUNs as --blocks; Passes: give fewer workers or brooms, and workers beside brooms; TooManyWords:
                    give fewer --blocks, --pages or --words; TooFewBlocks: give more --blocks or fewer --sectors
  output: failed    the disk is full, or the reader has ended: free some space, or let the reader read to the end
  wear: not opened, collections: not opened
                    nothing was played: look at the folder and its permissions
  wear: not a file of its own, collections: not a file of its own
                    it is the trace, the answers, the faults or the other file, and nothing was played: name another file
  wear: not with workers
                    leave out --wear or --workers
  wear: failed, collections: failed
                    the answers are complete, and the file is not: look at its disk, and run again
  writes refused: N worn, writes refused: N full
                    N lines of the answers say worn or full: give more --blocks, --endurance, --brooms or --patience
  memory: refused, line 0: Memory    memory ran out: make the device or the trace smaller
  threads: refused  a thread could not be started: give fewer --workers and --brooms, or raise `ulimit -u`

More: `man flashplay`, and docs/FORMATS.md in a clone or in /usr/share/doc/mintlintel.";
