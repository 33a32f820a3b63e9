//! The texts of `--help`.

pub const ABOUT: &str =
    "Runs a batch file from standard input on an ordered key-value store, and prints the answers";

pub const FAN: &str = "Entries of a page, besides its lists of changes, 4 to 64";

pub const CHAIN: &str = "Lists of changes on a page before they are merged into it, 1 to 16";

pub const MAX_KEY: &str = "Longest key in bytes, 1 to 255";

pub const MAX_VALUE: &str = "Longest value in bytes, 0 to 1024";

pub const SEG_SIZE: &str = "Bytes of a log segment, 256 to 1048576; must hold a full page";

pub const SEGMENTS: &str =
    "Segments of the log, 3 to 65536; an existing store keeps these six settings";

pub const PAIRS: &str =
    "Pairs for which --create or --copy-to chooses fan, chain, seg-size and segments";

pub const WORKERS: &str = "Threads that work on a batch, 1 to 64";

pub const GRAIN: &str = "Pages that a thread claims at a time, 1 to 65535";

pub const TIDY: &str =
    "Pages with few pairs to merge before each flush, at most; makes flushes larger";

pub const WAIT: &str = "Seconds to wait while another program has locked a file";

pub const MAX_ROWS: &str =
    "Rows that the scans of a batch may ask for, with --stream; 0 is no bound";

pub const DISK: &str = "File of the store; without it the store is in memory, and is lost at exit";

pub const COPY_TO: &str = "Copies the store to this new, empty or unfinished file after all lines";

pub const CREATE: &str = "Creates the file of the store; what the file held is lost";

pub const VERSION: &str = "Prints the version";

pub const EXPLAIN: &str = "Explains errors on standard error";

pub const STAT: &str = "Prints statistics of the store at the end";

pub const CLEAN_WHEN_FULL: &str =
    "Before a flush, cleans a nearly full log and compacts nearly empty pages";

pub const STREAM: &str =
    "Answers each batch before it reads on; without it, all input is read first";

pub const PROGRESS: &str = "Shows progress on standard error";

pub const AFTER_OPTIONS: &str = "\
Lines of a batch file:
  put K V           Stores the value V under the key K
  add K V           Stores V under K unless K exists
  get K             Reads the value of K
  del K             Deletes K
  scan LO HI LIMIT  Reads at most LIMIT pairs from LO up to, but not including, HI
  wipe LO HI        Deletes the keys from LO up to, but not including, HI
  go                Runs the commands since the last batch as one batch; flush, clean, upgrade, verify and the end do so too
  flush             Writes all changes to the log; only flushed changes survive the program
  clean             Frees the first segment of the log
  upgrade           Flushes, and upgrades the log to version 2 (compressed keys); irreversible
  verify            Checks the whole tree
  # ...             A comment
With --stream, also:
  .stat             Prints the statistics and the settings of the store
  .copy PATH [N]    Copies the store, as it is now, to a new, empty or unfinished file, with N segments
  .tidy N           Merges up to N pages with few pairs
  .back LO HI LIMIT     Reads at most LIMIT pairs, as scan does, from the last one down
  .prefix BYTES LIMIT   Reads at most LIMIT pairs whose keys begin with BYTES
  .help             Lists the lines
HI may be *, which is no bound; LO may be %, the least key.
Keys and values are words of printable ASCII; %XX is a byte in hexadecimal, and % alone is the empty string.

Exit status:
  0  Everything is done, or the help or the version was printed; with --stream, the input was read to its end
  2  The command line is refused; nothing was read
  3  A line is bad; nothing was run
  4  A fault, which standard error names; --explain tells more\
";

/// The answer to `.help`.
pub const STREAM_LINES: &str = "\
put K V | add K V | get K | del K | scan LO HI LIMIT | wipe LO HI: a command of the batch
go: runs the batch
flush | clean | upgrade | verify: runs the batch, and then this
.stat | .copy PATH [SEGMENTS] | .tidy N | .back LO HI LIMIT | .prefix BYTES LIMIT | .help: the same
";
