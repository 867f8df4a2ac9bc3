// The largest numbers that are admitted, each once and by name, as in specs/Limits.antt; the proof of a function that uses one holds it to that.

// The longest symbol, in bytes (E).
pub const LARGEST_SYMBOL: u64 = 65_535;

// The most symbols of a block (B).
pub const LARGEST_BLOCK: u64 = 65_535;

// The most blocks of an object or FDT.
pub const MOST_BLOCKS: u64 = 65_535;

// The longest store, in bytes: 2^40.
pub const LONGEST_STORE: u64 = 0x100_0000_0000;

// How many object numbers can be held at a time.
pub const TOI_ENTRIES: usize = 64;

// How many file sessions there may be.
pub const MOST_SESSIONS: usize = 4;

// The largest window of open blocks.
pub const LARGEST_WINDOW: usize = 16;

// How many objects can be held at a time.
pub const OBJECT_SLOTS: usize = 32;

// How many FDTs can wait beside the current one.
pub const WAITING_FDTS: usize = 4;

// The largest FDT id; the next after it is 0.
pub const LARGEST_FDT_ID: u32 = 0xF_FFFF;

// Where the count of transfers and their total stop.
pub const LARGEST_COUNT: u32 = 0xFFFF_FFFF;

pub const LARGEST_TOTAL: u64 = 0xFFFF_FFFF_FFFF_FFFF;

// Three of these limits again, for numbers that come in 64 bits: of file sessions, of the window, and of FDT ids.
pub const LARGEST_NAMED_COUNT: u64 = MOST_SESSIONS as u64;

pub const LARGEST_NAMED_WINDOW: u64 = LARGEST_WINDOW as u64;

pub const LARGEST_NAMED_ID: u64 = LARGEST_FDT_ID as u64;
