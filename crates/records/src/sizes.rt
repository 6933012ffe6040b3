// Sizes: the limits of document 01, and what follows from them: arrays of runs and tables, lengths of files, room in programs. A limit changes here and in the
// model's Limits, and nowhere else; a contract that names both holds them together.

// ---- the most of each kind

pub const CHARTS: usize = 8;

pub const STATES: usize = 128;

pub const TRANSITIONS: usize = 256;

pub const VARIABLES: usize = 64;

pub const NODES: usize = 1024;

pub const ACTIONS: usize = 512;

pub const EDGES: usize = 512;

pub const LITERALS: usize = 2944;

pub const CLOCKS: usize = 384;

pub const UPDATES: usize = 7168;

pub const RESETS: usize = 4352;

// The same by kind, as the reader of each format asks them (3): kinds 1 to 6, and 33 to 41.
pub const SET_LIMITS: [u16; 6] = [
    CHARTS as u16,
    STATES as u16,
    TRANSITIONS as u16,
    VARIABLES as u16,
    NODES as u16,
    ACTIONS as u16,
];

pub const TABLE_LIMITS: [u16; 9] = [
    CHARTS as u16,
    STATES as u16,
    EDGES as u16,
    LITERALS as u16,
    CLOCKS as u16,
    VARIABLES as u16,
    NODES as u16,
    UPDATES as u16,
    RESETS as u16,
];

// ---- what a record and a run may hold

pub const PRIORITIES: usize = 16;

pub const LAST_PRIORITY: u8 = PRIORITIES as u8;

pub const OWNED: u8 = 8;

pub const LAST_EVENT: u8 = 31;

pub const MOST_MILLISECONDS: u32 = 3600000;

pub const MOST_TICKS: u16 = 36000;

pub const MOST_CYCLES: u32 = 1000000;

pub const LAST_CYCLE: u32 = MOST_CYCLES - 1;

// ---- a run's places

pub type Places = [u16; CHARTS];

pub type Ages = [u32; CHARTS];

pub type Clocks = [u16; CLOCKS];

pub type Variables = [i16; VARIABLES];

// ---- tables made once per file

// Of each state its leaving transitions by priority, and where the row ends.
pub type Rows = [[u16; PRIORITIES]; STATES];

pub type Ends = [u8; STATES];

// Actions by owner: keys of entry, of exit, of transitions, of waiting; of each key the first, of each action the next. 65535 is none, here and in the tables
// of automata: two bytes a link, where an `Option` has four, as this is fixed memory (docs/SPEED.md, "Fixed tables").
pub const EXIT_KEYS: u16 = STATES as u16;

pub const CROSSING_KEYS: u16 = 2 * (STATES as u16);

pub const EXIT_PLACES: usize = STATES;

pub const CROSSING_PLACES: usize = 2 * STATES;

pub const WAITING_KEYS: u16 = 2 * (STATES as u16) + (TRANSITIONS as u16);

// No action has this key: a turn that does those of one key asks this one twice more, so that one loop asks three.
pub const EMPTY_KEY: u16 = 3 * (STATES as u16) + (TRANSITIONS as u16);

pub const ACTION_KEYS: usize = 3 * STATES + TRANSITIONS + 1;

pub type ActionHeads = [u16; ACTION_KEYS];

pub type ActionLinks = [u16; ACTIONS];

// A table's records by owner: edges by location, literals by edge, updates and resets by edge.
pub const LOCATION_OWNERS: u16 = STATES as u16;

pub const EDGE_OWNERS: u16 = EDGES as u16;

pub const LITERAL_KEYS: u16 = STATES as u16;

pub const EFFECT_KEYS: u16 = (STATES as u16) + (EDGES as u16);

pub const TABLE_KEYS: usize = STATES + 2 * EDGES;

pub type TableHeads = [u16; TABLE_KEYS];

// ---- lengths of files

pub const SET_RECORDS: usize = CHARTS + STATES + TRANSITIONS + VARIABLES + NODES + ACTIONS;

pub const TABLE_RECORDS: usize = CHARTS
    + STATES
    + EDGES
    + LITERALS
    + CLOCKS
    + VARIABLES
    + NODES
    + UPDATES
    + RESETS;

// Names no record of a table. Its two bytes differ, so that an array is filled with it by plain stores.
pub const NO_RECORD: u16 = TABLE_RECORDS as u16;

pub const LONGEST_SET: usize = 16 * SET_RECORDS;

pub const LONGEST_TABLE: usize = 16 * TABLE_RECORDS;

// Room for a file in a program: a record more than any file that is accepted has.
pub const FILE_ROOM: usize = LONGEST_TABLE + 16;
