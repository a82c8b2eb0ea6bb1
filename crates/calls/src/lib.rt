// The limits, the numbers of refusal and the answers of the calls, as constants and types; what each call answers is defined in specs/.
#![tactic(auto)]

ghost use Rattle.std.specs.Prelude.{ℕ, ◌≡◌};
ghost use Rattle.calls.specs.Attempt.{number_of};
ghost use Rattle.calls.specs.Outcome.{code, outcome_of};
ghost use Rattle.calls.specs.Report.{refused_report};
ghost use Rattle.calls.specs.Answers.{report_seen, area_report_seen, read_seen, tree_seen, created_seen};

// The limits, of document 01 and by T-06: areas of a list, places of the tables, the shortest area, the largest image.
pub const MOST_AREAS: usize = 16;

pub const MOST_INODES: usize = 256;

pub const MOST_BLOCKS: usize = 1024;

pub const SHORTEST_AREA: usize = 128;

pub const LARGEST_IMAGE: usize = 65536;

// The most bytes that one append takes, and one overwrite (T-05).
pub const MOST_APPENDED: usize = 8192;

// The most records that fit in the largest image: none is shorter than 20 bytes, an inode's header.
pub const MOST_RECORDS: usize = LARGEST_IMAGE / 20;

// Why a call is refused, in the order of document 01's table: the names and numbers of the C header.
#[derive(Clone, Copy, PartialEq, Eq, Debug)]
pub enum Refusal {
    BadAreas = 1,
    SameAreaId = 2,
    NoFileOrScratch = 3,
    ShortScratch = 4,
    TooManyIds = 5,
    Conflict = 6,
    NoRoot = 7,
    BadPath = 8,
    NotFound = 9,
    Ambiguous = 10,
    WrongKind = 11,
    Exists = 12,
    Broken = 13,
    PastEnd = 14,
    NoRoom = 15,
    LastSequence = 16,
    NoSource = 17,
    // by T-01
    IntoItself = 18,
}

// The kinds of inodes: create takes any other number for a file too.
pub const DIRECTORY: u32 = 0;

pub const FILE: u32 = 1;

// The kinds of areas.
pub const AREA_PASSED_OVER: u32 = 0;

pub const AREA_FILE: u32 = 1;

pub const AREA_SCRATCH: u32 = 2;

// An area descriptor: where an area of flash starts and how long it is.
#[repr(C)]
#[derive(Clone, Copy)]
pub struct Descriptor {
    pub offset: u32,
    pub length: u32,
}

// An open file: the id of its inode, and where the next read begins.
#[repr(C)]
#[derive(Clone, Copy)]
pub struct Handle {
    pub id: u32,
    pub position: u32,
}

// The state of a volume: distinct inode ids, live ones, damage stretches and their bytes, and where the first stretch lies in the image.
#[repr(C)]
#[derive(Clone, Copy, Default)]
pub struct Report {
    pub number: u32,
    pub inodes: u32,
    pub live: u32,
    pub stretches: u32,
    pub skipped: u32,
    pub first_offset: u32,
    pub first_length: u32,
}

// One area: its kind, id and collection count by its header; records, damage stretches and their bytes, and bytes of free space by its reading;
// and where one of the stretches lies, from the area's start.
#[repr(C)]
#[derive(Clone, Copy, Default)]
pub struct AreaReport {
    pub number: u32,
    pub kind: u32,
    pub id: u32,
    pub count: u32,
    pub records: u32,
    pub stretches: u32,
    pub skipped: u32,
    pub free: u32,
    pub offset: u32,
    pub length: u32,
}

// What a path leads to; kind 0 is a directory and 1 a file.
#[repr(C)]
#[derive(Clone, Copy, Default)]
pub struct Lookup {
    pub number: u32,
    pub id: u32,
    pub kind: u32,
}

// An opened file: its handle.
#[repr(C)]
#[derive(Clone, Copy, Default)]
pub struct Opened {
    pub number: u32,
    pub id: u32,
    pub position: u32,
}

// How many bytes a read gave, and how many block headers it followed.
#[derive(Clone, Copy)]
pub struct BytesRead {
    pub given: u32,
    pub headers: u32,
}

// The same, as C sees it.
#[repr(C)]
#[derive(Clone, Copy, Default)]
pub struct ReadAnswer {
    pub number: u32,
    pub given: u32,
    pub headers: u32,
}

// How long the text of the tree is, all of it.
#[repr(C)]
#[derive(Clone, Copy, Default)]
pub struct TreeAnswer {
    pub number: u32,
    pub length: u32,
}

// A created inode.
#[repr(C)]
#[derive(Clone, Copy, Default)]
pub struct Created {
    pub number: u32,
    pub id: u32,
}

impl Refusal {
    // Its number, which C sees.
    pub fn number(self) -> u32
        ensures { result ≡ code self }
    {
        self as u32
    }
}

// What a call is refused by: one of the refusals, or a number itself.
pub trait Numbered {
    ghost code: { Self → ℕ };

    fn number(self) -> u32
        ensures { result ≡ code self };
}

impl Numbered for Refusal {
    ghost code = { code };

    fn number(self) -> u32 {
        Refusal::number(self)
    }
}

impl Numbered for u32 {
    ghost code = { λ number. number };

    fn number(self) -> u32 {
        self
    }
}

// The number of a call that answers nothing else.
pub fn number(outcome: Result<(), Refusal>) -> u32
    ensures { result ≡ number_of (outcome_of outcome) }
{
    match outcome {
        Ok(()) => 0,
        Err(refusal) => refusal.number(),
    }
}

// A refused report.
pub fn refused_report(number: u32) -> Report
    ensures { result ≡ refused_report number }
{
    Report {
        number,
        ..Report::default()
    }
}

// The answer of a refused read.
pub fn not_read(number: u32) -> ReadAnswer
    ensures { result ≡ record { number = number; given = 0; headers = 0 } }
{
    ReadAnswer {
        number,
        given: 0,
        headers: 0,
    }
}

// A refused listing.
pub fn not_listed(number: u32) -> TreeAnswer
    ensures { result ≡ record { number = number; length = 0 } }
{
    TreeAnswer { number, length: 0 }
}

// The answer of a refused create.
pub fn not_created(number: u32) -> Created
    ensures { result ≡ record { number = number; id = 0 } }
{
    Created { number, id: 0 }
}

impl From<Result<Report, Refusal>> for Report {
    ghost from_gives = { λ outcome answer. answer ≡ report_seen outcome };

    fn from(outcome: Result<Report, Refusal>) -> Report {
        match outcome {
            Ok(report) => report,
            Err(refusal) => refused_report(refusal.number()),
        }
    }
}

impl From<Result<AreaReport, Refusal>> for AreaReport {
    ghost from_gives = { λ outcome answer. answer ≡ area_report_seen outcome };

    fn from(outcome: Result<AreaReport, Refusal>) -> AreaReport {
        match outcome {
            Ok(area) => area,
            Err(refusal) => AreaReport {
                number: refusal.number(),
                ..AreaReport::default()
            },
        }
    }
}

impl From<Result<BytesRead, Refusal>> for ReadAnswer {
    ghost from_gives = { λ outcome answer. answer ≡ read_seen outcome };

    fn from(outcome: Result<BytesRead, Refusal>) -> ReadAnswer {
        match outcome {
            Ok(BytesRead { given, headers }) => ReadAnswer {
                number: 0,
                given,
                headers,
            },
            Err(refusal) => not_read(refusal.number()),
        }
    }
}

impl From<Result<u32, Refusal>> for TreeAnswer {
    ghost from_gives = { λ outcome answer. answer ≡ tree_seen outcome };

    fn from(outcome: Result<u32, Refusal>) -> TreeAnswer {
        match outcome {
            Ok(length) => TreeAnswer { number: 0, length },
            Err(refusal) => not_listed(refusal.number()),
        }
    }
}

impl From<Result<u32, Refusal>> for Created {
    ghost from_gives = { λ outcome answer. answer ≡ created_seen outcome };

    fn from(outcome: Result<u32, Refusal>) -> Created {
        match outcome {
            Ok(id) => Created { number: 0, id },
            Err(refusal) => not_created(refusal.number()),
        }
    }
}
