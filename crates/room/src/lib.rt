// The room of a run and what a turn of the machine is: the layout of the lent words, and what each turn must do.
// The only code here reads a frame's tag.
#![tactic(auto)]

ghost use Rattle.std.specs.Prelude.{◌≡◌};
ghost use Rattle.room.specs.Tags.{tag_of};

// Words 0 to 63 are the variables: a value's word and 1 more, or 0 where a variable is unset. The room is lent memory, so code reads and
// writes these numbers where they stand. Word 64 says where New goes on to look for a free slot.
pub const SEARCH: usize = 64;

// Where the first frame begins, the words of one, and the word of a Call's frame from which on it keeps its operands' values. Frames and
// variables are places in the lent room, since nothing is taken from a heap.
pub const FRAMES: usize = 80;

pub const FRAME_WORDS: usize = 16;

pub const OPERANDS: usize = 5;

// Tags of frames. A frame keeps its tag as a word of the lent room, so here are the numbers; code that asks what a frame is reads them as a
// `Tag`. Where a node's first operand is active the tag is the number of its kind, and SECOND more where its second is. TEST is the tag
// of a While whose condition is active, LOOP that of one whose body is.
pub const CAST: u64 = 1;

pub const ADD: u64 = 4;

pub const EQ: u64 = 5;

pub const ASSIGN: u64 = 6;

pub const GET: u64 = 7;

pub const SET: u64 = 8;

pub const CALL: u64 = 9;

pub const BLOCK: u64 = 10;

pub const SEQ: u64 = 11;

pub const IF: u64 = 12;

pub const TEST: u64 = 13;

pub const THROW: u64 = 14;

pub const TRY: u64 = 15;

pub const SECOND: u64 = 16;

pub const ADD_SECOND: u64 = ADD + SECOND;

pub const EQ_SECOND: u64 = EQ + SECOND;

pub const SET_SECOND: u64 = SET + SECOND;

pub const LOOP: u64 = 29;

// The type word of class 0, and the value word of address 0. What is written into lent words is put together from them: an enum would be
// made only to be turned into its word at once.
pub const CLASS: u64 = 4;

pub const ADDRESS: u64 = 17179869184;

// What a frame's tag says, with which operand is active where a node may have its first or its second so. `Unknown` is a case, since a
// frame of the machine always has a tag: an Option would have to be opened at each frame.
#[derive(Clone, Copy)]
pub enum Tag {
    Cast,
    AddFirst,
    EqFirst,
    Assign,
    Get,
    SetFirst,
    Call,
    Block,
    Seq,
    If,
    Test,
    Throw,
    Try,
    AddSecond,
    EqSecond,
    SetSecond,
    Loop,
    Unknown,
}

impl From<u64> for Tag {
    ghost from_gives = { λ t result. result ≡ tag_of t };

    #[tactic(auto, using(crate::specs::TagLaws::no_tag), unfolding(crate::specs::Tags::tag_of, crate::specs::Tags::tag_in))]
    fn from(t: u64) -> Tag {
        match t {
            CAST => Tag::Cast,
            ADD => Tag::AddFirst,
            EQ => Tag::EqFirst,
            ASSIGN => Tag::Assign,
            GET => Tag::Get,
            SET => Tag::SetFirst,
            CALL => Tag::Call,
            BLOCK => Tag::Block,
            SEQ => Tag::Seq,
            IF => Tag::If,
            TEST => Tag::Test,
            THROW => Tag::Throw,
            TRY => Tag::Try,
            ADD_SECOND => Tag::AddSecond,
            EQ_SECOND => Tag::EqSecond,
            SET_SECOND => Tag::SetSecond,
            LOOP => Tag::Loop,
            _ => Tag::Unknown,
        }
    }
}

// What the machine looks at: a node that is not begun, a value's word, or Throw of an address, with its place. What is known of the lent
// room and heap stands in clauses and in no type: a turn writes them word by word, and what holds between two turns is about one focus
// and level.
#[derive(Clone, Copy)]
pub enum Focus {
    Node(usize),
    Value(u64),
    Thrown(usize, usize),
}

// What a turn comes to. Moved and Stepped tell the new focus and how many frames are above it. Limit: there is a step, and it may not
// be taken. Sunk: there is a step, and after it the active place is too deep for the room. Over: no frame is above a value or an
// address that is thrown.
#[derive(Clone, Copy)]
pub enum Go {
    Moved(Focus, usize),
    Stepped(Focus, usize),
    Limit,
    Sunk,
    Stuck(usize),
    Deep,
    Over,
}
