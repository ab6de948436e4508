// The image: where its sections stand, its records, and the answers of the layout check.
// Words with a layout that fits them are `Sections`, and an `Image` where every rule of the layout holds.
#![tactic(auto)]

ghost use Rattle.std.specs.Prelude.{◌≡◌, ℕ, suc, ◌+◌, ◌*◌, ◌-◌, ◌≤◌, ◌<◌, length};
ghost use Rattle.image.specs.Numbers.{trailer_words};
ghost use Rattle.image.specs.Trailer.{trailer};
ghost use Rattle.image.specs.Records.{superclass, field_word, method_word, type_at};
ghost use Rattle.image.specs.Nodes.{node_word, kind_of};
ghost use Rattle.image.specs.Layout.{Lay, laid_numbers, breach_numbers};

use order::Answer;

mod views;

pub use views::{Image, Sections};

// The numbers of specs/Numbers.antt that code needs, under the same names.
pub const TRAILER_WORDS: usize = 8;

pub const FORMAT_NUMBER: usize = 1;

pub const FIRST_USER_CLASS: usize = 4;

pub const MOST_CLASSES: usize = 256;

pub const MOST_FIELDS: usize = 1024;

pub const MOST_METHODS: usize = 1024;

pub const MOST_TYPE_WORDS: usize = 2048;

pub const MOST_NODES: usize = 4096;

pub const MOST_ARGUMENTS: u32 = 8;

pub const MOST_INPUTS: usize = 8;

pub const HIGHEST_NAME: u32 = 65535;

pub const VARIABLES: u32 = 64;

pub const WRITTEN_TAGS: u32 = 4;

// Where each section begins, how many records it has, and the trailer's words 5 and 6. Classes begin at word 0.
// An image comes from C as one slice of words, so its records stay places in that slice.
#[derive(Clone, Copy)]
pub struct Layout {
    pub class_count: usize,
    pub fields: usize,
    pub field_count: usize,
    pub methods: usize,
    pub method_count: usize,
    pub types: usize,
    pub type_count: usize,
    pub nodes: usize,
    pub node_count: usize,
    pub main: usize,
    pub inputs: usize,
}

// The first breach of the layout, numbers 1 to 9, with its place.
#[derive(Clone, Copy)]
pub enum Breach {
    Format,
    Trailer(usize),
    Ceiling(usize),
    ClassRecord(usize),
    FieldRecord(usize),
    MethodRecord(usize),
    TypeWord(usize),
    NodeRecord(usize),
    Bodies(usize),
}

// A node's kind. The numbers 0 to 15 are the kinds in this order; any other number is no kind.
// `Unknown` is a case, and not None of an Option: above the layout check an Option would have to be opened at each node.
#[derive(Clone, Copy)]
pub enum Kind {
    New,
    Cast,
    Value,
    Var,
    Add,
    Eq,
    Assign,
    Get,
    Set,
    Call,
    Block,
    Seq,
    If,
    While,
    Throw,
    Try,
    Unknown,
}

impl From<u32> for Kind {
    ghost from_gives = { λ k result. result ≡ kind_of k };

    #[tactic(auto, using(crate::specs::Laws::no_kind), unfolding(crate::specs::Nodes::kind_of))]
    fn from(k: u32) -> Kind {
        match k {
            0 => Kind::New,
            1 => Kind::Cast,
            2 => Kind::Value,
            3 => Kind::Var,
            4 => Kind::Add,
            5 => Kind::Eq,
            6 => Kind::Assign,
            7 => Kind::Get,
            8 => Kind::Set,
            9 => Kind::Call,
            10 => Kind::Block,
            11 => Kind::Seq,
            12 => Kind::If,
            13 => Kind::While,
            14 => Kind::Throw,
            15 => Kind::Try,
            _ => Kind::Unknown,
        }
    }
}

// Trailer word j.
pub fn trailer_word(ws: &[u32], j: usize) -> usize
    requires { (trailer_words ≤ length ws.now) × (j < trailer_words) }
    ensures { result ≡ trailer ws.now j }
{
    ws[ws.len() - TRAILER_WORDS + j] as usize
}

// Class c's superclass number. These five ask for a layout that fits the words, and no more.
#[tactic(auto, using(crate::specs::Laws::begins), unfolding(crate::specs::Records::superclass))]
pub fn class_word(ws: &[u32], l: Layout, c: usize) -> u32
    requires { Lay ws.now l × (c < l.class_count) }
    ensures { result ≡ superclass ws.now c }
{
    ws[c]
}

// Word k of field i.
#[tactic(auto, using(crate::specs::Laws::begins), unfolding(crate::specs::Records::field_word))]
pub fn field_word(ws: &[u32], l: Layout, i: usize, k: usize) -> u32
    requires { Lay ws.now l × (i < l.field_count) × (k < 3) }
    ensures { result ≡ field_word ws.now i k }
{
    ws[l.fields + 3 * i + k]
}

// Word k of method i.
#[tactic(auto, using(crate::specs::Laws::begins), unfolding(crate::specs::Records::method_word))]
pub fn method_word(ws: &[u32], l: Layout, i: usize, k: usize) -> u32
    requires { Lay ws.now l × (i < l.method_count) × (k < 6) }
    ensures { result ≡ method_word ws.now i k }
{
    ws[l.methods + 6 * i + k]
}

// Type word i.
#[tactic(auto, using(crate::specs::Laws::begins), unfolding(crate::specs::Records::type_at))]
pub fn type_word(ws: &[u32], l: Layout, i: usize) -> u32
    requires { Lay ws.now l × (i < l.type_count) }
    ensures { result ≡ type_at ws.now i }
{
    ws[l.types + i]
}

// Word k of node n.
#[tactic(auto, using(crate::specs::Laws::begins), unfolding(crate::specs::Nodes::node_word))]
pub fn node_word(ws: &[u32], l: Layout, n: usize, k: usize) -> u32
    requires { Lay ws.now l × (n < l.node_count) × (k < 4) }
    ensures { result ≡ node_word ws.now n k }
{
    ws[l.nodes + 4 * n + k]
}

// The number and place of a breach.
impl From<Breach> for Answer {
    ghost from_gives = { λ b result. result ≡ breach_numbers b };

    fn from(b: Breach) -> Answer {
        let (number, place) = match b {
            Breach::Format => (1, 0),
            Breach::Trailer(p) => (2, p),
            Breach::Ceiling(p) => (3, p),
            Breach::ClassRecord(p) => (4, p),
            Breach::FieldRecord(p) => (5, p),
            Breach::MethodRecord(p) => (6, p),
            Breach::TypeWord(p) => (7, p),
            Breach::NodeRecord(p) => (8, p),
            Breach::Bodies(p) => (9, p),
        };
        Answer {
            number,
            place: place as u64,
        }
    }
}
