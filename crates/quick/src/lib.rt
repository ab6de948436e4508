// Operands that have their value without a frame: a literal or a set variable, a field of one, a sum or a comparison of two, and one
// such thing inside another. Nothing is changed here.
#![tactic(auto)]

ghost use Rattle.std.specs.Prelude.{◌≡◌, List, ℕ, ◌≤◌, ◌<◌, IfSome};
ghost use Rattle.words.specs.Value.{value_with};
ghost use Rattle.image.specs.Numbers.{most_nodes};
ghost use Rattle.image.specs.Trailer.{class_count, node_count};
ghost use Rattle.image.specs.Nodes.{node_word};
ghost use Rattle.rules.specs.Trees.{written, operand};
ghost use Rattle.rules.specs.Program.{program};
ghost use Rattle.laws.specs.Values.{value_at, IsValue};
ghost use Rattle.laws.specs.Trees.{operand_count};
ghost use Rattle.laws.specs.Heap.{Words};
ghost use Rattle.room.specs.Room.{IsNode};
ghost use Rattle.memo.specs.Memo.{Memo};
ghost use Rattle.quick.specs.Known.{Tabled, Stored, Known, Valued, IsPair, Gives, Paired, Field, Deep};

use redexes::INTEGER;
use words::TAG;

// A value's word, and the steps to it.
#[derive(Clone, Copy)]
pub struct Quick {
    pub word: u64,
    pub steps: u64,
}

// Kinds of nodes, by their numbers: with the enum `image::Kind` in their place runs were a seventh slower.
pub const NEW: u32 = 0;

pub const CAST: u32 = 1;

pub const LITERAL: u32 = 2;

pub const VAR: u32 = 3;

pub const ADD: u32 = 4;

pub const EQ: u32 = 5;

pub const ASSIGN: u32 = 6;

pub const GET: u32 = 7;

pub const SET: u32 = 8;

pub const CALL: u32 = 9;

pub const BLOCK: u32 = 10;

pub const SEQ: u32 = 11;

pub const IF: u32 = 12;

pub const WHILE: u32 = 13;

pub const THROW: u32 = 14;

pub const TRY: u32 = 15;

// Word k of node n. The words and where the nodes begin stand for the image: with `&Image` in their place runs were slower.
pub fn word_at(ws: &[u32], nodes: usize, n: usize, k: usize) -> u32
    requires { Tabled ws.now nodes × (n < node_count ws.now) × (k < 4) }
    ensures { result ≡ node_word ws.now n k }
{
    ws[nodes + 4 * n + k]
}

// The word of a literal's value. `redexes::literal_word` asks an image; here the words and where the nodes begin stand for it.
pub fn literal_at(ws: &[u32], nodes: usize, n: usize) -> u64
    requires { Tabled ws.now nodes × IsNode ws.now n 2 }
    ensures { (value_at result ≡ written (value_with (node_word ws.now n 2) (node_word ws.now n 3))) × IsValue result }
{
    let tag = word_at(ws, nodes, n, 2) as u64;
    let payload = word_at(ws, nodes, n, 3) as u64;
    tag * TAG + payload
}

// The first operand of a node that has two. `operands::operand_place` asks an image, and goes by a loop.
pub fn first_of_two(ws: &[u32], nodes: usize, n: usize) -> usize
    requires { Tabled ws.now nodes × (n < node_count ws.now) × (1 < operand_count ws.now n) }
    ensures { (result ≡ operand ws.now n 1) × (result < n) }
{
    n - 1 - word_at(ws, nodes, n - 1, 1) as usize
}

// The word of an Add, 4, or an Eq, 5, of two values, where there is one. `kind` is the number of the node's kind or, as it is the same, of
// the frame's tag. The sum stands here: with `redexes::add_redex` in its place runs were 4 % slower.
pub fn pair_word(kind: u64, v: u64, w: u64) -> Option<u64>
    requires { IsPair kind × IsValue v × IsValue w }
    ensures { IfSome result (Gives kind v w) }
{
    if kind == EQ as u64 {
        return Some(redexes::eq_redex(v, w));
    }
    if (v / TAG == INTEGER) & (w / TAG == INTEGER) {
        return Some(3 * TAG + (v + w) % TAG);
    }
    None
}

// An Add or an Eq of two operands.
fn pair(kind: u32, a: Option<Quick>, b: Option<Quick>) -> Option<Quick>
    requires { IsPair kind × IfSome a Valued × IfSome b Valued }
    ensures { IfSome result (Paired kind a b) }
{
    let v = a?;
    let w = b?;
    Some(Quick {
        word: pair_word(kind as u64, v.word, w.word)?,
        steps: v.steps + w.steps + 1,
    })
}

// The Get at node p of a value, where its field is known.
fn field(ws: &[u32], heap: &[u64], memo: &[u64], p: usize, q: Option<Quick>) -> Option<Quick>
    requires { IsNode ws.now p 7 × (node_count ws.now ≤ most_nodes) × Words (program ws.now) (class_count ws.now) heap.now × Memo ws.now memo.now × IfSome q Valued }
    ensures { IfSome result (Field ws.now heap.now p q) }
{
    let v = q?;
    let j = memo::spot(heap, memo, p, v.word)?;
    Some(Quick {
        word: heap[j],
        steps: v.steps + 1,
    })
}

// A literal or a variable.
pub fn leaf(ws: &[u32], nodes: usize, room: &[u64], n: usize) -> Option<Quick>
    requires { Tabled ws.now nodes × (n < node_count ws.now) × Stored ws.now room.now }
    ensures { (hs : List ℕ) → IfSome result (Known ws.now hs room.now n 0) }
{
    match word_at(ws, nodes, n, 0) {
        LITERAL => Some(Quick {
            word: literal_at(ws, nodes, n),
            steps: 0,
        }),
        VAR => {
            let w = room[word_at(ws, nodes, n, 2) as usize];
            if w == 0 {
                return None;
            }
            Some(Quick {
                word: w - 1,
                steps: 1,
            })
        },
        _ => None,
    }
}

// The Add or Eq at node n, of two leaves.
pub fn pair_at(ws: &[u32], nodes: usize, room: &[u64], kind: u32, n: usize) -> Option<Quick>
    requires { Tabled ws.now nodes × IsNode ws.now n kind × IsPair kind × Stored ws.now room.now }
    ensures { (hs : List ℕ) → IfSome result (Known ws.now hs room.now n 1) }
{
    let a = leaf(ws, nodes, room, first_of_two(ws, nodes, n));
    pair(kind, a, leaf(ws, nodes, room, n - 1))
}

// The Get at node n, of a leaf.
pub fn get_at(
    ws: &[u32],
    nodes: usize,
    room: &[u64],
    heap: &[u64],
    memo: &[u64],
    n: usize,
) -> Option<Quick>
    requires { Tabled ws.now nodes × IsNode ws.now n 7 × Stored ws.now room.now × Words (program ws.now) (class_count ws.now) heap.now × Memo ws.now memo.now }
    ensures { IfSome result (Known ws.now heap.now room.now n 1) }
{
    field(ws, heap, memo, n, leaf(ws, nodes, room, n - 1))
}

// A leaf, a field of one, or a sum or comparison of two. It is called from one place, so that it becomes a part of what calls it.
fn shallow(
    ws: &[u32],
    nodes: usize,
    room: &[u64],
    heap: &[u64],
    memo: &[u64],
    n: usize,
) -> Option<Quick>
    requires { Tabled ws.now nodes × (n < node_count ws.now) × Stored ws.now room.now × Words (program ws.now) (class_count ws.now) heap.now × Memo ws.now memo.now }
    ensures { IfSome result (Known ws.now heap.now room.now n 1) }
{
    let kind = word_at(ws, nodes, n, 0);
    if (kind == ADD) | (kind == EQ) {
        return pair_at(ws, nodes, room, kind, n);
    }
    if kind == GET {
        return get_at(ws, nodes, room, heap, memo, n);
    }
    leaf(ws, nodes, room, n)
}

// The node that may be more than a leaf: of an Add or an Eq the last operand, or the first where the last is a leaf, and else the node
// itself.
fn deep_of(ws: &[u32], nodes: usize, kind: u32, n: usize) -> usize
    requires { Tabled ws.now nodes × IsNode ws.now n kind }
    ensures { Deep ws.now kind n result }
{
    if (kind != ADD) & (kind != EQ) {
        return n;
    }
    if word_at(ws, nodes, n - 1, 1) == 1 {
        n - 2
    } else {
        n - 1
    }
}

// The same, or a sum or comparison of such a thing and a leaf.
pub fn nested(
    ws: &[u32],
    nodes: usize,
    room: &[u64],
    heap: &[u64],
    memo: &[u64],
    n: usize,
) -> Option<Quick>
    requires { Tabled ws.now nodes × (n < node_count ws.now) × Stored ws.now room.now × Words (program ws.now) (class_count ws.now) heap.now × Memo ws.now memo.now }
    ensures { IfSome result (Known ws.now heap.now room.now n 2) }
{
    let kind = word_at(ws, nodes, n, 0);
    let deep = deep_of(ws, nodes, kind, n);
    let q = shallow(ws, nodes, room, heap, memo, deep);
    if deep == n {
        return q;
    }
    if deep + 1 == n {
        return pair(kind, leaf(ws, nodes, room, first_of_two(ws, nodes, n)), q);
    }
    pair(kind, q, leaf(ws, nodes, room, n - 1))
}
