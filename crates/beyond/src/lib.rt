// A node under more frames than the depth limit allows.
#![tactic(auto)]

ghost use Rattle.std.specs.Prelude.{◌≡◌, ◌+◌, ◌<◌};
ghost use Rattle.image.specs.declared.Kind.TheVariants.{Value as Literal};
ghost use Rattle.image.specs.Nodes.{node_word, kind_of, operands};
ghost use Rattle.room.specs.declared.Focus.TheVariants.{Node};
ghost use Rattle.room.specs.Room.{Fit};
ghost use Rattle.room.specs.Armed.{armed};
ghost use Rattle.pushes.specs.Turns.{Turns, Past};

use image::{Image, Kind};
use room::{Focus, Go};

// An Assign that is too deep, unless a block takes its literal up.
fn beyond_assign(image: &Image, room: &mut [u64], n: usize, l: usize) -> Go
    requires { (n < image.now.layout.node_count) × Fit image.now.words.now room.old l × (node_word image.now.words.now n 0 ≡ 6) }
    ensures { Turns image.now.words.now room.old l (Node n) room.new (Past l) result }
{
    let m = n - 1;
    let Kind::Value = Kind::from(image.node_word(m, 0)) else {
        return Go::Deep;
    };
    let x = image.node_word(n, 2) as usize;
    if !pushes::armed_seq(room, l, x) {
        return Go::Deep;
    }
    let w = redexes::literal_word(image, m);
    let i = l - 1;
    let rest = pushes::take_up(room, i, x, w);
    Go::Moved(Focus::Node(rest), i)
}

// A Seq that is too deep, unless it begins with an Assign of a literal that a block takes up.
fn beyond_seq(image: &Image, room: &mut [u64], n: usize, l: usize) -> Go
    requires { (n < image.now.layout.node_count) × Fit image.now.words.now room.old l × (node_word image.now.words.now n 0 ≡ 11) }
    ensures { Turns image.now.words.now room.old l (Node n) room.new (Past l) result }
{
    let m = operands::operand_place(image, n, 1);
    let Kind::Assign = Kind::from(image.node_word(m, 0)) else {
        return Go::Deep;
    };
    let v = m - 1;
    let Kind::Value = Kind::from(image.node_word(v, 0)) else {
        return Go::Deep;
    };
    let x = image.node_word(m, 2) as usize;
    if !pushes::armed(room, l, x) {
        return Go::Deep;
    }
    room[x] = redexes::literal_word(image, v) + 1;
    Go::Moved(Focus::Node(n - 1), l)
}

// A node other than a literal under more frames than the limit lets be.
pub fn beyond(image: &Image, room: &mut [u64], n: usize, l: usize, kind: Kind) -> Go
    requires { (n < image.now.layout.node_count) × Fit image.now.words.now room.old l × (kind ≡ kind_of (node_word image.now.words.now n 0)) × (kind ≡ Literal → ⊥) }
    ensures { Turns image.now.words.now room.old l (Node n) room.new (Past l) result }
{
    match kind {
        Kind::Assign => beyond_assign(image, room, n, l),
        Kind::Seq => beyond_seq(image, room, n, l),
        _ => Go::Deep,
    }
}
