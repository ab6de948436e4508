// Where a node's operands stand: what every layer that goes down a tree asks.
#![tactic(auto)]

ghost use Rattle.std.specs.Prelude.{◌≡◌, ℕ, ◌<◌};
ghost use Rattle.image.specs.Nodes.{node_word, kind_of, operands};
ghost use Rattle.rules.specs.Trees.{operand};

use image::Image;

// The node of the operand that has j others behind it: 0 is the last. The image has a tree as its nodes in post-order, so an operand is
// found by the sizes of those behind it.
pub fn operand_place(image: &Image, n: usize, j: usize) -> usize
    requires { (n < image.now.layout.node_count) × (j < operands (kind_of (node_word image.now.words.now n 0)) (node_word image.now.words.now n 3)) }
    ensures { (result ≡ operand image.now.words.now n j) × (result < n) }
{
    let mut at = n - 1;
    for _ in 0..j {
        at -= image.node_word(at, 1) as usize;
    }
    at
}
