// Numbers 8 and 9: node records, and the bodies that fill the node table. One pass over each table: operands are found by sizes.
#![tactic(auto)]

ghost use Rattle.std.specs.Prelude.{◌≡◌, ◌^◌, ◌≤◌, ◌<◌};
ghost use Rattle.order.specs.Rules.{first_place};
ghost use Rattle.image.specs.Nodes.{operands, spans, size_is, node_holds, body_start, body_holds, filled_holds};
ghost use Rattle.image.specs.Nodes.{reach as Nodes·reach};
ghost use Rattle.image.specs.Layout.{Lay, node_rule, body_rule};
ghost use Rattle.nodes.specs.Laws.{Inside};

use image::{Kind, Layout, Sections};

// Where the k trees that end just before node e begin, if they stand in the table.
#[tactic(auto, using(crate::specs::Laws::reach_none, crate::specs::Laws::reach_out, crate::specs::Laws::reach_past, crate::specs::Laws::reach_on))]
fn reach(sections: &Sections, k: usize, e: usize) -> Option<usize>
    requires { e ≤ sections.now.layout.node_count }
    ensures { result ≡ Nodes·reach sections.now.words.now k e }
{
    let mut at = e;
    for _ in 0..k {
        if at == 0 {
            return None;
        }
        at = at.checked_sub(sections.node_word(at - 1, 1) as usize)?;
    }
    Some(at)
}

// A tree from node b to node n.
#[tactic(auto, unfolding(image::specs::Nodes::spans))]
fn tree_spans(b: usize, n: usize, size: u32) -> bool
    requires { (b ≤ 2 ^ 32) × (n < 2 ^ 62) }
    ensures { result ≡ spans b n size }
{
    b + size as usize == n + 1
}

// Whether a size is that of node n with operands where they were found.
#[tactic(auto, unfolding(image::specs::Nodes::size_is))]
fn size_is(n: usize, size: u32, from: Option<usize>) -> bool
    requires { (n < 2 ^ 32) × Inside n from }
    ensures { result ≡ size_is n size from }
{
    from.is_some_and(|b| tree_spans(b, n, size))
}

// 8 at node n.
#[tactic(auto, using(crate::specs::Laws::reach_inside), unfolding(image::specs::Nodes::node_holds))]
fn node_holds(sections: &Sections, n: usize) -> bool
    requires { n < sections.now.layout.node_count }
    ensures { result ≡ node_holds sections.now.words.now n }
{
    let kind = Kind::from(sections.node_word(n, 0));
    let x = sections.node_word(n, 2);
    let y = sections.node_word(n, 3);
    if !kinds::names_hold(sections.layout.class_count as u32, kind, x, y) {
        return false;
    }
    let from = reach(sections, kinds::operand_count(kind, y), n);
    size_is(n, sections.node_word(n, 1), from)
}

// 8: the first node record that is broken.
#[tactic(auto, unfolding(order::specs::Rules::first_place, image::specs::Layout::node_rule))]
pub fn node_place(sections: &Sections) -> Option<usize>
    ensures { result ≡ first_place (node_rule sections.now.words.now) }
{
    order::first_broken(sections.layout.node_count, |n| node_holds(sections, n))
}

// Where body i begins.
#[tactic(auto, using(crate::specs::Laws::start_after), unfolding(image::specs::Nodes::body_start))]
pub fn body_start(ws: &[u32], l: Layout, i: usize) -> usize
    requires { Lay ws.now l × (i ≤ l.method_count) }
    ensures { (result ≡ body_start ws.now i) × (result ≤ 2 ^ 32) }
{
    if i == 0 {
        return 0;
    }
    image::method_word(ws, l, i - 1, 5) as usize + 1
}

// A body from node b to node n.
#[tactic(auto, unfolding(image::specs::Nodes::body_holds))]
fn body_holds(sections: &Sections, b: usize, n: usize) -> bool
    requires { b ≤ 2 ^ 32 }
    ensures { result ≡ body_holds sections.now.words.now b n }
{
    n < sections.layout.node_count && tree_spans(b, n, sections.node_word(n, 1))
}

// 9 at method i, or at main.
#[tactic(auto, using(crate::specs::Laws::body_inside), unfolding(image::specs::Nodes::filled_holds))]
fn filled_holds(sections: &Sections, i: usize) -> bool
    requires { i ≤ sections.now.layout.method_count }
    ensures { result ≡ filled_holds sections.now.words.now i }
{
    let b = body_start(sections.words, sections.layout, i);
    if i < sections.layout.method_count {
        return body_holds(sections, b, sections.method_word(i, 5) as usize);
    }
    body_holds(sections, b, sections.layout.main)
        && sections.layout.main + 1 == sections.layout.node_count
}

// 9: the first method whose body is out of place; the method count for main.
#[tactic(auto, unfolding(order::specs::Rules::first_place, image::specs::Layout::body_rule))]
pub fn body_place(sections: &Sections) -> Option<usize>
    ensures { result ≡ first_place (body_rule sections.now.words.now) }
{
    order::first_broken(
        sections.layout.method_count + 1,
        |i| filled_holds(sections, i),
    )
}
