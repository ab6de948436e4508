// Numbers 1 to 3: the trailer, the sections it points to, and their ceilings. What passes is opened as a `Layout`.
#![tactic(auto)]

ghost use Rattle.std.specs.Prelude.{◌≡◌, ℕ, ◌≤◌, ◌<◌, length};
ghost use Rattle.order.specs.Rules.{first_place};
ghost use Rattle.image.specs.Numbers.{trailer_words};
ghost use Rattle.image.specs.Trailer.{format_holds, section_holds, last_holds, ceiling_tests};
ghost use Rattle.image.specs.Layout.{trailer_rule, tested, Lay};
ghost use Rattle.trailer.specs.Shape.{Shape};

use image::Layout;

// 1: a trailer, and the format.
#[tactic(auto, unfolding(image::specs::Trailer::format_holds))]
pub fn format_holds(ws: &[u32]) -> bool
    ensures { result ≡ format_holds ws.now }
{
    ws.len() >= image::TRAILER_WORDS && image::trailer_word(ws, 7) == image::FORMAT_NUMBER
}

// A section of records of `size` words, from one distance to the next.
#[tactic(auto, unfolding(image::specs::Trailer::section_holds))]
fn section_holds(from: usize, to: usize, size: usize) -> bool
    requires { 0 < size }
    ensures { result ≡ section_holds from to size }
{
    to <= from && image::TRAILER_WORDS <= to && (from - to) % size == 0
}

// The last distance, which ends two sections.
#[tactic(auto, unfolding(image::specs::Trailer::last_holds))]
fn last_holds(types: usize, nodes: usize) -> bool
    ensures { result ≡ last_holds types nodes }
{
    section_holds(types, nodes, 1) && (nodes - image::TRAILER_WORDS) % 4 == 0
}

// 2: the first trailer word that is broken.
#[tactic(auto, unfolding(order::specs::Rules::first_place, image::specs::Layout::tested, image::specs::Layout::trailer_rule, image::specs::Trailer::trailer_tests, image::specs::Trailer::input_count, image::specs::Trailer::type_count))]
pub fn trailer_place(ws: &[u32]) -> Option<usize>
    requires { trailer_words ≤ length ws.now }
    ensures { result ≡ first_place (trailer_rule ws.now) }
{
    let classes = image::trailer_word(ws, 0);
    let fields = image::trailer_word(ws, 1);
    let methods = image::trailer_word(ws, 2);
    let types = image::trailer_word(ws, 3);
    let nodes = image::trailer_word(ws, 4);
    // A match, and no array of all: a broken word is told before the words behind it are tested.
    order::first_broken(7, |i| match i {
        0 => classes == ws.len(),
        1 => section_holds(classes, fields, 1),
        2 => section_holds(fields, methods, 3),
        3 => section_holds(methods, types, 6),
        4 => last_holds(types, nodes),
        5 => true,
        _ => image::trailer_word(ws, 6) <= types.saturating_sub(nodes),
    })
}

// 3: the trailer word of the first section over its ceiling.
#[tactic(auto, unfolding(order::specs::Rules::first_place, image::specs::Layout::tested, image::specs::Trailer::ceiling_tests))]
pub fn ceiling_place(l: Layout) -> Option<usize>
    ensures { result
        ≡ first_place
        (tested 3
        (ceiling_tests l.class_count l.field_count l.method_count l.type_count l.node_count l.inputs)) }
{
    let tests = [
        l.class_count <= image::MOST_CLASSES,
        l.field_count <= image::MOST_FIELDS,
        l.method_count <= image::MOST_METHODS,
        l.type_count <= image::MOST_TYPE_WORDS,
        l.node_count <= image::MOST_NODES,
        true,
        l.inputs <= image::MOST_INPUTS,
    ];
    order::first_broken(7, |i| tests[i])
}

// The layout that a trailer without a breach of 1 and 2 describes.
pub fn layout_of(ws: &[u32]) -> Layout
    requires { Shape ws.now }
    ensures { Lay ws.now result }
{
    let classes = image::trailer_word(ws, 0);
    let fields = image::trailer_word(ws, 1);
    let methods = image::trailer_word(ws, 2);
    let types = image::trailer_word(ws, 3);
    let nodes = image::trailer_word(ws, 4);
    Layout {
        class_count: classes - fields,
        fields: classes - fields,
        field_count: (fields - methods) / 3,
        methods: classes - methods,
        method_count: (methods - types) / 6,
        types: classes - types,
        type_count: types - nodes,
        nodes: classes - nodes,
        node_count: (nodes - image::TRAILER_WORDS) / 4,
        main: image::trailer_word(ws, 5),
        inputs: image::trailer_word(ws, 6),
    }
}
