// The words of an image with its layout. What is known of both stands in the types: a slice and a layout that do not fit make neither.
ghost use Rattle.std.specs.Prelude.{◌≡◌, ◌<◌};
ghost use Rattle.image.specs.Records.{superclass, field_word, method_word, type_at};
ghost use Rattle.image.specs.Nodes.{node_word};
ghost use Rattle.image.specs.Layout.{Lay, Small, Good};

use crate::Layout;

// Words that are cut into sections, none of which is over its ceiling: no rule from 1 to 3 is broken.
#[derive(Clone, Copy)]
pub struct Sections<'a> {
    pub words: &'a [u32],
    pub layout: Layout,
    ghost lay: { Lay words.now layout },
    ghost small: { Small layout },
}

// Each table has a definition of its own in specs/, with its own bound, and so a method of its own.
impl Sections<'_> {
    // Class c's superclass number.
    pub fn class_word(&self, c: usize) -> u32
        requires { c < self.now.layout.class_count }
        ensures { result ≡ superclass self.now.words.now c }
    {
        crate::class_word(self.words, self.layout, c)
    }

    // Word k of field i.
    pub fn field_word(&self, i: usize, k: usize) -> u32
        requires { (i < self.now.layout.field_count) × (k < 3) }
        ensures { result ≡ field_word self.now.words.now i k }
    {
        crate::field_word(self.words, self.layout, i, k)
    }

    // Word k of method i.
    pub fn method_word(&self, i: usize, k: usize) -> u32
        requires { (i < self.now.layout.method_count) × (k < 6) }
        ensures { result ≡ method_word self.now.words.now i k }
    {
        crate::method_word(self.words, self.layout, i, k)
    }

    // Type word i.
    pub fn type_word(&self, i: usize) -> u32
        requires { i < self.now.layout.type_count }
        ensures { result ≡ type_at self.now.words.now i }
    {
        crate::type_word(self.words, self.layout, i)
    }

    // Word k of node n.
    pub fn node_word(&self, n: usize, k: usize) -> u32
        requires { (n < self.now.layout.node_count) × (k < 4) }
        ensures { result ≡ node_word self.now.words.now n k }
    {
        crate::node_word(self.words, self.layout, n, k)
    }
}

// Words whose layout is in order: no rule from 1 to 9 is broken, and no layer above tests any of them again.
// An index is below its table's count by a clause: a type of indices would have to name the image that they are of.
#[derive(Clone, Copy)]
pub struct Image<'a> {
    pub words: &'a [u32],
    pub layout: Layout,
    ghost good: { Good words.now layout },
}

// The same questions of an image, so that no caller has to ask for its sections first.
impl Image<'_> {
    // Class c's superclass number.
    pub fn class_word(&self, c: usize) -> u32
        requires { c < self.now.layout.class_count }
        ensures { result ≡ superclass self.now.words.now c }
    {
        crate::class_word(self.words, self.layout, c)
    }

    // Word k of field i.
    pub fn field_word(&self, i: usize, k: usize) -> u32
        requires { (i < self.now.layout.field_count) × (k < 3) }
        ensures { result ≡ field_word self.now.words.now i k }
    {
        crate::field_word(self.words, self.layout, i, k)
    }

    // Word k of method i.
    pub fn method_word(&self, i: usize, k: usize) -> u32
        requires { (i < self.now.layout.method_count) × (k < 6) }
        ensures { result ≡ method_word self.now.words.now i k }
    {
        crate::method_word(self.words, self.layout, i, k)
    }

    // Type word i.
    pub fn type_word(&self, i: usize) -> u32
        requires { i < self.now.layout.type_count }
        ensures { result ≡ type_at self.now.words.now i }
    {
        crate::type_word(self.words, self.layout, i)
    }

    // Word k of node n.
    pub fn node_word(&self, n: usize, k: usize) -> u32
        requires { (n < self.now.layout.node_count) × (k < 4) }
        ensures { result ≡ node_word self.now.words.now n k }
    {
        crate::node_word(self.words, self.layout, n, k)
    }
}
