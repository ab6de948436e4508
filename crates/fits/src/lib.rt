// Whether the values of a heap and of inputs fit their types: numbers 17 and 18.
#![tactic(auto)]

ghost use Rattle.std.specs.Prelude.{◌≡◌, true, cond, suc, ◌<◌, eqb, ltb, length};
ghost use Rattle.order.specs.Rules.{first_place};
ghost use Rattle.words.specs.declared.Value.TheVariants.{Addr};
ghost use Rattle.words.specs.Value.{value_of, addresses};
ghost use Rattle.image.specs.Trailer.{class_count, input_count};
ghost use Rattle.rules.specs.Trees.{written};
ghost use Rattle.rules.specs.Program.{program};
ghost use Rattle.rules.specs.Heap.{heap_of};
ghost use Rattle.rules.specs.Conform.{conforms};
ghost use Rattle.rules.specs.Numbers.{fewest_slots, heap_rule, input_type_rule};
ghost use Rattle.laws.specs.Heap.{Words};

use heap::{FEWEST_SLOTS, SLOT_WORDS};
use rows::{ROW_WORDS, Table};
use words::{Ty, Value};

// A slot of the system's holds its class and no other: slot a holds class a + 1, so its word is a + 2.
fn system_slot_holds(a: usize, first: u64) -> bool
    ensures { result ≡ cond (ltb a fewest_slots) (eqb first (suc (suc a))) true }
{
    if a < FEWEST_SLOTS {
        first == a as u64 + 2
    } else {
        true
    }
}

// A heap whose words 14 and 15 accept, with the table of its image.
#[derive(Clone, Copy)]
pub struct Heap<'a> {
    pub table: Table<'a>,
    pub words: &'a [u64],
    ghost sound: { Words (program table.image.words.now) (class_count table.image.words.now) words.now },
}

impl Heap<'_> {
    // An address conforms to a class when its slot holds an object of it or of a class below it.
    fn address_conforms(&self, a: u32, t: Ty) -> bool
        requires { a < addresses }
        ensures { result ≡ conforms (program self.now.table.image.words.now) (heap_of (program self.now.table.image.words.now) self.now.words.now) (Addr a) t }
    {
        let Some(c) = heap::class_at(self.words, a as usize) else {
            return false;
        };
        classes::is_subtype(&self.table.image, Ty::Class(c as u32), t)
    }

    // Whether the value of a word conforms to a type.
    #[tactic(auto, using(crate::specs::FitLaws::address_small, crate::specs::FitLaws::written_or), unfolding(rules::specs::Conform::conforms))]
    fn value_conforms(&self, w: u64, t: Ty) -> bool
        ensures { result ≡ conforms (program self.now.table.image.words.now) (heap_of (program self.now.table.image.words.now) self.now.words.now) (written (value_of w)) t }
    {
        match words::value_of(w).unwrap_or(Value::Unit) {
            Value::Unit => classes::same_type(t, Ty::Void),
            Value::Null => classes::is_subtype(&self.table.image, Ty::NT, t),
            Value::Bool(_) => classes::same_type(t, Ty::Boolean),
            Value::Intg(_) => classes::same_type(t, Ty::Integer),
            Value::Addr(a) => self.address_conforms(a, t),
        }
    }

    // 17: word i. The system's slots hold their classes, and each field of an object conforms to its type.
    #[tactic(auto, using(crate::specs::FitLaws::value_first, crate::specs::FitLaws::value_free), unfolding(rules::specs::Numbers::heap_rule))]
    fn word_holds(&self, i: usize) -> bool
        requires { i < length self.now.words.now }
        ensures { result ≡ (heap_rule self.now.table.image.words.now self.now.words.now).holds i }
    {
        let a = i / SLOT_WORDS;
        let k = i % SLOT_WORDS;
        let first = self.words[SLOT_WORDS * a];
        if k == 0 {
            return system_slot_holds(a, first);
        }
        if first == 0 {
            return true;
        }
        let c = (first - 1) as usize;
        if k - 1 < self.table.counts[c] {
            let t = words::type_of(self.table.types[ROW_WORDS * c + (k - 1)]);
            self.value_conforms(self.words[i], t)
        } else {
            true
        }
    }

    // 17: the first heap word that does not conform.
    #[tactic(auto, unfolding(order::specs::Rules::first_place, rules::specs::Numbers::heap_rule))]
    pub fn word_place(&self) -> Option<usize>
        ensures { result ≡ first_place (heap_rule self.now.table.image.words.now self.now.words.now) }
    {
        order::first_broken(self.words.len(), |i| self.word_holds(i))
    }

    // 18: input i. Main's inputs take the last type words.
    #[tactic(auto, using(crate::specs::FitLaws::input_type), unfolding(rules::specs::Numbers::input_type_rule))]
    fn input_holds(&self, inputs: &[u64], i: usize) -> bool
        requires { (length inputs.now ≡ input_count self.now.table.image.words.now) × (i < length inputs.now) }
        ensures { result ≡ (input_type_rule self.now.table.image.words.now self.now.words.now inputs.now).holds i }
    {
        let image = &self.table.image;
        let t = words::type_of(image.type_word(image.layout.type_count - image.layout.inputs + i));
        self.value_conforms(inputs[i], t)
    }

    // 18: the first input that does not conform.
    #[tactic(auto, unfolding(order::specs::Rules::first_place, rules::specs::Numbers::input_type_rule))]
    pub fn input_place(&self, inputs: &[u64]) -> Option<usize>
        requires { length inputs.now ≡ input_count self.now.table.image.words.now }
        ensures { result ≡ first_place (input_type_rule self.now.table.image.words.now self.now.words.now inputs.now) }
    {
        order::first_broken(inputs.len(), |i| self.input_holds(inputs, i))
    }
}
