// Value words and type words: what each stands for, and the word of each value and type.
#![tactic(auto)]

ghost use Rattle.std.specs.Prelude.{◌≡◌, ◌≤◌};
ghost use Rattle.words.specs.Value.{value_of, word_of, is_value};
ghost use Rattle.words.specs.Integer.{plus_of};
ghost use Rattle.words.specs.Types.{type_of, type_word, Named, is_declared, is_type};

// A tag stands above the 32 bits of the payload.
pub const TAG: u64 = 4294967296;

// The heap has this many addresses, so a payload of tag 4 is below it.
const ADDRESSES: u32 = 4096;

// The word of class 0: the words of the four types that are no class stand before it. Class c's word is FIRST_CLASS + c.
pub const FIRST_CLASS: u32 = 4;

// A value. An Intg holds its 32 bits, and an Addr its number.
#[derive(Clone, Copy)]
pub enum Value {
    Unit,
    Null,
    Bool(bool),
    Intg(u32),
    Addr(u32),
}

// The value that a word stands for. Not every word stands for one.
// README names this function, `word_of`, `type_of` and `type_word` as answers to questions, so they stay functions. A `TryFrom` would need
// an error that says no more than None, and no `From` can ask that a class number leaves room.
#[tactic(auto, using(crate::proofs::ValueLaws::no_tag), unfolding(crate::specs::Value::value_of, crate::specs::Value::value_with, crate::specs::Value::tag_of, crate::specs::Value::payload_of))]
pub fn value_of(w: u64) -> Option<Value>
    ensures { result ≡ value_of w }
{
    let tag = w / TAG;
    let payload = (w % TAG) as u32;
    match tag {
        0 => if payload == 0 {
            Some(Value::Unit)
        } else {
            None
        },
        1 => if payload == 0 {
            Some(Value::Null)
        } else {
            None
        },
        2 => if payload < 2 {
            Some(Value::Bool(payload == 1))
        } else {
            None
        },
        3 => Some(Value::Intg(payload)),
        4 => if payload < ADDRESSES {
            Some(Value::Addr(payload))
        } else {
            None
        },
        _ => None,
    }
}

// The word that stands for a value.
#[tactic(auto, unfolding(crate::specs::Value::word_of))]
pub fn word_of(v: Value) -> u64
    ensures { result ≡ word_of v }
{
    match v {
        Value::Unit => 0,
        Value::Null => TAG,
        Value::Bool(b) => if b { 2 * TAG + 1 } else { 2 * TAG },
        Value::Intg(i) => 3 * TAG + i as u64,
        Value::Addr(a) => 4 * TAG + a as u64,
    }
}

// Whether a tag and a payload that are stored apart make a value together. `value_of` would join them into a word only to take it apart.
#[tactic(auto, using(crate::proofs::ValueLaws::no_tag, crate::proofs::ValueLaws::is_given), unfolding(crate::specs::Value::is_value, crate::specs::Value::value_with))]
pub fn is_value(tag: u32, payload: u32) -> bool
    ensures { result ≡ is_value tag payload }
{
    match tag {
        0 => payload == 0,
        1 => payload == 0,
        2 => payload < 2,
        3 => true,
        4 => payload < ADDRESSES,
        _ => false,
    }
}

// The bits of a sum of two integers. A sum out of range wraps.
#[tactic(auto, unfolding(crate::specs::Integer::plus_of))]
pub fn plus(a: u32, b: u32) -> u32
    ensures { result ≡ plus_of a b }
{
    a.wrapping_add(b)
}

// A type. NT is the type of null, and a Class holds the number of its class.
#[derive(Clone, Copy, PartialEq, Eq)]
pub enum Ty {
    Void,
    Boolean,
    Integer,
    NT,
    Class(u32),
}

// The type that a word names. Every word names one.
#[tactic(auto, using(crate::specs::TypeLaws::type_class), unfolding(crate::specs::Types::type_of))]
pub fn type_of(w: u32) -> Ty
    ensures { result ≡ type_of w }
{
    match w {
        0 => Ty::Void,
        1 => Ty::Boolean,
        2 => Ty::Integer,
        3 => Ty::NT,
        _ => Ty::Class(w - FIRST_CLASS),
    }
}

// The word that names a type. A class number must leave room for the four words before it.
#[tactic(auto, unfolding(crate::specs::Types::type_word))]
pub fn type_word(t: Ty) -> u32
    requires { Named t }
    ensures { result ≡ type_word t }
{
    match t {
        Ty::Void => 0,
        Ty::Boolean => 1,
        Ty::Integer => 2,
        Ty::NT => 3,
        Ty::Class(c) => FIRST_CLASS + c,
    }
}

// Whether a program with that many classes may declare something to be of the type that w names. An order of the words is what this rule
// and the next one say, so both go by words.
pub fn is_declared(w: u32, classes: u32) -> bool
    requires { classes ≤ 65536 }
    ensures { result ≡ is_declared w classes }
{
    match w {
        3 => false,
        _ => w < FIRST_CLASS + classes,
    }
}

// Whether w names a type of a program with that many classes.
#[tactic(auto, using(crate::specs::TypeLaws::is_type_lem))]
pub fn is_type(w: u32, classes: u32) -> bool
    requires { classes ≤ 65536 }
    ensures { result ≡ is_type w classes }
{
    w < FIRST_CLASS + classes
}
