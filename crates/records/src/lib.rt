// What a record of a table must hold, from its words alone: numbers 4, 5 and 6.
#![tactic(auto)]

ghost use Rattle.std.specs.Prelude.{◌≡◌, ◌≤◌, ◌<◌};
ghost use Rattle.image.specs.Numbers.{most_classes};
ghost use Rattle.image.specs.Records.{super_holds, is_user_class, is_name, rises, member_holds, arguments_hold};

use image::{FIRST_USER_CLASS, HIGHEST_NAME, MOST_ARGUMENTS};

// A system class holds 0, a later one a class below itself.
#[tactic(auto, unfolding(image::specs::Records::super_holds))]
pub fn super_holds(c: usize, s: u32) -> bool
    ensures { result ≡ super_holds c s }
{
    if c < FIRST_USER_CLASS {
        s == 0
    } else {
        (s as usize) < c
    }
}

// A class that may have fields and methods: of the image, and none of the system's.
#[tactic(auto, unfolding(image::specs::Records::is_user_class))]
fn is_user_class(classes: usize, c: u32) -> bool
    ensures { result ≡ is_user_class classes c }
{
    let c = c as usize;
    FIRST_USER_CLASS <= c && c < classes
}

// Names have 16 bits.
#[tactic(auto, unfolding(image::specs::Records::is_name))]
fn is_name(n: u32) -> bool
    ensures { result ≡ is_name n }
{
    n <= HIGHEST_NAME
}

// (class, name) rises strictly, from (c, n) to (d, m).
#[tactic(auto, unfolding(image::specs::Records::rises))]
pub fn rises(c: u32, n: u32, d: u32, m: u32) -> bool
    ensures { result ≡ rises c n d m }
{
    c < d || (c == d && n < m)
}

// What field and method records share: class, name and type.
#[tactic(auto, unfolding(image::specs::Records::member_holds))]
pub fn member_holds(classes: usize, c: u32, n: u32, t: u32) -> bool
    requires { classes ≤ most_classes }
    ensures { result ≡ member_holds classes c n t }
{
    is_user_class(classes, c) && is_name(n) && words::is_declared(t, classes as u32)
}

// A method's arguments stand among the type words. The sum is taken in 64 bits, since two words may pass 32.
#[tactic(auto, unfolding(image::specs::Records::arguments_hold))]
pub fn arguments_hold(types: usize, first: u32, count: u32) -> bool
    ensures { result ≡ arguments_hold types first count }
{
    count <= MOST_ARGUMENTS && first as usize + count as usize <= types
}
