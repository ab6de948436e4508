// A set of the 64 variables, by value. A set of the library's would take memory from a heap.
#![tactic(auto)]

ghost use Rattle.std.specs.Prelude.{◌≡◌, true, false, ◌<◌};
ghost use Rattle.image.specs.Numbers.{variables};
ghost use Rattle.rules.specs.Maps.{upd};
ghost use Rattle.rules.specs.Setting.{every_var};
ghost use Rattle.rules.specs.Setting.{between as Setting·between, meet as Setting·meet};
ghost use Rattle.vars.specs.Vars.{vars_of, no_var};

// The variables that are surely set: variable x where binary digit x is 1. A set goes in by value, and each method hands back the new one.
#[derive(Clone, Copy)]
pub struct Vars {
    pub on: u64,
}

impl Vars {
    // It has the name of its definition, `no_var`, so it is no Default.
    #[tactic(auto, using(crate::specs::Vars::marks_none))]
    pub fn none() -> Self
        ensures { vars_of result ≡ no_var }
    {
        Vars { on: 0 }
    }

    #[tactic(auto, using(crate::specs::Vars::marks_all))]
    pub fn all() -> Self
        ensures { vars_of result ≡ every_var }
    {
        Vars { on: u64::MAX }
    }

    pub fn between(from: usize, to: usize) -> Self
        requires { to < variables }
        ensures { vars_of result ≡ Setting·between from to }
    {
        let mut set = Vars::none();
        for i in from..=to {
            set = set.with(i);
        }
        set
    }

    #[tactic(auto, unfolding(crate::specs::Vars::marks))]
    pub fn has(self, x: usize) -> bool
        requires { x < variables }
        ensures { result ≡ vars_of self x }
    {
        (self.on >> x) % 2 == 1
    }

    #[tactic(auto, using(crate::specs::Vars::marks_with))]
    pub fn with(self, x: usize) -> Self
        requires { x < variables }
        ensures { vars_of result ≡ upd (vars_of self) x true }
    {
        Vars {
            on: self.on | (1 << x),
        }
    }

    #[tactic(auto, using(crate::specs::Vars::marks_cleared))]
    pub fn without(self, x: usize) -> Self
        requires { x < variables }
        ensures { vars_of result ≡ upd (vars_of self) x false }
    {
        Vars {
            on: self.on & !(1 << x),
        }
    }

    // Gives a variable back the standing that it had.
    pub fn put(self, x: usize, b: bool) -> Self
        requires { x < variables }
        ensures { vars_of result ≡ upd (vars_of self) x b }
    {
        if b { self.with(x) } else { self.without(x) }
    }

    #[tactic(auto, using(crate::specs::Vars::marks_meet))]
    pub fn meet(self, other: Vars) -> Self
        ensures { vars_of result ≡ Setting·meet (vars_of self) (vars_of other) }
    {
        Vars {
            on: self.on & other.on,
        }
    }
}
