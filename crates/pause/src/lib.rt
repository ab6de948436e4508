// What a paused run is: the layout of its room and of its record.
#![tactic(auto)]

// The steps that were taken so far, the active node, and how many constructors there are from the root to it, itself counted. All 0
// where no run is paused. C lends it, so it is numbers, and no Option.
#[repr(C)]
#[derive(Clone, Copy)]
pub struct Record {
    pub steps: u64,
    pub node: u64,
    pub levels: u64,
}
