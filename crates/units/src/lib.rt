// What a clause asks for in step A, and the trail.
#![tactic(auto)]

pub mod trail; // trail.rt: setting and undoing

// What a clause asks for, and step A by the first clause that asks for something: a conflict, a literal to be set, or nothing. These are three
// cases, so it is no Option.
#[derive(Clone, Copy, Drop)]
pub enum UnitAct {
    Conflict,
    Force(u16),
    Nothing,
}
