// Modes and submodes brought to ADIF's own, and the classes of modes.
#![tactic(auto)]

use tables::{ModeClass, Place};

pub mod classes;
pub mod modes;

#[derive(Clone, Copy)]
pub struct ModePair {
    pub mode: Place,
    pub submode: Place,
}
