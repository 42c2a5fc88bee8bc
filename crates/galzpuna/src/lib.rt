// The controller's services, as a C host links them: slices in, a number and a place out, the answer buffer written in place.
//
//     services   judging, resolving, drawing and rounds
#![tactic(auto)]

pub mod services;

pub use services::{galzpuna_draw, galzpuna_judge, galzpuna_resolve, galzpuna_rounds};

// What a service returns: the number, and the place of a refusal or the bytes written.
#[repr(C)]
#[derive(Clone, Copy, Debug, PartialEq, Eq)]
pub struct Answer {
    pub number: u32,
    pub place: u32,
}
