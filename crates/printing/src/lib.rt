// The listing program (document 01, "Yards to try"): from three files to the text, and the reading and writing round it.
//
//     files     the listing of three files
//     program   the files read, the listing written
#![tactic(auto)]

mod files;
mod program;

pub use files::listing;
pub use program::run;
