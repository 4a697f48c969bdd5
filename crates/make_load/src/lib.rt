//! The made workload, as a script of statements, its run in memory, and the summary of the replies.
#![tactic(auto)]

mod counts;
mod draft;
mod laws;
mod line;
mod lines;
mod made;
mod printing;
mod ran;
mod reading;
mod script;
mod totals;

pub use laws::made_scripts_are_within_the_limit;
pub use made::{MadeDone, MadeEnd, run_made, run_made_on_one_thread};
pub use printing::print_summary;
pub use reading::summary;
pub use script::make_script;
pub use totals::Summary;
