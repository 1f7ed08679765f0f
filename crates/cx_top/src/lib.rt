//! The one public call of Crosscut.
#![tactic(auto)]

mod call;
mod record;
mod relog;
mod replay;
mod roots;
mod seed_told;
mod slice;
mod trace_window;
mod window;

pub use call::run;
pub use cx_commands::Status;
