//! What the program prints of a script: the messages of a run, the report of what its runs break, a
//! case of each finding, its certificate, and whether a certificate is right.
#![tactic(auto)]

mod certifying;
mod explaining;
mod inputs;
mod running;
mod telling;
mod verifying;
mod writing;

pub use inputs::{Inputs, read_inputs};
pub use running::run_case;
pub use telling::{ReportObserver, Wanted, tell, tell_read, tell_script};
pub use verifying::{VerifyObserver, verify_certificate, verify_read, verify_script};
pub use writing::report_status;
