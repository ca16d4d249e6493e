// GUIDs and security identifiers as text.
#![tactic(auto)]

mod guid;
mod sid;

pub use guid::put_guid;
pub use sid::{WrongSid, put_sid};
