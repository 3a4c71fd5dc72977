// A row's records: from the fields of its frame, and from the frame that is kept at a place.
#![tactic(auto)]

pub mod kept; // a kept row's records
pub mod readers; // a row's records from fields
