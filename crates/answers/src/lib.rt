// The answers of the public calls as the signed numbers that a host in C gets.
#![tactic(auto)]

mod numbered;
mod numbers;

pub use numbered::Numbered;
pub use numbers::{
    count_number, extent_number, fleet_number, length_number, member_number, range_number,
    said_number,
};
