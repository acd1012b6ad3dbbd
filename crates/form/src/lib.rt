// What an array chunk is made of, and every refusal with its number.
#![tactic(auto)]

pub mod array_form;
pub mod data_type;
pub mod fault;
pub mod forms;
pub mod settings;
