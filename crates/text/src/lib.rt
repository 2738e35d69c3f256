// Text of requests and answers: words and what they hold, and numbers and octets as digits.
#![tactic(auto)]

pub mod faults;
pub mod forms;
pub mod numbers;
pub mod octets;
pub mod options;
pub mod shown;
pub mod values;
pub mod words;
