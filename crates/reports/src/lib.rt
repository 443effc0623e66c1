// What the verifier answers, for people.
#![tactic(auto)]

pub mod answer;
