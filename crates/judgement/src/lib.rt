// What judging is: in `answer.rt` what a judge answers with, in `specs/` the marks, the refusals and what a judge promises.
#![tactic(auto)]

pub mod answer; // answer.rt: the verdicts, and a verdict with its count
