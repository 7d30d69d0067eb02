// What a planner is told of one line: whether its timetable may go into a chip, and why not.
#![tactic(auto)]

pub mod judgement;
