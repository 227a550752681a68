//! From the paths of actions to the outcomes of steps, to executions, and to the questions of a level: what runs along paths
//! say of a job.
#![tactic(auto)]
