// Theorems of the planner's calls: demand 3 (specs/Demand3), the lookup on a plan's tables (specs/Lookup), and tables that are long enough (specs/Lengths). There
// is no code here.
#![tactic(auto)]
