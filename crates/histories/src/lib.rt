#![tactic(auto)]

// Every history of calls and power cuts, as definitions and theorems alone: there is no code here.
