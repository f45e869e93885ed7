#![tactic(auto)]

// What each of the five calls answers, as definitions alone: the calls' contracts and the histories cite them.
