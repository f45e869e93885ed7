#![tactic(auto)]

// The published actions of Memoir-Basic, and that perform and repeat are these: definitions and theorems alone.
