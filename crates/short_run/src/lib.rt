#![tactic(auto)]

// One short run of the keeper that ships, computed with SHA-256 and HMAC: there is no code here.
