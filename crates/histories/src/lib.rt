// Histories of an account of four offices: what the points open come to, which accounts histories give, and that an office within its own points is told the same
// whatever the others do. Definitions and theorems, no code.
#![tactic(auto)]
