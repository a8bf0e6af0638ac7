// Bytes put into a buffer, piece by piece: the definition and its laws, no code.
#![tactic(auto)]
