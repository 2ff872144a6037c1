#![tactic(auto)]

// The cases that document 01, "At the boundaries", marks with a star: see specs/Starred.antt. There is no code here.
