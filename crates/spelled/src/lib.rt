#![tactic(auto)]
// No code: that a line is read where it is an event's spelling and nowhere else stands in specs/Spelled.antt.
