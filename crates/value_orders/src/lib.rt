//! In which orders the requests of a whole run may have taken effect, over resets and beats of which not all is known, and what each does to
//! one byte: definitions, and what follows of them.
#![tactic(auto)]
