//! What a whole request means on a memory, and a list of them that are carried out one at a time: definitions, and what follows of
//! them. They know no bridge, and of a memory its page kinds alone.
#![tactic(auto)]
