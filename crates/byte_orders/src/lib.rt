//! What requests may do to one byte of a memory, in which orders, and which values it may have by that: definitions, and what follows of
//! them. They know no bus, no board and no table.
#![tactic(auto)]
