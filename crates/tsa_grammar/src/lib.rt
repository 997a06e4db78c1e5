//! Grammars as data: how a part of a text may go on, what it spells, what begins it, and its reader.
#![tactic(auto)]
