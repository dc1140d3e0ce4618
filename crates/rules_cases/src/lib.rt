// Document 01's own cases, computed from the definitions: specs/Table.antt; and a line of the most bytes: specs/Longest.antt.
#![tactic(auto)]
