//! Tests of folds over the lines of a text: operations on each line, and counts of lines with a word.
#![tactic(auto)]

mod lines;
