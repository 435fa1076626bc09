//! Texts of lines, and what operations make of them.
//!
//! A `Text` is normal: empty, or ended by a line feed. Its bytes are shared, and a text may be a part of the bytes of
//! another one, so that handing a text on and cutting it copy nothing. Each operation makes what the function of its
//! name in `specs/TextMeaning.antt` says, or says how many bytes that would be, where they are more than a value may
//! have, without building it. The layer above knows a text by its bytes alone.
//!
//! `specs/Lines.antt` has lines and words, `specs/LineOrder.antt` the order of lines, `specs/Repeats.antt` neighbours
//! that are equal, `specs/MatchKeys.antt` how lines of two texts match, `specs/Values.antt` what an operation answers.
#![tactic(auto)]

mod counted_line;
mod counted_lines;
mod counts;
mod cuts;
mod found_line;
mod gathered;
mod joined;
mod kept_lines;
mod key_slots;
mod laws;
mod line_ends;
mod line_runs;
mod line_walk;
mod matches;
mod normal_text;
mod numbers;
mod order;
mod part;
mod repeats;
mod short_keys;
mod slots;
mod sort_key;
mod sort_keys;
mod tallies;
mod text;
mod text_parts;
mod word_search;

pub use counts::{count, count_line, line_count, slice_line_count};
pub use cuts::{end_of_first, head, skip, tail};
pub use gathered::{ApplyError, VALUE_LIMIT};
pub use joined::Joined;
pub use kept_lines::{has_word, keep, without};
pub use laws::{lines_and_words, order_of_lines, shares_of_lines};
pub use matches::match_lines;
pub use normal_text::{into_normal, is_normal};
pub use numbers::numbered;
pub use order::sort;
pub use part::pass;
pub use repeats::uniq;
pub use tallies::tally;
pub use text::Text;
pub use text_parts::{line_parts, part_count};
pub use word_search::WordSearch;
