// What the definitions amount to.
ghost use Rattle.std.specs.Prelude.{◌≡◌, ◌≢◌, ◌↔◌, ◌++◌, ℕ, ◌≤◌, List, All, AllPairs, ◌-◌, IsTrue, Contains, length, sum_by};
ghost use Rattle.std.specs.List.{flat_map};
ghost use Rattle.std.specs.List.Sorted.{IsPermutation};
ghost use Rattle.text_ops.specs.LineOrder.{IsUpTo, in_order};
ghost use Rattle.text_ops.specs.LineParts.{line_parts};
ghost use Rattle.text_ops.specs.Lines.{IsPlain, OccursIn, lines_of, normal, occurs, text_of};
ghost use Rattle.text_ops.specs.Repeats.{NeighboursDiffer, count_of, without_repeats};
ghost use Rattle.text_ops.specs.TextMeaning.{head_meaning, keep_meaning, skip_meaning, tail_meaning, without_meaning};

/// Laws of all texts. This does nothing: its contract is the laws.
pub fn lines_and_words()
    // The lines of a text, each with its end, are the text made normal.
    ensures whole { (text : List ℕ) → text_of (lines_of text) ≡ normal text }
    // No line has a line end in it, and lines without one are the lines of their text.
    ensures plain { (text : List ℕ) → All IsPlain (lines_of text) }
    ensures only { (lines : List (List ℕ)) → All IsPlain lines → lines_of (text_of lines) ≡ lines }

    // The test by which lines are kept says that the word is somewhere in the line.
    ensures found { (word line : List ℕ) → IsTrue (occurs word line) ↔ OccursIn word line }
{}

/// Laws of the operations that cut a text between lines or share its lines out.
pub fn shares_of_lines()
    // The first n lines and the others are the text.
    ensures cut { (n : ℕ) (text : List ℕ)
        → head_meaning n text ++ skip_meaning n text ≡ normal text }
    // What precedes the last n lines and these are the text.
    ensures last { (n : ℕ) (text : List ℕ)
        → head_meaning (length (lines_of text) - n) text ++ tail_meaning n text ≡ normal text }
    // Each line is among those in which the word occurs or among the others, as often as it occurs in the text.
    ensures shared { (word text : List ℕ)
        → IsPermutation (lines_of text)
        (lines_of (keep_meaning word text) ++ lines_of (without_meaning word text)) }
    // The parts of a text, one behind the other, are the text.
    ensures parts { (n : ℕ) (text : List ℕ) → 1 ≤ n
        → flat_map (λ part. part) (line_parts n text) ≡ normal text }
{}

/// Laws of lines in order and of those that repeat.
pub fn order_of_lines()
    // Lines in order are the same lines, each no greater than those behind it.
    ensures same { (lines : List (List ℕ)) → IsPermutation lines (in_order lines) }
    ensures rising { (lines : List (List ℕ)) → AllPairs IsUpTo (in_order lines) }
    // No two lines that are equal and may come in either order differ: there is one such order.
    ensures one { (a b : List ℕ) → IsUpTo a b → IsUpTo b a → a ≡ b }

    // No two neighbours are equal, and of lines in order each is left once, in order.
    ensures differ { (lines : List (List ℕ)) → NeighboursDiffer (without_repeats lines) }
    ensures ordered { (lines : List (List ℕ)) → AllPairs IsUpTo (without_repeats (in_order lines)) }
    ensures once { (lines : List (List ℕ))
        → AllPairs (λ a b. a ≢ b) (without_repeats (in_order lines)) }
    ensures each { (line : List ℕ) (lines : List (List ℕ))
        → Contains lines line ↔ Contains (without_repeats (in_order lines)) line }

    // The counts of the different lines add up to the number of lines.
    ensures counts { (lines : List (List ℕ))
        → sum_by (λ line. count_of line lines) (without_repeats (in_order lines)) ≡ length lines }
{}
