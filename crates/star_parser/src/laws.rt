//! What the definitions say together.
ghost use Rattle.std.specs.Prelude.{◌≡◌, ◌↔◌, ℕ, List};
ghost use Rattle.star_lexer.specs.Limits.{IsOverLimit};
ghost use Rattle.star_parser.specs.Statement.{Statement};
ghost use Rattle.star_parser.specs.Sentence.{IsSentence, IsStop};
ghost use Rattle.star_parser.specs.Parsed.{Over, Stopped, Means, parsed_of};
ghost use Rattle.star_parser.specs.Printed.{IsShaped};

use star_lexer::limits_are_tested;

/// What a line is as a function is what the limits and the grammar say of it: every line is over a
/// limit, or a statement of one meaning, or the front of none from one place on.
pub fn lines_are_what_the_grammar_says()
    ensures over { (line : List ℕ) → (parsed_of line ≡ Over) ↔ IsOverLimit line }
    ensures means { (line : List ℕ) (meaning : Statement)
        → (parsed_of line ≡ Means meaning) ↔ ((¬ (IsOverLimit line)) × IsSentence line meaning) }
    ensures stopped { (line : List ℕ) (place : ℕ)
        → parsed_of line ≡ Stopped place → (¬ (IsOverLimit line)) × IsStop line place }
{
    limits_are_tested();
}

/// What a line says has the shape of a well-formed tree: its lists have the members
/// that the grammar asks for, and each `and` and each `or` has two members at least
/// and none of its own kind.
pub fn statements_have_their_shapes()
    ensures { (line : List ℕ) (meaning : Statement) → IsSentence line meaning → IsShaped meaning }
{}
