//! What is answered of a statement whose line is too long to be read.
ghost use Rattle.std.specs.Prelude.{◌≡◌, ℕ, Bool, List};
ghost use Rattle.script_reader.specs.Script.{statements_of};
ghost use Rattle.script_reader.specs.Whole.{given, whole_statements_of};
ghost use Rattle.script_reader.specs.declared.clipping.TheConstants.{LINE_LIMIT};
ghost use Rattle.script_reader.specs.declared.statement.Statement.{Statement};
ghost use Rattle.star_lexer.specs.declared.reading.TheConstants.{MAX_LINE_BYTES};
ghost use Rattle.query_meaning.specs.Store.{Store};
ghost use Rattle.star_store.specs.Effect.{effect_of};
ghost use Rattle.star_store.specs.Outcome.{outcome_of};
ghost use Rattle.star_store.specs.Script.{history_of, replies_of};

use crate::laws_of_statements::texts_are_refused_for_the_first_reason;
use script_reader::{long_lines_are_clipped, statements_are_given};

/// A statement is answered as if its whole line had been given, however long that is: what a reader
/// gives in the place of a long line is refused for the same reason, and changes as little. So the
/// replies to a script, and the history that it makes, are those of its whole lines.
pub fn long_lines_are_answered_as_whole_ones()
    ensures limit { LINE_LIMIT ≡ MAX_LINE_BYTES }
    ensures outcome { (store : Store) (statement : Statement) →
        outcome_of store (given statement) ≡ outcome_of store statement }
    ensures effect { (store : Store) (statement : Statement) →
        effect_of store (given statement) ≡ effect_of store statement }
    ensures replies { (wanted : List ℕ) (ended : Bool) (script : List ℕ) →
        replies_of wanted (statements_of ended script)
        ≡ replies_of wanted (whole_statements_of ended script) }
    ensures history { (wanted : List ℕ) (ended : Bool) (script : List ℕ) →
        history_of wanted (statements_of ended script)
        ≡ history_of wanted (whole_statements_of ended script) }
{
    long_lines_are_clipped();
    statements_are_given();
    texts_are_refused_for_the_first_reason();
}
