//! What a seat that has a core alone comes to, and how many laps its replies take.
ghost use Rattle.std.specs.Prelude.{◌≡◌, ◌<◌, ℕ, List, ◌++◌, All};
ghost use Rattle.reply_text.specs.declared.reply.Reply.{Reply};
ghost use Rattle.star_store.specs.Script.{history_from, replies_after};
ghost use Rattle.core_state.specs.Sent.{AreEntriesOf, AreRepliesTo, Sent, statements_in};
ghost use Rattle.core_state.specs.State.{Entry};
ghost use Rattle.core_state.specs.Tables.{changes_of};
ghost use Rattle.script_run.specs.Laps.{laps_of, laps_of_pieces};

/// Where nobody else makes an entry, what a seat sent is a run: where memory was wanted at some
/// places, the replies to what it sent are those to these statements behind the history before, and
/// so is the history that they make.
pub fn a_seat_alone_is_a_run()
    ensures { (seat : ℕ) (before : List Entry) (sent : List Sent) (since entries : List Entry)
        (replies : List Reply) → AreEntriesOf seat before sent since →
        All (λ entry. entry.seat ≡ seat) since → entries ≡ before ++ since →
        AreRepliesTo entries sent replies →
        (wanted : List ℕ)
        × (replies ≡ replies_after wanted 0 (changes_of before) (statements_in sent))
        × (changes_of entries ≡ history_from wanted 0 (changes_of before) (statements_in sent)) }
{}

/// The laps that replies take are the sum of those that their pieces take. A piece ends with a
/// `waited` or a `memory`, and takes as many laps as its queries need if each lap has room for as
/// many as there are slots.
pub fn laps_add_up_over_pieces()
    ensures { (slots : ℕ) (replies : List Reply) →
        0 < slots → laps_of slots replies ≡ laps_of_pieces slots replies }
{}
