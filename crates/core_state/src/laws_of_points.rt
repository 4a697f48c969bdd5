//! Where in the list of entries the statements of a seat stand, and what was sent in two parts.
ghost use Rattle.std.specs.Prelude.{◌≡◌, ℕ, ◌==◌, List, ◌++◌, All, filter, flat_map, length};
ghost use Rattle.reply_text.specs.declared.reply.Reply.{Reply};
ghost use Rattle.core_state.specs.Fronts.{IsPointWithin};
ghost use Rattle.core_state.specs.Points.{ComeInParts, Rise, StandsAtPoint, entry_at};
ghost use Rattle.core_state.specs.Sent.{AreEntriesOf, AreRepliesTo, Sent};
ghost use Rattle.core_state.specs.State.{Entry};

/// Points never fall, and each is above that of an entry made before it. The entries of the seat
/// are those that its statements made, each once, in their order, and each stands at its point.
pub fn points_rise()
    ensures rise { (seat : ℕ) (before : List Entry) (sent : List Sent)
        (since entries : List Entry) → AreEntriesOf seat before sent since →
        entries ≡ before ++ since → Rise seat entries (length before) sent }
    ensures own { (seat : ℕ) (before : List Entry) (sent : List Sent)
        (since entries : List Entry) → AreEntriesOf seat before sent since →
        entries ≡ before ++ since →
        filter (λ entry. entry.seat == seat) since ≡ flat_map (entry_at seat entries) sent }
    ensures stand { (seat : ℕ) (before : List Entry) (sent : List Sent)
        (since entries : List Entry) → AreEntriesOf seat before sent since →
        entries ≡ before ++ since → All (StandsAtPoint seat entries) sent }
{}

/// A beginning of what was sent needs nothing that came later: its points are within the entries
/// that came with it, these are a beginning of all that came, and its replies are right over them.
pub fn a_beginning_of_what_was_sent_stands_alone()
    ensures within { (seat : ℕ) (before : List Entry) (sent : List Sent) (since : List Entry) →
        AreEntriesOf seat before sent since → All (IsPointWithin (length (before ++ since))) sent }
    ensures parts { (seat : ℕ) (before : List Entry) (sent more : List Sent) (since : List Entry) →
        AreEntriesOf seat before (sent ++ more) since → ComeInParts seat before sent more since }
    ensures replies { (entries more : List Entry) (sent : List Sent) (replies : List Reply) →
        All (IsPointWithin (length entries)) sent → AreRepliesTo (entries ++ more) sent replies →
        AreRepliesTo entries sent replies }
{}
