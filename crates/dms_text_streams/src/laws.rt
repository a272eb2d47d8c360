//! Laws on conversations, each the contract of a function that does nothing.

ghost use Rattle.std.specs.Prelude.{◌≡◌, ◌++◌, ℕ, List};
ghost use Rattle.std.specs.Str.Lines.{lines};
ghost use Rattle.dms_text_streams.specs.Lines.{AreWholeLines};
ghost use Rattle.dms_text_streams.specs.Conversation.{answers, left_by_all};

use crate::party::Party;

/// The lines of two texts put together are those of each in turn, where the first is empty or ends in a newline.
pub fn texts_have_the_lines_of_each()
    ensures { (first second : List ℕ) → AreWholeLines first → lines (first ++ second) ≡ lines first ++ lines second }
{}

/// A party answers two lists of lines as it answers the first, and then as what the first leaves answers the second.
pub fn conversations_go_on<P: Party>()
    ensures answers { (state : P.State) (first second : List (List ℕ)) → answers P.reply P.after state (first ++ second)
        ≡ answers P.reply P.after state first ++ answers P.reply P.after (left_by_all P.after state first) second }
    ensures after { (state : P.State) (first second : List (List ℕ)) → left_by_all P.after state (first ++ second)
        ≡ left_by_all P.after (left_by_all P.after state first) second }
{}

/// A party that is made again and given its journal (the whole lines that it was given before) answers all that
/// follows, and is afterwards, as if it had never ended.
pub fn journals_bring_their_party_back<P: Party>()
    ensures answers { (state : P.State) (journal more : List ℕ) → AreWholeLines journal
        → answers P.reply P.after state (lines (journal ++ more)) ≡ answers P.reply P.after state (lines journal)
        ++ answers P.reply P.after (left_by_all P.after state (lines journal)) (lines more) }
    ensures after { (state : P.State) (journal more : List ℕ) → AreWholeLines journal
        → left_by_all P.after state (lines (journal ++ more))
        ≡ left_by_all P.after (left_by_all P.after state (lines journal)) (lines more) }
{}
