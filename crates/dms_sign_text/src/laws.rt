//! Laws of signs as text, each the contract of a function that does nothing.

ghost use Rattle.std.specs.Prelude.{◌≡◌, ℕ, List};
ghost use Rattle.std.specs.Str.Lines.{lines};
ghost use Rattle.dms_text.specs.Lines.{kept_lines};
ghost use Rattle.dms_sign_text.specs.Setups.{BeginsWith};
ghost use Rattle.dms_sign_text.specs.Description.{Description, SpellsSign};
ghost use Rattle.dms_sign_text.specs.RefusedLine.{NumberedLines, all_numbered, IsRefusedLine};

/// The lines of a text spell at most one sign.
pub fn lines_spell_at_most_one_sign()
    ensures { (lines : List (List ℕ)) (one other : Description) → SpellsSign lines one
        → SpellsSign lines other → one ≡ other }
{}

/// Lines begin with those of at most one sign, and the same lines are left after it: what a script names is one sign.
pub fn first_lines_spell_at_most_one_sign()
    ensures { (lines rest others : List (List ℕ)) (one other : Description) → BeginsWith lines rest one
        → BeginsWith lines others other → (one ≡ other) × (rest ≡ others) }
{}

/// Lines are refused as a description for at most one of them.
pub fn lines_are_refused_for_at_most_one()
    ensures { (it : NumberedLines) (one other : ℕ) → IsRefusedLine it one → IsRefusedLine it other → one ≡ other }
{}

/// The lines of a text that spells a sign are refused for none of them.
pub fn lines_of_a_sign_are_refused_for_none()
    ensures { (octets : List ℕ) (number : ℕ) (sign : Description) → SpellsSign (kept_lines octets) sign
        → IsRefusedLine (all_numbered (lines octets)) number → ⊥ }
{}
