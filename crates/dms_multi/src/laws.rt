//! Laws of the grammar, of its reading and of the canonical text, each the contract of a function that does nothing.
ghost use Rattle.std.specs.Prelude.{◌≡◌, ◌<◌, ℕ, List, [], ◌++◌, take, Some, None, All};
ghost use Rattle.dms_multi.specs.declared.item.Item.{Item};
ghost use Rattle.dms_multi.specs.declared.fault.SyntaxFault.{SyntaxFault};
ghost use Rattle.dms_multi.specs.Item.{IsInRange};
ghost use Rattle.dms_multi.specs.Grammar.{ItemSpells, TextSpells, IsSyntaxFault};
ghost use Rattle.dms_multi.specs.Outcomes.{items_of, syntax_fault};
ghost use Rattle.dms_multi.specs.Canonical.{text_of};

/// No spelling of an item begins a spelling of another, or a longer one of the same.
pub fn no_spelling_begins_another()
    ensures { (item other : Item) (piece more : List ℕ) → ItemSpells item piece
        → ItemSpells other (piece ++ more) → (item ≡ other) × (more ≡ []) }
{}

/// A text spells at most one list of items.
pub fn one_list()
    ensures { (items others : List Item) (text : List ℕ) → TextSpells items text
        → TextSpells others text → items ≡ others }
{}

/// The items and the fault that are read of a text are those of the grammar.
pub fn reading_follows_grammar()
    // A text that items spell is read as these, without a fault.
    ensures only { (items : List Item) (text : List ℕ) → TextSpells items text
        → (items_of text ≡ items) × (syntax_fault text ≡ None) }
    // What is read without a fault spells the text.
    ensures found { (text : List ℕ) → syntax_fault text ≡ None → TextSpells (items_of text) text }
    // A fault stands after the longest prefix that items spell, and the items read are those of this prefix.
    ensures fault { (text : List ℕ) (fault : SyntaxFault) → syntax_fault text ≡ Some fault
        → IsSyntaxFault text fault × TextSpells (items_of text) (take fault.place text) }
{}

/// The items that octets spell are in their ranges.
pub fn spelled_items_are_in_range()
    ensures { (items : List Item) (text : List ℕ) → All (λ c. c < 256) text → TextSpells items text
        → All IsInRange items }
{}

/// The canonical text of items in their ranges spells them.
pub fn canonical_text_spells()
    ensures { (items : List Item) → All IsInRange items → TextSpells items (text_of items) }
{}
