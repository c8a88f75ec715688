ghost use Rattle.pc_print.specs.Tokens.{CanonicalTokensSpell, CanonicalTextSpells};
ghost use Rattle.pc_print.specs.Same.{CanonicalBodySpells};
ghost use Rattle.pc_print.specs.SameItems.{CanonicalProgramSpells};

/// A tree that some tokens spell is spelled by its canonical tokens, and by any that differ from them in their places
/// alone, up to the places in the tree.
pub fn canonical_tokens_spell()
    ensures { CanonicalTokensSpell }
{}

/// The canonical text of an expression has tokens, and they spell the same tree, up to its places.
pub fn canonical_text_spells()
    ensures { CanonicalTextSpells }
{}

/// The canonical text of statements has tokens, and they spell the same statements, up to their places.
pub fn canonical_body_spells()
    ensures { CanonicalBodySpells }
{}

/// The canonical text of a program has tokens, and they spell the same program, up to its places.
pub fn canonical_program_spells()
    ensures { CanonicalProgramSpells }
{}
