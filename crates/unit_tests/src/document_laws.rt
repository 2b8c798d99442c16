//! What the relation between bytes and lines says of single rows and of two documents.

ghost use Rattle.std.specs.Prelude.{◌≡◌, ◌∷◌, [], true, false, codes};
ghost use Rattle.xs_pyx.specs.Reading.{says, faulty};
ghost use Rattle.xs_pyx.specs.Lines.{AreLines, Says};
ghost use Rattle.xs_pyx.specs.declared.line.Line.TheVariants.{Attr, Chars, End, Pi, Start};

/// What single rows say.
pub(crate) fn lines()
    ensures name { Says (record { bytes = codes "(a:b"; ended = true })
        (says (Start (codes "a:b"))) }
    ensures pair_in_name { Says (record { bytes = codes "(a\\n"; ended = true })
        (says (Start (codes "a\\n"))) }
    ensures no_space { Says (record { bytes = codes "Ax"; ended = true })
        (says (Attr (codes "x") [])) }
    ensures space_at_end { Says (record { bytes = codes "Ax "; ended = true })
        (says (Attr (codes "x") [])) }
    ensures two_spaces { Says (record { bytes = codes "?a b c"; ended = true })
        (says (Pi (codes "a") (codes "b c"))) }
    ensures space_first { Says (record { bytes = codes "A  x"; ended = true })
        (says (Attr [] (codes " x"))) }
    ensures pairs { Says (record { bytes = codes "Aa\\n \\n"; ended = true })
        (says (Attr (codes "a\\n") (10 ∷ []))) }
    ensures empty_text { Says (record { bytes = codes "-"; ended = true }) (says (Chars [])) }
    ensures carriage_return { Says (record { bytes = 45 ∷ 97 ∷ 13 ∷ []; ended = true })
        (says (Chars (97 ∷ 13 ∷ []))) }
{}

/// The faults of single rows, where several might be meant.
pub(crate) fn faults()
    ensures not_utf8 { Says (record { bytes = 45 ∷ 92 ∷ 113 ∷ 255 ∷ []; ended = false })
        (faulty 3) }
    ensures empty { Says (record { bytes = []; ended = true }) (faulty 1) }
    ensures unknown { Says (record { bytes = codes "x\\q"; ended = false }) (faulty 1) }
    ensures pair_over_space { Says (record { bytes = codes "A\\ b"; ended = true }) (faulty 2) }
    ensures bad_pair_unended { Says (record { bytes = codes "-\\q"; ended = false }) (faulty 2) }
    ensures last_backslash { Says (record { bytes = codes "C\\"; ended = true }) (faulty 2) }
    ensures unended { Says (record { bytes = codes "-x"; ended = false }) (faulty 4) }
{}

/// A document of two lines, and one of none.
pub(crate) fn documents()
    ensures two { AreLines (40 ∷ 114 ∷ 10 ∷ 41 ∷ 114 ∷ 10 ∷ [])
        (Start (codes "r") ∷ End (codes "r") ∷ []) }
    ensures none { AreLines [] [] }
{}
