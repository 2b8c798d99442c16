//! Worked examples of the definitions. The functions do nothing: their contracts are the examples.

ghost use Rattle.std.specs.Prelude.{◌≡◌, [], ◌∷◌, codes};
ghost use Rattle.xs_numbering.specs.Counting.{any, multiple, single};
ghost use Rattle.xs_numbering.specs.Examples.{book, headings, is_named, is_part, never};
ghost use Rattle.xs_numbering.specs.Numbers.{list_text};

/// Texts of numbers under formats (XSLT 1.0, 7.7.1).
pub fn formats()
    ensures tokens { list_text None (codes "(1.a)") (1 ∷ 2 ∷ []) ≡ codes "(1.b)" }
    ensures fewer { list_text None (codes "(1.a)") (3 ∷ []) ≡ codes "(3)" }
    ensures more { list_text None (codes "1-a)") (1 ∷ 2 ∷ 3 ∷ []) ≡ codes "1-b-c)" }
    ensures point { list_text None (codes "i") (4 ∷ 9 ∷ []) ≡ codes "iv.ix" }
    ensures no_token { list_text None (codes "-") (2 ∷ 1 ∷ []) ≡ codes "-2.1" }
    ensures no_format { list_text None [] (7 ∷ []) ≡ codes "7" }
    ensures no_number { list_text None (codes "(1)") [] ≡ [] }
    ensures width { list_text None (codes "001") (7 ∷ 1234 ∷ []) ≡ codes "007.1234" }
    ensures other { list_text None (codes "11") (5 ∷ []) ≡ codes "5" }
    ensures letters { list_text None (codes "A") (1 ∷ 26 ∷ 27 ∷ 703 ∷ []) ≡ codes "A.Z.AA.AAA" }
    ensures none { list_text None (codes "a") (0 ∷ []) ≡ codes "0" }
    ensures no_width { list_text None (codes "001") (0 ∷ 3 ∷ []) ≡ codes "0.003" }
    ensures no_letters { list_text (Some (codes ",", 3)) (codes "I") (4000 ∷ []) ≡ codes "4000" }
    ensures roman { list_text None (codes "I") (1999 ∷ 3888 ∷ []) ≡ codes "MCMXCIX.MMMDCCCLXXXVIII" }
    ensures large { list_text None (codes "i") (3999 ∷ 4000 ∷ []) ≡ codes "mmmcmxcix.4000" }
    ensures groups { list_text (Some (codes ",", 3)) (codes "1") (1234567 ∷ 12 ∷ [])
        ≡ codes "1,234,567.12" }
    ensures zeros { list_text (Some (codes ",", 1)) (codes "001") (5 ∷ []) ≡ codes "0,0,5" }
    ensures no_groups { list_text (Some (codes "--", 3)) (codes "1") (1234 ∷ []) ≡ codes "1234" }
{}

/// Numbers that are counted (XSLT 1.0, 7.7).
pub fn counts()
    ensures first { any (is_named (codes "i") headings) (is_named (codes "h") headings)
        headings 3 ≡ 1 ∷ [] }
    ensures second { any (is_named (codes "i") headings) (is_named (codes "h") headings)
        headings 4 ≡ 2 ∷ [] }
    ensures again { any (is_named (codes "i") headings) (is_named (codes "h") headings)
        headings 6 ≡ 1 ∷ [] }
    ensures itself { any (is_named (codes "h") headings) (is_named (codes "h") headings)
        headings 5 ≡ 1 ∷ [] }
    ensures none { any (is_named (codes "x") headings) never headings 6 ≡ 0 ∷ [] }
    ensures all { any is_part never book 8 ≡ 6 ∷ [] }
    ensures levels { multiple is_part never book 8 ≡ 2 ∷ 2 ∷ [] }
    ensures below { multiple is_part (is_named (codes "c") book) book 8 ≡ 2 ∷ [] }
    ensures own { multiple is_part (is_named (codes "c") book) book 5 ≡ 2 ∷ [] }
    ensures nearest { single is_part never book 8 ≡ 2 ∷ [] }
    ensures outer { single (is_named (codes "c") book) never book 8 ≡ 2 ∷ [] }
    ensures past { single (is_named (codes "c") book) (is_named (codes "c") book) book 8 ≡ [] }
{}
