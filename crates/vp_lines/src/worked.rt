//! Worked inputs: their lines are exactly these.

ghost use Rattle.std.specs.Prelude.{◌≡◌, [], ◌∷◌, codes};
ghost use Rattle.vp_lines.specs.Ahead.{fitting};
ghost use Rattle.vp_lines.specs.Lines.{split};
ghost use Rattle.vp_lines.specs.Worked as worked;
ghost use Rattle.vp_lines.specs.declared.unread.LineFound.TheVariants as found;

/// After the last newline comes a rest, or nothing. Lines may be empty, and other white space ends none.
pub fn texts_in_lines()
    ensures ended { split (codes "begin\nfoo\n") ≡ worked.parts (codes "begin" ∷ codes "foo" ∷ []) [] }
    ensures unended { split (codes "begin\nfoo") ≡ worked.parts (codes "begin" ∷ []) (codes "foo") }
    ensures none { split [] ≡ worked.parts [] [] }
    ensures empty { split (codes "\n\nfoo") ≡ worked.parts ([] ∷ [] ∷ []) (codes "foo") }
    ensures returned { split (codes "begin\r\nfoo\t") ≡ worked.parts (codes "begin\r" ∷ []) (codes "foo\t") }
{}

/// Wherever a text is cut, a line is there once its newline has come.
pub fn texts_in_pieces()
    ensures within { worked.whole_after [] (codes "be" ∷ codes "gin\nfo" ∷ codes "o\nbeg" ∷ [])
        ≡ [] ∷ (codes "begin" ∷ []) ∷ worked.two ∷ [] }
    ensures at_newlines { worked.whole_after [] (codes "begin" ∷ codes "\nfoo\n" ∷ [] ∷ codes "beg" ∷ [])
        ≡ [] ∷ worked.two ∷ worked.two ∷ worked.two ∷ [] }
    ensures one_by_one { worked.whole_after [] (codes "a" ∷ codes "\n" ∷ codes "\n" ∷ codes "b" ∷ [])
        ≡ [] ∷ (codes "a" ∷ []) ∷ (codes "a" ∷ [] ∷ []) ∷ (codes "a" ∷ [] ∷ []) ∷ [] }
{}

/// The same line is found however the bytes come, and of a long one the first bytes are kept.
pub fn lines_however_cut()
    ensures line { worked.IsFoundHoweverCut }
    ensures long { worked.IsCutShort }
{}

/// The end of input within a line, after one, and where nothing was taken.
pub fn ends_of_input()
    ensures within { worked.IsRest (codes "beg") (codes "beg") found.Rest }
    ensures after { worked.IsRest [] [] found.End }
{}

/// Of bytes that are taken beyond the limit, those within it.
pub fn bytes_within_the_limit()
    ensures within { fitting 4 (codes "beg") ≡ codes "beg" }
    ensures beyond { fitting 4 (codes "begin") ≡ codes "beg" }
    ensures none { fitting 1 (codes "beg") ≡ [] }
{}
