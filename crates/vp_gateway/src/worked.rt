//! Worked sessions: what their lines ask, and what is answered, is exactly this.

ghost use Rattle.std.specs.Prelude.{◌≡◌, ◌++◌, [], ◌∷◌, codes};
ghost use Rattle.vp_gateway.specs.Lines.{all_lines};
ghost use Rattle.vp_gateway.specs.Worked as worked;
ghost use Rattle.vp_gateway.specs.declared.asked.LineRequest.TheVariants as asked;
ghost use Rattle.vp_model.specs.Types.answer;

/// Two calls, and a line that is no call from its first byte on.
pub fn lines_of_a_session()
    ensures { all_lines worked.session ≡ worked.all }
{}

/// Wherever the session is cut, a line is answered once its newline has come.
pub fn sessions_in_pieces()
    ensures within { worked.asked_after [] (codes "beg" ∷ codes "in\n1.1.1 1 re" ∷ codes "ad x\nfoo" ∷ codes "\n" ∷ [])
        ≡ [] ∷ (worked.begin ∷ []) ∷ (worked.begin ∷ worked.call_of_read ∷ []) ∷ worked.all ∷ [] }
    ensures at_newlines { worked.asked_after [] (codes "begin" ∷ codes "\n1.1.1 1 read x\n" ∷ codes "foo\n" ∷ [])
        ≡ [] ∷ (worked.begin ∷ worked.call_of_read ∷ []) ∷ worked.all ∷ [] }
{}

/// The place at which a line is no call: no call goes on so, or has such a number; something follows a call; or nothing is there.
pub fn lines_that_are_no_calls()
    ensures within { all_lines (codes "1.1.1 1 rear x\n") ≡ asked.Bad 12 ∷ [] }
    ensures number { all_lines (codes "17.1.1 1 commit\n") ≡ asked.Bad 2 ∷ [] }
    ensures longer { all_lines (codes "begin \n") ≡ asked.Bad 6 ∷ [] }
    ensures returned { all_lines (codes "begin\r\n") ≡ asked.Bad 6 ∷ [] }
    ensures empty { all_lines (codes "\n") ≡ asked.Bad 1 ∷ [] }
{}

/// The end within a line: even if it could be a whole call, it is asked nothing.
pub fn ends_within_a_line()
    ensures part { all_lines (codes "begin\nbeg") ≡ worked.begin ∷ asked.Bad 4 ∷ [] }
    ensures call { all_lines (codes "begin") ≡ asked.Bad 6 ∷ [] }
    ensures bad { all_lines (codes "foo") ≡ asked.Bad 1 ∷ [] }
    ensures none { all_lines [] ≡ [] }
{}

/// A line of 4,096 bytes is read, and one of a byte more is not, whether its newline comes or the input ends.
pub fn long_lines()
    ensures read { all_lines (worked.many 4096 ++ 10 ∷ []) ≡ asked.Bad 1 ∷ [] }
    ensures long { all_lines (worked.many 4097 ++ codes "\nbegin\n") ≡ asked.Long ∷ worked.begin ∷ [] }
    ensures unended { all_lines (worked.many 4097) ≡ asked.Long ∷ [] }
{}

/// The answers of a session, by what its site replies.
pub fn answers_of_a_session()
    ensures answered { worked.IsAnsweredBy worked.replies worked.session
        (codes "begun 1.1.1 0@0\nvalue 1.1.1 1 10\nbad at 1\n") }
    ensures unanswered { worked.IsAnsweredBy (worked.reply answer.TooManyLive ∷ []) (codes "1.1.1 1 commit\nbeg")
        (codes "no answer\nbad at 4\n") }
    ensures long { worked.IsAnsweredBy [] (worked.many 4097) (codes "long\n") }
{}
