//! What is so of each line, by its definition: each function's contract is the law, and its body is empty.
ghost use Rattle.std.specs.Prelude.{◌≡◌, ℕ, List, true};
ghost use Rattle.std.specs.List.{list_all};
ghost use Rattle.proxy_log.specs.Line.{LogLineWords, log_line_text, logged_word};
ghost use Rattle.proxy_log.specs.OneLine.{LogLineValuesAreInRange, TextIsVisibleLineWithLf, is_byte, is_log_word};

/// Whatever a client and an origin sent, a line has one LF, which ends it, and no other control byte.
pub fn a_log_line_is_one_line()
    ensures { (line : LogLineWords) → LogLineValuesAreInRange line → TextIsVisibleLineWithLf (log_line_text line) }
{}

/// A word has no space, so that words can be told apart.
pub fn a_log_word_has_no_space()
    ensures { (text : List ℕ) → list_all is_byte text ≡ true → is_log_word (logged_word text) ≡ true }
{}
