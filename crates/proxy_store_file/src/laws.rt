//! Laws of the definitions of `specs/`, as contracts of functions that do nothing.
ghost use Rattle.std.specs.Prelude.{◌≡◌, ◌++◌, ◌∷◌, ◌<◌, ◌^◌, ℕ, List, [], length, codes, Ok, Err, None, Some};
ghost use Rattle.hx_fields.specs.Line.{Field};
ghost use Rattle.hx_target.specs.declared.keys.Key.{Key};
ghost use Rattle.hx_age.specs.declared.moments.Times.{Times};
ghost use Rattle.proxy_store_file.specs.Texts.{number_spelling, text_spelling, leading_number, leading_text};
ghost use Rattle.proxy_store_file.specs.Heads.{times_spelling, leading_times, key_spelling, leading_key};
ghost use Rattle.proxy_store_file.specs.Heads.{line_spelling, purge_spelling, nominated_text_spelling};
ghost use Rattle.proxy_store_file.specs.Heads.{leading_field_line, nominated_value_spelling, leading_nominated_value};
ghost use Rattle.proxy_store_file.specs.Heads.{head_spelled_in, head_spelling};
ghost use Rattle.hx_store.specs.Weights.{StoreBounds};
ghost use Rattle.proxy_store_file.specs.Fits.{StoreCanBeWritten, StoreContentsAreValid};
ghost use Rattle.proxy_store_file.specs.Stores.{StoreContents, read_store, store_spelling, body_spelling};
ghost use Rattle.proxy_store_file.specs.Stores.{entries_spelling, entry_spelling};
ghost use Rattle.proxy_store_file.specs.declared.store_faults.StoreReadFault.TheVariants as StoreReadFault;
ghost use Rattle.hx_store.specs.Stored.{Stored};
ghost use Rattle.hx_vary.specs.declared.nominated_values.NominatedValue.{NominatedValue};
ghost use Rattle.proxy_store_file.specs.declared.heads.Head.{Head};

/// A number or a text that is spelled is read, and what is read is spelled so.
pub fn texts_are_read_as_they_are_spelled()
    ensures number_again { (n : ℕ) (more : List ℕ) → n < 2 ^ 64
        → leading_number (number_spelling n ++ more) ≡ Some (n, more) }
    ensures number_found { (bytes more : List ℕ) (n : ℕ) → leading_number bytes ≡ Some (n, more)
        → bytes ≡ number_spelling n ++ more }
    ensures text_again { (text more : List ℕ) → length text < 2 ^ 64
        → leading_text (text_spelling text ++ more) ≡ Some (text, more) }
    ensures text_found { (bytes more text : List ℕ) → leading_text bytes ≡ Some (text, more)
        → bytes ≡ text_spelling text ++ more }
{}

/// The parts of a head that are read are spelled so.
pub fn head_parts_are_spelled_as_read()
    ensures times { (bytes more : List ℕ) (times : Times) → leading_times bytes ≡ Some (times, more)
        → bytes ≡ times_spelling times ++ more }
    ensures key { (bytes more : List ℕ) (key : Key) → leading_key bytes ≡ Some (key, more)
        → bytes ≡ key_spelling key ++ more }
    ensures line { (bytes more : List ℕ) (line : Field) → leading_field_line bytes ≡ Some (line, more)
        → bytes ≡ line_spelling line ++ more }
    ensures kept { (bytes more : List ℕ) (kept : NominatedValue) → leading_nominated_value bytes ≡ Some (kept, more)
        → bytes ≡ nominated_value_spelling kept ++ more }
    ensures head { (bytes : List ℕ) (head : Head) → head_spelled_in bytes ≡ Some head → bytes ≡ head_spelling head }
{}

/// Each text that is read is the spelling of the store that it is read as, so every other text is refused. No two texts
/// are read as one store.
pub fn read_texts_are_spellings()
    ensures { (bounds : StoreBounds) (text : List ℕ) (store : StoreContents) → read_store bounds text ≡ Ok store
        → text ≡ store_spelling store }
{}

/// A store that can be told is read as it was written.
pub fn written_stores_are_read_as_they_were()
    ensures { (bounds : StoreBounds) (store : StoreContents) → StoreCanBeWritten bounds store
        → read_store bounds (store_spelling store) ≡ Ok store }
{}

/// What is read may stand: each part of an entry is what it must be, no serial stands twice, each is below the next
/// one, and number and weight keep to the bounds.
pub fn read_stores_are_valid()
    ensures { (bounds : StoreBounds) (text : List ℕ) (store : StoreContents) → read_store bounds text ≡ Ok store
        → StoreContentsAreValid bounds store }
{}

/// Worked spellings of numbers, texts, values and purges, of a store without entries, and of two entries, of which the
/// latest used stands last.
#[tactic(auto, unfolding(crate::specs::Texts::number_spelling))]
pub fn worked_bytes_are_spelled()
    ensures number { number_spelling 258 ≡ 0 ∷ 0 ∷ 0 ∷ 0 ∷ 0 ∷ 0 ∷ 1 ∷ 2 ∷ [] }
    ensures text { text_spelling (codes "ab") ≡ 0 ∷ 0 ∷ 0 ∷ 0 ∷ 0 ∷ 0 ∷ 0 ∷ 2 ∷ 97 ∷ 98 ∷ [] }
    ensures no_value { nominated_text_spelling None ≡ 0 ∷ 0 ∷ 0 ∷ 0 ∷ 0 ∷ 0 ∷ 0 ∷ 0 ∷ [] }
    ensures empty_value { nominated_text_spelling (Some []) ≡ 0 ∷ 0 ∷ 0 ∷ 0 ∷ 0 ∷ 0 ∷ 0 ∷ 1 ∷ [] }
    ensures no_purge { purge_spelling None ≡ [] }
    ensures purge { purge_spelling (Some 258) ≡ 0 ∷ 0 ∷ 0 ∷ 0 ∷ 0 ∷ 0 ∷ 1 ∷ 2 ∷ [] }
    ensures empty_store { body_spelling (record { entries = []; next_serial = 7 })
        ≡ codes "revcache store 1" ++ 10 ∷ 0 ∷ 0 ∷ 0 ∷ 0 ∷ 0 ∷ 0 ∷ 0 ∷ 7 ∷ 0 ∷ 0 ∷ 0 ∷ 0 ∷ 0 ∷ 0 ∷ 0 ∷ 0 ∷ [] }
    ensures latest_last { (latest earlier : Stored)
        → entries_spelling (latest ∷ earlier ∷ []) ≡ entry_spelling earlier ++ entry_spelling latest }
{}

/// Worked texts that are no store: too short, of another version, something else.
#[tactic(auto, unfolding(crate::specs::Stores::read_store))]
pub fn texts_that_are_no_store_are_refused()
    ensures short { (bounds : StoreBounds) → read_store bounds (codes "revcache store 1") ≡ Err (StoreReadFault.Short 0) }
    ensures version { (bounds : StoreBounds) → read_store bounds (codes "revcache store 2" ++ 10 ∷ [])
        ≡ Err StoreReadFault.Version }
    ensures other { (bounds : StoreBounds) → read_store bounds (codes "version = 4, a table") ≡ Err StoreReadFault.NotAStore }
{}
