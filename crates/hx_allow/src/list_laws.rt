//! What the definitions say of lists of hosts and paths, and of hosts below others: each function's
//! contract is a law, or worked cases, and its body is empty.
ghost use Rattle.std.specs.Prelude.{◌≡◌, ◌++◌, ◌∷◌, [], List, ℕ, Some, None, true, false, codes, option_map, map};
ghost use Rattle.std.specs.Prelude.{nat_le};
ghost use Rattle.std.specs.Option.{option_and_then};
ghost use Rattle.std.specs.List.{list_any};
ghost use Rattle.std.specs.Char.{is_ascii_lowercase};
ghost use Rattle.toml.specs.Data.{Members, Data, get_member, array, string, item, no_items, integer};
ghost use Rattle.hx_target.specs.declared.targets.Target.{Target};
ghost use Rattle.hx_allow.specs.Deciding.{deciding_line};
ghost use Rattle.hx_allow.specs.LineHosts.{is_below_host, labels_of};
ghost use Rattle.hx_allow.specs.Matching.{matches_line};
ghost use Rattle.hx_allow.specs.OneByOne.{line_for_each_host_and_path, lines_split_by_host_and_path};
ghost use Rattle.hx_allow.specs.OneByOne.{origin_and_policy_of_line};
ghost use Rattle.hx_allow.specs.LineTables.{is_text_or_list_of_kind, most_list_texts};
ghost use Rattle.hx_allow.specs.Rows.{ValueKind, a_host, a_path};
ghost use Rattle.hx_allow.specs.TableLines.{Line};
ghost use Rattle.hx_allow.specs.Values.{texts_of_key};
ghost use Rattle.hx_allow.specs.declared.values.TableVersion.TheVariants.{Four};

/// Lists are a spelling, and no new rule. A line matches what one of its lines one by one matches: one
/// for each of its hosts with each of its paths. Where each line of a table is spelled so, in its place,
/// the line that decides on a request is the first that matches among those of the line that decided
/// before, and says the same: its origin, or that it denies, and its words.
pub fn lists_mean_the_same_as_many_lines()
    ensures matching { (line : Line) (method : List ℕ) (target : Target) → matches_line line method target
        ≡ list_any (λ one. matches_line one method target) (line_for_each_host_and_path line) }
    ensures deciding { (lines : List Line) (method : List ℕ) (target : Target)
        → deciding_line (lines_split_by_host_and_path lines) method target
        ≡ option_and_then (λ line. deciding_line (line_for_each_host_and_path line) method target)
        (deciding_line lines method target) }
    ensures said { (lines : List Line) (method : List ℕ) (target : Target)
        → option_map origin_and_policy_of_line (deciding_line (lines_split_by_host_and_path lines) method target)
        ≡ option_map origin_and_policy_of_line (deciding_line lines method target) }
{}

/// A text alone is a list of one: it has the same texts, and is good where that is, since a list may have one.
pub fn a_text_alone_is_a_list_of_one()
    ensures texts { (key text : List ℕ) (alone list : Members) → get_member key alone ≡ Some (string text)
        → get_member key list ≡ Some (array (item (string text) no_items)) → texts_of_key key list
        ≡ texts_of_key key alone }
    ensures good { (kind : ValueKind) (key text : List ℕ) (alone list : Members) → nat_le 1 (most_list_texts kind)
        ≡ true
        → get_member key alone ≡ Some (string text)
        → get_member key list ≡ Some (array (item (string text) no_items))
        → is_text_or_list_of_kind Four kind key list ≡ is_text_or_list_of_kind Four kind key alone }
{}

/// A host is below another where it ends with a dot and that one (RFC 1034, section 3.1), so by whole
/// labels. No host is below itself, what is below a host that is below a third is below that, and an
/// IPv4 address, which has no letter, isn't below a name that has one.
pub fn subdomains_end_with_dot_and_host()
    ensures ends { (host asked : List ℕ) → is_below_host host asked ≡ true
        → (front : List ℕ) × (asked ≡ front ++ 46 ∷ host) }
    ensures each { (front host : List ℕ) → is_below_host host (front ++ 46 ∷ host) ≡ true }
    ensures not_itself { (host : List ℕ) → is_below_host host host ≡ false }
    ensures further { (host later asked : List ℕ) → is_below_host host later ≡ true → is_below_host later asked ≡ true
        → is_below_host host asked ≡ true }
    ensures no_address { (host asked : List ℕ) → list_any is_ascii_lowercase host ≡ true
        → list_any is_ascii_lowercase asked ≡ false → is_below_host host asked ≡ false }
{}

/// The labels of hosts, and which hosts are below others.
pub fn worked_hosts_below_others()
    ensures labels { labels_of (codes "a.b.example") ≡ codes "a" ∷ codes "b" ∷ codes "example" ∷ [] }
    ensures one_label { labels_of (codes "example") ≡ codes "example" ∷ [] }
    ensures final_dot { labels_of (codes "a.") ≡ codes "a" ∷ [] ∷ [] }
    ensures one { is_below_host (codes "example") (codes "a.example") ≡ true }
    ensures two { is_below_host (codes "example") (codes "a.b.example") ≡ true }
    ensures of_two_labels { is_below_host (codes "b.example") (codes "a.b.example") ≡ true }
    ensures beside { is_below_host (codes "b.example") (codes "a.example") ≡ false }
    ensures itself { is_below_host (codes "example") (codes "example") ≡ false }
    ensures above { is_below_host (codes "a.example") (codes "example") ≡ false }
    ensures no_dot { is_below_host (codes "example") (codes "anexample") ≡ false }
    ensures no_dot_further { is_below_host (codes "example") (codes "a.anexample") ≡ false }
    ensures longer { is_below_host (codes "example") (codes "a.example.net") ≡ false }
    ensures with_final_dot { is_below_host (codes "example") (codes "a.example.") ≡ false }
    ensures both_final_dots { is_below_host (codes "example.") (codes "a.example.") ≡ true }
    ensures part { is_below_host (codes "ample") (codes "a.ex.ample") ≡ true }
{}
