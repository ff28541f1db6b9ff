//! Worked cases of scripts and effects, computed from the definitions. The format is told in docs/OPERATIONS.md.
ghost use Rattle.std.specs.Prelude.{◌≡◌, ◌∷◌, [], None, Some, codes, true, false};
ghost use Rattle.hx_status.specs.Abouts.{purge_status_and_reason};
ghost use Rattle.hx_status.specs.declared.cause.FailKind.TheVariants.{Refused, TimedOut, Closed};
ghost use Rattle.hx_status.specs.declared.question.AskedTarget.TheVariants.{AsItCame};
ghost use Rattle.proxy_script.specs.declared.effect_list.Effect.TheVariants as effect;
ghost use Rattle.proxy_script.specs.Effects.{effect_text, effects_text};
ghost use Rattle.proxy_script.specs.Happenings as happening;
ghost use Rattle.proxy_script.specs.Script.{Cut, Found, Happens, Moment, Table, Wrong, leading_item, item_spelling};

/// How each item is spelled: a word, its numbers, and for bytes a block behind the line.
pub fn worked_items_are_spelled()
    ensures table { item_spelling (Table (codes "* * GET\n")) ≡ codes "config 8\n* * GET\n\n" }
    ensures empty_table { item_spelling (Table []) ≡ codes "config 0\n\n" }
    ensures moment { item_spelling (Moment 1000) ≡ codes "at 1000\n" }
    ensures accepts { item_spelling (Happens (happening.Accepts 1)) ≡ codes "accept 1\n" }
    ensures sends { item_spelling (Happens (happening.Sends 1 (codes "GET"))) ≡ codes "client 1 3\nGET\n" }
    ensures hears { item_spelling (Happens (happening.Hears 2 (codes "HTTP"))) ≡ codes "link 2 4\nHTTP\n" }
    ensures ends { item_spelling (Happens (happening.Ends 1)) ≡ codes "end 1\n" }
    ensures leaves { item_spelling (Happens (happening.Leaves 1)) ≡ codes "gone 1\n" }
    ensures retires { item_spelling (Happens (happening.Retires 1)) ≡ codes "retire 1\n" }
    ensures overdue { item_spelling (Happens (happening.Overdues 1)) ≡ codes "overdue 1\n" }
    ensures shuts { item_spelling (Happens (happening.Shuts 2)) ≡ codes "shut 2\n" }
    ensures refused { item_spelling (Happens (happening.Fails 2 Refused)) ≡ codes "fail 2 refused\n" }
    ensures timed_out { item_spelling (Happens (happening.Fails 2 TimedOut)) ≡ codes "fail 2 timed-out\n" }
    ensures closed { item_spelling (Happens (happening.Fails 2 Closed)) ≡ codes "fail 2 closed\n" }
{}

/// What stands at the front of a script; what follows it is left.
#[tactic(auto, unfolding(crate::specs::Script::leading_item, crate::specs::ScriptLines::line_of_text, crate::specs::DecimalNumbers::number_of))]
pub fn worked_items_are_read()
    ensures table { leading_item true (codes "config 3\na\nb\nat 1\n") ≡ Found (Table (codes "a\nb")) (codes "at 1\n") }
    ensures moment { leading_item false (codes "at 0\nx") ≡ Found (Moment 0) (codes "x") }
    ensures last_moment { leading_item false (codes "at 253402300799\n") ≡ Found (Moment 253402300799) [] }
    ensures accepts { leading_item false (codes "accept 1\n") ≡ Found (Happens (happening.Accepts 1)) [] }
    ensures last_number { leading_item false (codes "accept 18446744073709551615\n")
        ≡ Found (Happens (happening.Accepts 18446744073709551615)) [] }
    ensures sends { leading_item false (codes "client 1 3\nGET\nend 1\n")
        ≡ Found (Happens (happening.Sends 1 (codes "GET"))) (codes "end 1\n") }
    ensures nothing { leading_item false (codes "client 1 0\n\n") ≡ Found (Happens (happening.Sends 1 [])) [] }
    ensures hears { leading_item false (codes "link 2 4\nHTTP\n") ≡ Found (Happens (happening.Hears 2 (codes "HTTP"))) [] }
    ensures ends { leading_item false (codes "end 1\n") ≡ Found (Happens (happening.Ends 1)) [] }
    ensures leaves { leading_item false (codes "gone 1\n") ≡ Found (Happens (happening.Leaves 1)) [] }
    ensures retires { leading_item false (codes "retire 1\n") ≡ Found (Happens (happening.Retires 1)) [] }
    ensures overdue { leading_item false (codes "overdue 1\n") ≡ Found (Happens (happening.Overdues 1)) [] }
    ensures shuts { leading_item false (codes "shut 2\n") ≡ Found (Happens (happening.Shuts 2)) [] }
    ensures refused { leading_item false (codes "fail 2 refused\n") ≡ Found (Happens (happening.Fails 2 Refused)) [] }
    ensures timed_out { leading_item false (codes "fail 2 timed-out\n") ≡ Found (Happens (happening.Fails 2 TimedOut)) [] }
    ensures closed { leading_item false (codes "fail 2 closed\n") ≡ Found (Happens (happening.Fails 2 Closed)) [] }
{}

/// A line without its LF and a block that isn't whole wait for the rest.
#[tactic(auto, unfolding(crate::specs::Script::leading_item, crate::specs::ScriptLines::line_of_text, crate::specs::DecimalNumbers::number_of))]
pub fn worked_unfinished_items()
    ensures nothing { leading_item false [] ≡ Cut }
    ensures line { leading_item false (codes "end 1") ≡ Cut }
    ensures wrong_line { leading_item false (codes "no such word") ≡ Cut }
    ensures block { leading_item false (codes "client 1 3\nGE") ≡ Cut }
    ensures end_of_block { leading_item false (codes "client 1 3\nGET") ≡ Cut }
    ensures link { leading_item false (codes "link 1 1\n") ≡ Cut }
    ensures table { leading_item true (codes "config 1\nx") ≡ Cut }
{}

/// What is no item: another word, a number that has no spelling, a block without LF, a table that isn't first.
#[tactic(auto, unfolding(crate::specs::Script::leading_item, crate::specs::ScriptLines::line_of_text, crate::specs::DecimalNumbers::number_of))]
pub fn wrong_items_are_refused()
    ensures empty { leading_item false (codes "\n") ≡ Wrong }
    ensures word { leading_item false (codes "ends 1\n") ≡ Wrong }
    ensures upper_case { leading_item false (codes "END 1\n") ≡ Wrong }
    ensures no_number { leading_item false (codes "end \n") ≡ Wrong }
    ensures no_space { leading_item false (codes "end\n") ≡ Wrong }
    ensures two_spaces { leading_item false (codes "end  1\n") ≡ Wrong }
    ensures space_behind { leading_item false (codes "end 1 \n") ≡ Wrong }
    ensures retired { leading_item false (codes "retired 1\n") ≡ Wrong }
    ensures leading_zero { leading_item false (codes "end 01\n") ≡ Wrong }
    ensures slash { leading_item false (codes "end 1/\n") ≡ Wrong }
    ensures colon { leading_item false (codes "end 1:\n") ≡ Wrong }
    ensures large_number { leading_item false (codes "end 18446744073709551616\n") ≡ Wrong }
    ensures large_moment { leading_item false (codes "at 253402300800\n") ≡ Wrong }
    ensures one_number { leading_item false (codes "client 1\n") ≡ Wrong }
    ensures three_numbers { leading_item false (codes "client 1 2 3\n") ≡ Wrong }
    ensures no_failure { leading_item false (codes "fail 1\n") ≡ Wrong }
    ensures other_failure { leading_item false (codes "fail 1 bad-answer\n") ≡ Wrong }
    ensures large_answer { leading_item false (codes "fail 1 too-large\n") ≡ Wrong }
    ensures no_feed { leading_item false (codes "client 1 3\nGET!") ≡ Wrong }
    ensures second_table { leading_item false (codes "config 0\n\n") ≡ Wrong }
    ensures no_table { leading_item true (codes "at 1\n") ≡ Wrong }
{}

/// How each effect is told.
pub fn worked_effects_are_spelled()
    ensures closes { effects_text (effect.Close 1 ∷ effect.Drop 2 ∷ []) ≡ codes "close 1\ndrop 2\n" }
    ensures bytes { effects_text (effect.Client 3 (codes "hi") None ∷ effect.Close 3 ∷ [])
        ≡ codes "client 3 2\nhi\nclose 3\n" }
    ensures reply { effect_text (effect.Client 3 (codes "hi") (Some (record {
      about = purge_status_and_reason 7;
      question = Some (record { method = codes "PURGE"; target = AsItCame (codes "/a") });
    }))) ≡ codes "client 3 2\nhi\n" }
    ensures forward { effect_text
        (effect.Forward 7 (record { ip = record { octets = 127 ∷ 0 ∷ 0 ∷ 1 ∷ [] }; port = 80 }) (codes "GET"))
        ≡ codes "forward 7 127.0.0.1:80 3\nGET\n" }
    ensures nothing { effects_text [] ≡ [] }
{}
